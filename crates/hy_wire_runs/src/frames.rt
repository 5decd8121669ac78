//! Frames of rows of two fields.
ghost use Rattle.std.specs.Prelude.{◌≡◌, ◌<◌, ◌+◌, [], ◌∷◌, ◌++◌, IfOk, OnOk};

use crate::fault::WireFault;
use hy_frame::{Append, Bank, Frame, RowBuf};
use std::alloc::Global;

/// A frame of a bank's own size with these rows.
pub(crate) fn frame_of(alloc: Global, bank: &mut Bank, rows: &[RowBuf]) -> Result<Frame, WireFault>
    requires { bank.old.out < bank.old.limit }
    ensures frame { IfOk result (λ f. (f.arity ≡ 2) × (f.unit ≡ bank.old.unit)) }
    ensures rows { IfOk result (λ f. f.rows ≡ rows.now) }
    ensures out { IfOk result (λ _. bank.new.out ≡ bank.old.out + 1) }
    ensures bank { (bank.new.unit ≡ bank.old.unit) × (bank.new.limit ≡ bank.old.limit) }
{
    let mut frame = bank.take(alloc, 2, 1)?;
    for row in rows {
        append(&mut frame, row)?;
    }
    Ok(frame)
}

fn append(frame: &mut Frame, row: &RowBuf) -> Result<(), WireFault>
    requires { (frame.old.arity ≡ 2) × (frame.old.size ≡ frame.old.unit) }
    ensures frame { (frame.new.arity ≡ 2) × (frame.new.size ≡ frame.new.unit) × (frame.new.unit ≡ frame.old.unit) }
    ensures rows { OnOk result (frame.new.rows ≡ frame.old.rows ++ row.now ∷ []) }
{
    if row.len() != 2 {
        return Err(WireFault::Unexpected);
    }
    match frame.append(row) {
        Append::Appended => Ok(()),
        Append::NoRoom => Err(WireFault::Unexpected),
    }
}

/// A frame with one row, as large as the row needs it.
pub(crate) fn frame_alone(alloc: Global, bank: &mut Bank, row: &RowBuf) -> Result<Frame, WireFault>
    requires { bank.old.out < bank.old.limit }
    ensures frame { IfOk result (λ f. (f.arity ≡ 2) × (f.unit ≡ bank.old.unit)) }
    ensures rows { IfOk result (λ f. f.rows ≡ row.now ∷ []) }
    ensures out { IfOk result (λ _. bank.new.out ≡ bank.old.out + 1) }
    ensures bank { (bank.new.unit ≡ bank.old.unit) × (bank.new.limit ≡ bank.old.limit) }
{
    if row.len() != 2 {
        return Err(WireFault::Unexpected);
    }
    let mut frame = bank.take(alloc, 2, row.size())?;
    match frame.append(row) {
        Append::Appended => Ok(frame),
        Append::NoRoom => Err(WireFault::Unexpected),
    }
}

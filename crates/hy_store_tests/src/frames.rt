//! Frames that tests are made of.
ghost use Rattle.std.specs.Prelude.{◌≡◌, ◌≢◌, ◌+◌, ◌<◌, [], length, IfOk, OnOk};

use hy_frame::{Append, Bank, Frame, RowBuf, is_field};
use std::alloc::Global;
use std::test::Fail;

fn row(alloc: Global, field: &[u8]) -> Result<RowBuf, Fail>
    ensures { IfOk result (λ r. length r ≡ 1) }
{
    let mut row = RowBuf::new(alloc);
    if !is_field(field) {
        return Err(Fail::from("no field"));
    }
    row.push_field(field)?;
    Ok(row)
}

/// A frame of one row of one field.
pub(crate) fn one(alloc: Global, bank: &mut Bank, field: &[u8]) -> Result<Frame, Fail>
    requires { bank.old.out < bank.old.limit }
    ensures frame { IfOk result (λ f. (f.arity ≡ 1) × (f.unit ≡ bank.old.unit) × (f.rows ≢ [])) }
    ensures bank { OnOk result ((bank.new.out ≡ bank.old.out + 1) × (bank.new.limit ≡ bank.old.limit) × (bank.new.unit ≡ bank.old.unit)) }
{
    let row = row(alloc, field)?;
    let mut frame = bank.take(alloc, 1, row.size())?;
    match frame.append(&row) {
        Append::Appended => Ok(frame),
        Append::NoRoom => Err(Fail::from("no room")),
    }
}

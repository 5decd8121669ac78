//! Rows that tests are made of.
ghost use Rattle.std.specs.Prelude.{◌≡◌, length, IfOk};
ghost use Rattle.hy_frame.specs.Row.{row_size};
ghost use Rattle.hy_frame.specs.FrameText.{IsLeast};

use hy_frame::{Append, Frame, RowBuf, is_field};
use std::alloc::Global;
use std::test::Fail;

/// A row of one field.
pub(crate) fn one(alloc: Global, field: &[u8]) -> Result<RowBuf, Fail>
    ensures { IfOk result (λ r. length r ≡ 1) }
{
    let mut row = RowBuf::new(alloc);
    if !is_field(field) {
        return Err(Fail::from("no field"));
    }
    row.push_field(field)?;
    Ok(row)
}

/// A row of two fields.
pub(crate) fn two(alloc: Global, first: &[u8], second: &[u8]) -> Result<RowBuf, Fail>
    ensures { IfOk result (λ r. length r ≡ 2) }
{
    let mut row = one(alloc, first)?;
    if !is_field(second) {
        return Err(Fail::from("no field"));
    }
    row.push_field(second)?;
    Ok(row)
}

/// A row of one text of this many bytes.
pub(crate) fn text(alloc: Global, bytes: usize) -> Result<RowBuf, Fail>
    ensures { IfOk result (λ r. length r ≡ 1) }
{
    let mut field = vec![in alloc; b'x'; bytes.saturating_add(1)]?;
    field[0] = 4;
    one(alloc, &field)
}

/// Appends a row to the frame that was made for it, again and again.
pub(crate) fn append(frame: &mut Frame, row: &RowBuf) -> Append
    requires arity { length row.now ≡ frame.old.arity }
    requires size { IsLeast frame.old.unit (row_size row.now) frame.old.size }
    ensures same { (frame.new.arity ≡ frame.old.arity) × (frame.new.unit ≡ frame.old.unit) × (frame.new.size ≡ frame.old.size) }
{
    frame.append(row)
}

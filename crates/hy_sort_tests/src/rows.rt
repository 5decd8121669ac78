//! Rows of one field.
ghost use Rattle.std.specs.Prelude.{◌≡◌, length, IfOk};

use al_value::Settings;
use hy_frame::{Counts, RowBuf, is_field};
use std::alloc::Global;
use std::test::Fail;

pub(crate) const SETTINGS: Settings = Settings {
    partitions: 1,
    frame_size: 256,
    memory: 3,
};

/// A bank of no frames.
pub(crate) const UNUSED: Counts = Counts {
    taken: 0,
    given: 0,
    exported: 0,
    imported: 0,
};

pub(crate) fn row_of(alloc: Global, field: &[u8]) -> Result<RowBuf, Fail>
    ensures { IfOk result (λ row. length row ≡ 1) }
{
    let mut row = RowBuf::new(alloc);
    if !is_field(field) {
        return Err(Fail::from("no field"));
    }
    row.push_field(field)?;
    Ok(row)
}

/// Whether the row has this one field.
pub(crate) fn has_field(row: &RowBuf, field: &[u8]) -> bool {
    if row.len() != 1 {
        return false;
    }
    row.as_row().field(0) == field
}

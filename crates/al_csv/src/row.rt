ghost use Rattle.std.specs.Prelude.{◌≡◌, ◌+◌, ◌<◌, IfErr, IfOk, length, slice_index_or};
ghost use Rattle.csv.specs.Records.{fields_of};
ghost use Rattle.al_csv.specs.Records.{Tells, TellsPlace, row_of};

use crate::decl::Column;
use crate::field::read_field;
use crate::refused::{BadRecord, DataKind, LoadRefused};
use al_value::Row;
use csv::ByteRecord;
use std::alloc::Global;

/// The values of the record with this number.
pub fn read_row(
    alloc: Global,
    columns: &[Column],
    fields: &ByteRecord,
    number: u64,
) -> Result<Row, LoadRefused>
    ensures row { IfOk result (λ row. row_of columns.now (number, fields_of fields.now) ≡ Ok row) }
    ensures bad { IfErr result (Tells (row_of columns.now (number, fields_of fields.now))) }
{
    if fields.len() != columns.len() {
        return Err(LoadRefused::Bad(BadRecord {
            kind: DataKind::BadCount,
            number,
            column: 0,
        }));
    }
    let mut row = Row::new(alloc);
    for (j, column) in columns.iter().enumerate() {
        match read_field(alloc, column.kind, field_at(fields, j))? {
            Ok(value) => row.push(value)?,
            Err(kind) => return Err(bad_field(kind, number, j)),
        }
    }
    Ok(row)
}

fn field_at(fields: &ByteRecord, j: usize) -> &[u8]
    requires { j < length (fields_of fields.now) }
    ensures { result.now ≡ slice_index_or (fields_of fields.now) j result.now }
{
    let Some(field) = fields.get(j) else {
        unreachable!();
    };
    field
}

// A `BadRecord` has no room for a column from 2^32 on.
fn bad_field(kind: DataKind, number: u64, j: usize) -> LoadRefused
    ensures { TellsPlace kind number (j + 1) result }
{
    match u32::try_from(j) {
        Ok(before) if before < u32::MAX => LoadRefused::Bad(BadRecord {
            kind,
            number,
            column: before + 1,
        }),
        _ => LoadRefused::NoMemory,
    }
}

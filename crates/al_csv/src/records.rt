ghost use Rattle.std.specs.Prelude.{◌≡◌, All, IfErr, IfOk, length};
ghost use Rattle.al_value.specs.Value.{IsValue};
ghost use Rattle.al_csv.specs.Records.{Tells, records};

use crate::decl::Decl;
use crate::refused::LoadRefused;
use crate::row::read_row;
use al_value::{List, Row};
use csv::{ByteRecord, ReaderBuilder};
use std::alloc::Global;

/// The rows of a data file, a row for each record after the header. `NoMemory` stands too for a
/// fault of the reader, which reads from memory and has none, for a bad column from 2^32 on, and
/// for a file of 2^64 - 1 records.
pub fn load(alloc: Global, decl: &Decl, bytes: &[u8]) -> Result<List<Row>, LoadRefused>
    ensures rows { IfOk result (λ rows. records decl.now.columns bytes.now ≡ Ok rows) }
    ensures bad { IfErr result (Tells (records decl.now.columns bytes.now)) }
    ensures wide { IfOk result (All (λ row. length row ≡ length decl.now.columns)) }
    ensures values { IfOk result (All (All IsValue)) }
{
    let mut reader = ReaderBuilder::new()
        .has_headers(false)
        .flexible(true)
        .from_reader(alloc, bytes);
    let mut fields = ByteRecord::new(alloc);
    let mut rows = List::new(alloc);
    for number in 0..u64::MAX {
        match reader.read_byte_record(&mut fields) {
            Ok(true) => {}
            Ok(false) => return Ok(rows),
            Err(_) => return Err(LoadRefused::NoMemory),
        }
        if number > 0 {
            rows.push(read_row(alloc, decl.columns.as_slice(), &fields, number)?)?;
        }
    }
    Err(LoadRefused::NoMemory)
}

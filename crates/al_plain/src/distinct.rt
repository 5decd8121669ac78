ghost use Rattle.std.specs.Prelude.{◌≡◌, ◌↔◌, IsTrue, IfOk, filter};
ghost use Rattle.std.specs.List.{Contains};
ghost use Rattle.al_plain.specs.Groups.{same_cells};
ghost use Rattle.al_plain.specs.Rows.{AreDistinct};

use al_value::{List, NoMemory, Row, Value};
use std::alloc::Global;

/// Whether the two rows have the same values; NULL is the same as NULL.
pub fn same_row(a: &[Value], b: &[Value]) -> bool
    ensures test { result ≡ same_cells a.now b.now }
    ensures same { IsTrue result ↔ (a.now ≡ b.now) }
{
    a == b
}

/// Whether the row is among the rows.
fn is_among(rows: &[Row], row: &Row) -> bool
    ensures { IsTrue result ↔ Contains rows.now row.now }
{
    for other in rows {
        if same_row(other.as_slice(), row.as_slice()) {
            return true;
        }
    }
    false
}

/// The different rows, each once, where it comes first.
pub fn distinct_rows(alloc: Global, rows: &[Row]) -> Result<List<Row>, NoMemory>
    ensures { IfOk result (AreDistinct rows.now) }
{
    let mut kept = List::new(alloc);
    for row in rows {
        if !is_among(kept.as_slice(), row) {
            kept.push(row.copy(alloc)?)?;
        }
    }
    Ok(kept)
}

//! The order of rows of fields by keys.

ghost use Rattle.std.specs.Prelude.{◌≡◌, MatchOption};
ghost use Rattle.al_value.specs.declared.value.Value.TheVariants as V;
ghost use Rattle.al_value.specs.Value.{value_cmp};
ghost use Rattle.hy_driver.specs.Rows.{value_of, values_of};
ghost use Rattle.hy_frame.specs.Field.{IsField};
ghost use Rattle.hy_job.specs.Columns as spec;

use crate::rows::NULL_FIELD;
use al_value::{SortKey, cmp_fields};
use hy_frame::RowRef;
use std::cmp::Ordering;

fn directed(descending: bool, order: Ordering) -> Ordering
    ensures { result ≡ spec.directed descending order }
{
    if descending { order.reverse() } else { order }
}

/// The order of two fields, which is that of their values.
fn cmp_values(a: &[u8], b: &[u8]) -> Ordering
    requires a_field { IsField a.now }
    requires b_field { IsField b.now }
    ensures { result ≡ value_cmp (value_of a.now) (value_of b.now) }
{
    cmp_fields(a, b)
}

/// The field of a column, if it is in range.
#[tactic(auto, using(crate::proofs::FieldOrder::column_laws))]
fn column<'a>(row: &RowRef<'a>, j: usize) -> Option<&'a [u8]>
    ensures { MatchOption result (spec.column (values_of row.now) j ≡ V.Null)
        (λ field. IsField field.now × (value_of field.now ≡ spec.column (values_of row.now) j)) }
{
    if j < row.len() {
        Some(row.field(j))
    } else {
        None
    }
}

/// The order of two rows by a column, which counts as NULL where it is out of range.
#[tactic(auto, using(crate::proofs::FieldOrder::null_laws))]
fn cmp_columns(j: usize, a: &RowRef<'_>, b: &RowRef<'_>) -> Ordering
    ensures { result ≡ value_cmp (spec.column (values_of a.now) j) (spec.column (values_of b.now) j) }
{
    let x = column(a, j);
    let y = column(b, j);
    match (x, y) {
        (Some(x), Some(y)) => cmp_values(x, y),
        (Some(x), None) => cmp_values(x, &NULL_FIELD),
        (None, Some(y)) => cmp_values(&NULL_FIELD, y),
        (None, None) => Ordering::Equal,
    }
}

/// The order of two rows by the keys. A column that is out of range counts as NULL.
pub fn cmp_rows(keys: &[SortKey], a: &RowRef<'_>, b: &RowRef<'_>) -> Ordering
    ensures { result ≡ spec.keys_cmp keys.now (values_of a.now) (values_of b.now) }
{
    match keys {
        [] => Ordering::Equal,
        [key, rest @ ..] => {
            let order = cmp_columns(key.column as usize, a, b);
            match directed(key.descending, order) {
                Ordering::Equal => cmp_rows(rest, a, b),
                order => order,
            }
        }
    }
}

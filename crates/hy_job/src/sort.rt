ghost use Rattle.std.specs.Prelude.{◌≡◌, IfOk};
ghost use Rattle.std.specs.List.Sorted.{IsPermutation, IsSorted};
ghost use Rattle.hy_job.specs.Columns as spec;

use crate::rows::column;
use al_value::{List, NoMemory, Row, SortKey, Value, cmp_values};
use std::cmp::Ordering;

fn directed(descending: bool, order: Ordering) -> Ordering
    ensures { result ≡ spec.directed descending order }
{
    if descending { order.reverse() } else { order }
}

/// The order of two rows by the keys. A column out of range counts as NULL.
pub fn cmp_keys(keys: &[SortKey], a: &[Value], b: &[Value]) -> Ordering
    ensures { result ≡ spec.keys_cmp keys.now a.now b.now }
{
    let none = Value::Null;
    match keys {
        [] => Ordering::Equal,
        [key, rest @ ..] => {
            let x = column(a, key.column, &none);
            let y = column(b, key.column, &none);
            match directed(key.descending, cmp_values(x, y)) {
                Ordering::Equal => cmp_keys(rest, a, b),
                order => order,
            }
        }
    }
}

/// The rows in an order that is sorted by the keys. Rows with equal keys keep their order, of which
/// the clauses say nothing.
pub fn sort_rows(keys: &[SortKey], rows: List<Row>) -> Result<List<Row>, NoMemory>
    ensures moved { IfOk result (λ sorted. IsPermutation rows sorted) }
    ensures sorted { IfOk result (λ sorted. IsSorted (spec.keys_cmp keys.now) sorted) }
{
    let mut items = rows.into_vec();
    items.sort_by(|a, b| cmp_keys(keys, a.as_slice(), b.as_slice()))?;
    Ok(List::from_vec(items))
}

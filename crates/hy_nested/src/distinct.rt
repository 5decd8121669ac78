ghost use Rattle.std.specs.Prelude.{◌≡◌, IfOk};
ghost use Rattle.std.specs.Cmp.Lexicographic.{slice_cmp};
ghost use Rattle.al_value.specs.Value.{value_cmp};
ghost use Rattle.hy_job.specs.Columns.{IsDistinctOf};

use al_value::{List, NoMemory, Row, Value, cmp_values};
use std::cmp::Ordering;

/// The order of two rows by their values from the left.
fn cmp_rows(a: &[Value], b: &[Value]) -> Ordering
    ensures { result ≡ slice_cmp value_cmp a.now b.now }
{
    match a {
        [] if b.is_empty() => Ordering::Equal,
        [] => Ordering::Less,
        [x, xs @ ..] => match b {
            [] => Ordering::Greater,
            [y, ys @ ..] => match cmp_values(x, y) {
                Ordering::Equal => cmp_rows(xs, ys),
                order => order,
            },
        },
    }
}

/// The different rows, each once. They are sorted, of which the clause says nothing.
pub fn distinct_rows(rows: List<Row>) -> Result<List<Row>, NoMemory>
    ensures { IfOk result (λ kept. IsDistinctOf rows kept) }
{
    let mut items = rows.into_vec();
    items.sort_by(|a, b| cmp_rows(a.as_slice(), b.as_slice()))?;
    items.dedup_by(|a, b| cmp_rows(a.as_slice(), b.as_slice()) == Ordering::Equal);
    Ok(List::from_vec(items))
}

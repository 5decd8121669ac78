//! The order of kept rows by keys.

ghost use Rattle.std.specs.Prelude.{◌≡◌, ℕ, length, map, OnOk};
ghost use Rattle.std.specs.List.{All};
ghost use Rattle.std.specs.List.Sorted.{IsPermutation, IsSorted};
ghost use Rattle.hy_driver.specs.Rows.{values_of};
ghost use Rattle.hy_job.specs.Columns as spec;

use al_value::{NoMemory, SortKey};
use hy_frame::RowBuf;
use hy_rows::cmp_rows;

/// Puts the rows into an order that is sorted by the keys. Rows with equal keys keep their order, of
/// which the clauses say nothing.
pub(crate) fn sort_rows(keys: &[SortKey], rows: &mut Vec<RowBuf>) -> Result<(), NoMemory>
    ensures moved { IsPermutation rows.old.items rows.new.items }
    ensures fit { (n : ℕ) → All (λ row. length row ≡ n) rows.old.items → All (λ row. length row ≡ n) rows.new.items }
    ensures sorted { OnOk result (IsSorted (spec.keys_cmp keys.now) (map values_of rows.new.items)) }
{
    rows.sort_by(|a, b| cmp_rows(keys, &a.as_row(), &b.as_row()))?;
    Ok(())
}

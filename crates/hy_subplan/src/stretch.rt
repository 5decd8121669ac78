//! Stretches of rows with equal keys.

ghost use Rattle.std.specs.Prelude.{◌≡◌, ◌≢◌, ◌+◌, ◌∷◌, [], length, ℕ, true, false, IfOk};
ghost use Rattle.hy_job.specs.Nested.{n_width};
ghost use Rattle.hy_job.specs.RunLaws.{AreWide};
ghost use Rattle.hy_nested.specs.Fitting.{FitsNested};
ghost use Rattle.hy_subplan.specs.Stretch.{Breaks, GoesOn, IsRowOf};

use crate::behind::with_behind;
use crate::same::are_same;
use al_value::{NoMemory, Row};
use hy_job::{NestedPlan, cut};
use hy_nested::run_nested;
use std::alloc::Global;

/// Whether a row has the keys of a stretch. It goes on with one that has no rows yet.
#[tactic(auto, using(crate::proofs::StretchLaws::goes_laws))]
pub(crate) fn goes_on(
    alloc: Global,
    keys: &[u32],
    rows: &[Row],
    row: &Row,
) -> Result<bool, NoMemory>
    ensures yes { IfOk result (λ same. same ≡ true → GoesOn keys.now rows.now row.now) }
    ensures no_ { IfOk result (λ same. same ≡ false → Breaks keys.now rows.now row.now) }
{
    match rows {
        [] => Ok(true),
        [first, _others @ ..] => {
            let own = cut(alloc, keys, row.as_slice())?;
            let key = cut(alloc, keys, first.as_slice())?;
            Ok(are_same(own.as_slice(), key.as_slice()))
        }
    }
}

/// The row of a stretch: the keys of its rows, and behind them the nested plan's row over them.
#[tactic(auto, using(crate::proofs::StretchLaws::row_laws))]
pub(crate) fn stretch_row(
    alloc: Global,
    keys: &[u32],
    nested: &NestedPlan,
    rows: &[Row],
) -> Result<Row, NoMemory>
    requires some { rows.now ≢ [] }
    requires fits { FitsNested nested.now rows.now }
    ensures given { IfOk result (λ made. IsRowOf keys.now nested.now rows.now made) }
    ensures wide { IfOk result (λ made. (w : ℕ) → AreWide w rows.now → length made ≡ length keys.now + n_width nested.now w) }
{
    match rows {
        [] => unreachable!(),
        [first, _others @ ..] => {
            let key = cut(alloc, keys, first.as_slice())?;
            let inner = run_nested(alloc, nested, rows)?;
            with_behind(alloc, key, inner.as_slice())
        }
    }
}

//! Rows with values behind them.

ghost use Rattle.std.specs.Prelude.{◌≡◌, ◌++◌, IfOk};

use al_value::{NoMemory, Row, Value};
use std::alloc::Global;

/// The row with copies of these values behind it.
#[tactic(auto, using(crate::proofs::SubplanLaws::behind_laws))]
pub(crate) fn with_behind(alloc: Global, row: Row, more: &[Value]) -> Result<Row, NoMemory>
    ensures { IfOk result (λ longer. longer ≡ row ++ more.now) }
{
    let mut longer = row;
    for v in more {
        longer.push(v.copy(alloc)?)?;
    }
    Ok(longer)
}

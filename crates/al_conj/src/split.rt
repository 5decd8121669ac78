ghost use Rattle.std.specs.Prelude.{◌≡◌, false, IfOk, MatchOption};
ghost use Rattle.std.specs.List.{list_any, position};
ghost use Rattle.al_conj.specs.Conj.{Splits, conj};

use crate::condition::{all_of, conjuncts};
use crate::property::Property;
use al_plan::Expr;
use al_value::{List, NoMemory};
use std::alloc::Global;

/// A condition without one of its conjuncts, and that conjunct.
#[derive(Debug, PartialEq, Drop)]
pub struct Split {
    pub first: Expr,
    pub rest: Expr,
}

/// The number of the first conjunct that has the property.
fn place_of<P: Property>(property: &P, conjuncts: &[Expr]) -> Option<usize>
    ensures { result ≡ position (P.holds_of property.now) conjuncts.now }
{
    conjuncts.iter().position(|e| property.holds_of(e))
}

/// The first conjunct that has the property, if one has it, and the condition without it.
pub fn take_first<P: Property>(
    alloc: Global,
    property: &P,
    e: &Expr,
) -> Result<Option<Split>, NoMemory>
    ensures { IfOk result (λ split. MatchOption split (list_any (P.holds_of property.now) (conj e.now) ≡ false) (λ s. Splits (P.holds_of property.now) e.now s.first s.rest)) }
{
    let mut others = conjuncts(alloc, e)?.into_vec();
    let Some(at) = place_of(property, others.as_slice()) else {
        return Ok(None);
    };
    let first = others.remove(at);
    let rest = all_of(alloc, List::from_vec(others))?;
    Ok(Some(Split { first, rest }))
}

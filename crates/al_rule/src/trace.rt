ghost use Rattle.std.specs.Prelude.{◌≡◌, []};

use crate::names::{RuleName, SetName};
use al_plan::Place;
use al_value::List;
use std::alloc::Global;

/// One rewriting: which rule was applied, of the set that was driven, and where in the plan as it
/// then was.
#[derive(Debug, PartialEq, Drop)]
pub struct TraceStep {
    pub set: SetName,
    pub rule: RuleName,
    pub place: Place,
}

/// The rewritings of a plan, the first one first.
#[derive(Debug, PartialEq, Drop)]
pub struct Trace {
    pub steps: List<TraceStep>,
}

impl Trace {
    pub fn new(alloc: Global) -> Trace
        ensures { result.steps ≡ [] }
    {
        Trace {
            steps: List::new(alloc),
        }
    }
}

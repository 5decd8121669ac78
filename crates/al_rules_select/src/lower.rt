//! A select that goes below the operator under it.

ghost use Rattle.std.specs.Prelude.{◌≡◌, Some, IfOk, MatchOption};
ghost use Rattle.al_plan.specs.declared.plan.Plan.{Plan};
ghost use Rattle.al_plan.specs.declared.plan.Plan.TheVariants as P;
ghost use Rattle.al_rule.specs.Places.{input, with_input};
ghost use Rattle.al_rule.specs.Rules.{HandsBack};
ghost use Rattle.al_rules_select.specs.Lowers.{IsNoSelect, Lowers};

use al_plan::{Expr, Plan};
use al_rule::{ApplyFault, put_back, take_input};
use al_value::Boxed;
use std::alloc::Global;

/// The condition and the input of a select.
pub fn select_parts(p: &Plan) -> Option<(&Expr, &Plan)>
    ensures { MatchOption result (IsNoSelect p.now) (λ s. p.now ≡ P.Select s.0.now s.1.now) }
{
    match p {
        Plan::Select { cond, input } => Some((cond, input.get())),
        _ => None,
    }
}

/// An operator with a select of this condition over its input that is child `i`. The operator and
/// its inputs keep their boxes, and the select gets the spare one.
fn select_below(cond: Expr, over: Boxed<Plan>, i: u32, spare: Boxed<Plan>) -> Plan
    ensures { (x : Plan) → input over i ≡ Some x → result ≡ with_input over i (P.Select cond x) }
{
    let mut over = over;
    let operator = over.replace(Plan::Empty);
    let (rest, part, input) = take_input(operator, i, over);
    let mut input = input;
    // Calls drop the plans, since what drops in place is proved variant by variant.
    drop(input.replace(part));
    let (whole, spare) = put_back(rest, i, Plan::Select { cond, input }, spare);
    drop(spare);
    whole
}

/// Of a select over an operator, the operator with the select over its input that is child `i`.
fn lowered(p: Plan, i: u32, spare: Boxed<Plan>) -> Plan
    ensures { Lowers i p result }
{
    match p {
        Plan::Select { cond, input } => select_below(cond, input, i, spare),
        other => other,
    }
}

/// The plan with the select at its root below the operator under it, over its child `i`.
pub fn lower(alloc: Global, p: Plan, i: u32) -> Result<Plan, ApplyFault>
    ensures lowered { IfOk result (Lowers i p) }
    ensures handed_back { HandsBack p result }
{
    match Boxed::new(alloc, Plan::Empty) {
        Ok(spare) => Ok(lowered(p, i, spare)),
        Err(_) => Err(ApplyFault::NoMemory(p)),
    }
}

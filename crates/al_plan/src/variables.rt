//! Which variables a plan's rows have, and whether their order is a part of the answer.

ghost use Rattle.std.specs.Prelude.{◌≡◌, ◌++◌, [], IfOk, map};
ghost use Rattle.al_plan.specs.Allows as meaning;

use crate::copy::copy_vars;
use crate::expr::Var;
use crate::plan::Plan;
use al_value::{List, NoMemory};
use std::alloc::Global;

/// The live variables of a plan, in order. A `nested` that stands outside the nested plans of `p`
/// gives none.
pub fn live(alloc: Global, p: &Plan) -> Result<List<Var>, NoMemory>
    ensures { IfOk result (λ vars. vars ≡ meaning.live p.now []) }
{
    let none = List::new(alloc);
    live_over(alloc, p, none.as_slice())
}

/// These variables, and copies of more behind them.
pub fn joined_vars(alloc: Global, vars: List<Var>, more: &[Var]) -> Result<List<Var>, NoMemory>
    ensures { IfOk result (λ both. both ≡ vars ++ more.now) }
{
    let mut all = vars;
    for v in more {
        all.push(v.copy(alloc)?)?;
    }
    Ok(all)
}

/// These variables, and behind them copies of those that are made.
fn with_made<T>(alloc: Global, vars: List<Var>, made: &[(Var, T)]) -> Result<List<Var>, NoMemory>
    ensures { IfOk result (λ all. all ≡ vars ++ map (λ m. m.0) made.now) }
{
    let mut all = vars;
    for (v, _) in made {
        all.push(v.copy(alloc)?)?;
    }
    Ok(all)
}

/// The live variables of a plan in which these are live at `nested`.
#[tactic(auto, using(crate::proofs::PlanRules::live_laws))]
pub fn live_over(alloc: Global, p: &Plan, given: &[Var]) -> Result<List<Var>, NoMemory>
    ensures { IfOk result (λ vars. vars ≡ meaning.live p.now given.now) }
{
    match p {
        Plan::Scan { vars, .. } => copy_vars(alloc, vars.as_slice()),
        Plan::Empty => Ok(List::new(alloc)),
        Plan::Nested => copy_vars(alloc, given),
        Plan::Assign { made, input } => {
            let vars = live_over(alloc, input.get(), given)?;
            with_made(alloc, vars, made.as_slice())
        }
        Plan::Select { input, .. } => live_over(alloc, input.get(), given),
        Plan::Project { vars, .. } => copy_vars(alloc, vars.as_slice()),
        Plan::Unnest { var, input, .. } => {
            let mut vars = live_over(alloc, input.get(), given)?;
            vars.push(var.copy(alloc)?)?;
            Ok(vars)
        }
        Plan::Subplan { nested, input } => {
            let outer = live_over(alloc, input.get(), given)?;
            let inner = live_over(alloc, nested.get(), outer.as_slice())?;
            joined_vars(alloc, outer, inner.as_slice())
        }
        Plan::Join { left, right, .. } => {
            let vars = live_over(alloc, left.get(), given)?;
            let more = live_over(alloc, right.get(), given)?;
            joined_vars(alloc, vars, more.as_slice())
        }
        Plan::LeftJoin { left, right, .. } => {
            let vars = live_over(alloc, left.get(), given)?;
            let more = live_over(alloc, right.get(), given)?;
            joined_vars(alloc, vars, more.as_slice())
        }
        Plan::Group {
            keys,
            nested,
            input,
        } => {
            let outer = live_over(alloc, input.get(), given)?;
            let inner = live_over(alloc, nested.get(), outer.as_slice())?;
            let new = with_made(alloc, List::new(alloc), keys.as_slice())?;
            joined_vars(alloc, new, inner.as_slice())
        }
        Plan::Distinct { input } => live_over(alloc, input.get(), given),
        Plan::Union { made, .. } => copy_vars(alloc, made.as_slice()),
        Plan::Aggregate { made, .. } => with_made(alloc, List::new(alloc), made.as_slice()),
        Plan::Order { input, .. } => live_over(alloc, input.get(), given),
        Plan::Limit { input, .. } => live_over(alloc, input.get(), given),
        Plan::Check { input, .. } => live_over(alloc, input.get(), given),
        Plan::Result { vars, .. } => copy_vars(alloc, vars.as_slice()),
    }
}

/// Whether the order of a plan's rows is a part of its answer.
#[tactic(auto, using(crate::proofs::PlanRules::ordered_laws))]
pub fn ordered(p: &Plan) -> bool
    ensures { result ≡ meaning.ordered p.now }
{
    match p {
        Plan::Order { .. } => true,
        Plan::Assign { input, .. } => ordered(input.get()),
        Plan::Select { input, .. } => ordered(input.get()),
        Plan::Project { input, .. } => ordered(input.get()),
        Plan::Unnest { input, .. } => ordered(input.get()),
        Plan::Subplan { input, .. } => ordered(input.get()),
        Plan::Limit { input, .. } => ordered(input.get()),
        Plan::Check { input, .. } => ordered(input.get()),
        Plan::Result { input, .. } => ordered(input.get()),
        Plan::Scan { .. }
        | Plan::Empty
        | Plan::Nested
        | Plan::Join { .. }
        | Plan::LeftJoin { .. }
        | Plan::Group { .. }
        | Plan::Distinct { .. }
        | Plan::Union { .. }
        | Plan::Aggregate { .. } => false,
    }
}

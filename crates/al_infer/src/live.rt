ghost use Rattle.std.specs.Prelude.{◌≡◌, [], ◌∷◌, map, IfOk};
ghost use Rattle.al_plan.specs.declared.plan.Plan.{out-Plan};
ghost use Rattle.al_plan.specs.Accept as spec;
ghost use Rattle.al_infer.specs.Inputs.{live_from};

use crate::names::joined;
use al_plan::{Plan, Var};
use al_value::{List, NoMemory};
use std::alloc::Global;

/// What is live in the inputs of an operator: in its input or its left one, and in its right one
/// or its nested plan.
#[derive(Drop)]
pub struct Seen {
    pub left: List<Var>,
    pub right: List<Var>,
}

/// The first parts of these pairs.
fn firsts<T>(alloc: Global, pairs: &[(Var, T)]) -> Result<List<Var>, NoMemory>
    ensures { IfOk result (λ vars. vars ≡ map (λ p. p.0) pairs.now) }
{
    let mut vars = List::new(alloc);
    for (v, _) in pairs {
        vars.push(v.copy(alloc)?)?;
    }
    Ok(vars)
}

/// A list of this variable alone.
fn one(alloc: Global, v: &Var) -> Result<List<Var>, NoMemory>
    ensures { IfOk result (λ vars. vars ≡ v.now ∷ []) }
{
    let mut vars = List::new(alloc);
    vars.push(v.copy(alloc)?)?;
    Ok(vars)
}

#[tactic(auto, using(crate::proofs::Operators::operators))]
/// The variables that an operator makes itself.
pub fn made_by(alloc: Global, op: &Plan) -> Result<List<Var>, NoMemory>
    ensures { IfOk result (λ vars. vars ≡ spec.made_by (out-Plan op.now)) }
{
    match op {
        Plan::Scan { vars, .. } => joined(alloc, vars.as_slice(), &[]),
        Plan::Assign { made, .. } => firsts(alloc, made.as_slice()),
        Plan::Unnest { var, .. } => one(alloc, var),
        Plan::Group { keys, .. } => firsts(alloc, keys.as_slice()),
        Plan::Union { made, .. } => joined(alloc, made.as_slice(), &[]),
        Plan::Aggregate { made, .. } => firsts(alloc, made.as_slice()),
        _ => Ok(List::new(alloc)),
    }
}

#[tactic(auto, using(crate::proofs::Operators::operators))]
/// The variables that are live at an operator, in order.
pub fn live_at(
    alloc: Global,
    op: &Plan,
    given: &[Var],
    own: &[Var],
    seen: &Seen,
) -> Result<List<Var>, NoMemory>
    requires { own.now ≡ spec.made_by (out-Plan op.now) }
    ensures { IfOk result (λ vars. vars ≡ live_from given.now seen.now.left seen.now.right (out-Plan op.now)) }
{
    let left = seen.left.as_slice();
    let right = seen.right.as_slice();
    match op {
        Plan::Scan { .. } => joined(alloc, own, &[]),
        Plan::Empty => joined(alloc, &[], &[]),
        Plan::Nested => joined(alloc, given, &[]),
        Plan::Assign { .. } => joined(alloc, left, own),
        Plan::Select { .. } => joined(alloc, left, &[]),
        Plan::Project { vars, .. } => joined(alloc, vars.as_slice(), &[]),
        Plan::Unnest { .. } => joined(alloc, left, own),
        Plan::Subplan { .. } => joined(alloc, left, right),
        Plan::Join { .. } => joined(alloc, left, right),
        Plan::LeftJoin { .. } => joined(alloc, left, right),
        Plan::Group { .. } => joined(alloc, own, right),
        Plan::Distinct { .. } => joined(alloc, left, &[]),
        Plan::Union { .. } => joined(alloc, own, &[]),
        Plan::Aggregate { .. } => joined(alloc, own, &[]),
        Plan::Order { .. } => joined(alloc, left, &[]),
        Plan::Limit { .. } => joined(alloc, left, &[]),
        Plan::Check { .. } => joined(alloc, left, &[]),
        Plan::Result { vars, .. } => joined(alloc, vars.as_slice(), &[]),
    }
}

//! The inputs of an operator by their numbers among its children, and a rule applied at a place.

ghost use Rattle.std.specs.Prelude.{◌≡◌, ◌<◌, IfOk, Some, None, MatchOption};
ghost use Rattle.al_plan.specs.declared.plan.Plan.{Plan};
ghost use Rattle.al_rule.specs.Places.{Applied, input, with_input};
ghost use Rattle.al_rule.specs.Rules.{HandsBack, under};
ghost use Rattle.al_rule.specs.Walks.{MatchesAt};

use crate::rule::{ApplyFault, RuleSet};
use al_plan::Plan;
use al_value::{Boxed, NoMemory};
use std::alloc::Global;

#[tactic(auto, using(crate::proofs::Operators::operators), unfolding(crate::specs::Places::input))]
fn first_input(p: &Plan) -> Option<&Plan>
    ensures { MatchOption result (input p.now 0 ≡ None) (λ x. input p.now 0 ≡ Some x.now) }
{
    match p {
        Plan::Assign { input, .. } => Some(input.get()),
        Plan::Select { input, .. } => Some(input.get()),
        Plan::Project { input, .. } => Some(input.get()),
        Plan::Unnest { input, .. } => Some(input.get()),
        Plan::Join { left, .. } => Some(left.get()),
        Plan::LeftJoin { left, .. } => Some(left.get()),
        Plan::Distinct { input } => Some(input.get()),
        Plan::Union { left, .. } => Some(left.get()),
        Plan::Aggregate { input, .. } => Some(input.get()),
        Plan::Order { input, .. } => Some(input.get()),
        Plan::Limit { input, .. } => Some(input.get()),
        Plan::Check { input, .. } => Some(input.get()),
        Plan::Result { input, .. } => Some(input.get()),
        _ => None,
    }
}

#[tactic(auto, using(crate::proofs::Operators::operators), unfolding(crate::specs::Places::input))]
fn second_input(p: &Plan) -> Option<&Plan>
    ensures { MatchOption result (input p.now 1 ≡ None) (λ x. input p.now 1 ≡ Some x.now) }
{
    match p {
        Plan::Subplan { input, .. } => Some(input.get()),
        Plan::Join { right, .. } => Some(right.get()),
        Plan::LeftJoin { right, .. } => Some(right.get()),
        Plan::Group { input, .. } => Some(input.get()),
        Plan::Union { right, .. } => Some(right.get()),
        _ => None,
    }
}

#[tactic(auto, using(crate::proofs::WalkLaws::no_more))]
/// The input that is child `i` of the operator. A nested plan is no input.
pub fn input(p: &Plan, i: u32) -> Option<&Plan>
    ensures { MatchOption result (input p.now i ≡ None) (λ x. input p.now i ≡ Some x.now) }
{
    if i == 0 {
        first_input(p)
    } else if i == 1 {
        second_input(p)
    } else {
        None
    }
}

#[tactic(auto, using(crate::proofs::Operators::operators), unfolding(crate::specs::Places::input, crate::specs::Places::with_input))]
fn swap_first(p: Plan, new: Boxed<Plan>) -> (Plan, Boxed<Plan>)
    ensures put { result.0 ≡ with_input p 0 new }
    ensures taken { (x : Plan) → input p 0 ≡ Some x → result.1 ≡ x }
{
    match p {
        Plan::Assign { made, input } => (Plan::Assign { made, input: new }, input),
        Plan::Select { cond, input } => (Plan::Select { cond, input: new }, input),
        Plan::Project { vars, input } => (Plan::Project { vars, input: new }, input),
        Plan::Unnest { var, items, input } => (
            Plan::Unnest {
                var,
                items,
                input: new,
            },
            input,
        ),
        Plan::Join { cond, left, right } => (
            Plan::Join {
                cond,
                left: new,
                right,
            },
            left,
        ),
        Plan::LeftJoin { cond, left, right } => (
            Plan::LeftJoin {
                cond,
                left: new,
                right,
            },
            left,
        ),
        Plan::Distinct { input } => (Plan::Distinct { input: new }, input),
        Plan::Union {
            made,
            left_vars,
            right_vars,
            left,
            right,
        } => (
            Plan::Union {
                made,
                left_vars,
                right_vars,
                left: new,
                right,
            },
            left,
        ),
        Plan::Aggregate { made, input } => (Plan::Aggregate { made, input: new }, input),
        Plan::Order { keys, input } => (Plan::Order { keys, input: new }, input),
        Plan::Limit { n, k, input } => (Plan::Limit { n, k, input: new }, input),
        Plan::Check { name, cond, input } => (
            Plan::Check {
                name,
                cond,
                input: new,
            },
            input,
        ),
        Plan::Result { vars, input } => (Plan::Result { vars, input: new }, input),
        other => (other, new),
    }
}

#[tactic(auto, using(crate::proofs::Operators::operators), unfolding(crate::specs::Places::input, crate::specs::Places::with_input))]
fn swap_second(p: Plan, new: Boxed<Plan>) -> (Plan, Boxed<Plan>)
    ensures put { result.0 ≡ with_input p 1 new }
    ensures taken { (x : Plan) → input p 1 ≡ Some x → result.1 ≡ x }
{
    match p {
        Plan::Subplan { nested, input } => (Plan::Subplan { nested, input: new }, input),
        Plan::Join { cond, left, right } => (
            Plan::Join {
                cond,
                left,
                right: new,
            },
            right,
        ),
        Plan::LeftJoin { cond, left, right } => (
            Plan::LeftJoin {
                cond,
                left,
                right: new,
            },
            right,
        ),
        Plan::Group {
            keys,
            nested,
            input,
        } => (
            Plan::Group {
                keys,
                nested,
                input: new,
            },
            input,
        ),
        Plan::Union {
            made,
            left_vars,
            right_vars,
            left,
            right,
        } => (
            Plan::Union {
                made,
                left_vars,
                right_vars,
                left,
                right: new,
            },
            right,
        ),
        other => (other, new),
    }
}

#[tactic(auto, using(crate::proofs::WalkLaws::no_more))]
/// The plan with a new plan as the input that is child `i`, and the input that was there.
fn swap_input(p: Plan, i: u32, new: Boxed<Plan>) -> (Plan, Boxed<Plan>)
    ensures { (x : Plan) → input p i ≡ Some x → (result.0 ≡ with_input p i new) × (result.1 ≡ x) }
{
    if i == 0 {
        swap_first(p, new)
    } else if i == 1 {
        swap_second(p, new)
    } else {
        (p, new)
    }
}

/// The plan with a new plan as the input that is child `i`.
pub fn put_input(alloc: Global, p: Plan, i: u32, new: Plan) -> Result<Plan, NoMemory>
    ensures { IfOk result (λ q. (x : Plan) → input p i ≡ Some x → q ≡ with_input p i new) }
{
    let new = Boxed::new(alloc, new)?;
    let (whole, _) = swap_input(p, i, new);
    Ok(whole)
}

/// Takes out the input that is child `i`. The spare plan stands in its place, and the box of what
/// was taken out is spare from then on.
pub fn take_input(p: Plan, i: u32, spare: Boxed<Plan>) -> (Plan, Plan, Boxed<Plan>)
    ensures { (x : Plan) → input p i ≡ Some x → (result.0 ≡ with_input p i spare) × (result.1 ≡ x) }
{
    let (rest, part) = swap_input(p, i, spare);
    let mut part = part;
    let taken = part.replace(Plan::Empty);
    (rest, taken, part)
}

/// Puts a plan in as the input that is child `i`, in the spare box.
pub fn put_back(p: Plan, i: u32, new: Plan, spare: Boxed<Plan>) -> (Plan, Boxed<Plan>)
    ensures { (x : Plan) → input p i ≡ Some x → result.0 ≡ with_input p i new }
{
    let mut spare = spare;
    // A call, since what drops in place is proved variant by variant.
    drop(spare.replace(new));
    swap_input(p, i, spare)
}

/// What a rule made of the input that is child `i`, or what it handed back, under its operator.
fn put_outcome(
    p: Plan,
    i: u32,
    outcome: Result<Plan, ApplyFault>,
    spare: Boxed<Plan>,
) -> (Result<Plan, ApplyFault>, Boxed<Plan>)
    ensures { (x : Plan) → input p i ≡ Some x → result.0 ≡ under (with_input p i) outcome }
{
    match outcome {
        Ok(new) => {
            let (whole, spare) = put_back(p, i, new, spare);
            (Ok(whole), spare)
        }
        Err(ApplyFault::NoMemory(part)) => {
            let (whole, spare) = put_back(p, i, part, spare);
            (Err(ApplyFault::NoMemory(whole)), spare)
        }
    }
}

/// The plan with a rule of the set applied at the place, the numbers of children from the root.
/// What the rule doesn't rewrite keeps its boxes: on the way down and up one spare box stands in
/// for the one that is open.
pub fn apply_at<S: RuleSet>(
    alloc: Global,
    set: &S,
    k: usize,
    p: Plan,
    place: &[u32],
    spare: Boxed<Plan>,
) -> (Result<Plan, ApplyFault>, Boxed<Plan>)
    requires { k < (S.rules_of set.now).count }
    ensures applied { MatchesAt ((S.rules_of set.now).rewrites k) place.now p → IfOk result.0 (λ q. Applied ((S.rules_of set.now).rewrites k) place.now p q) }
    ensures handed_back { MatchesAt ((S.rules_of set.now).rewrites k) place.now p → HandsBack p result.0 }
{
    match place.split_first() {
        None => (set.apply(alloc, k, p), spare),
        Some((i, below)) => {
            let (rest, part, spare) = take_input(p, *i, spare);
            let (outcome, spare) = apply_at(alloc, set, k, part, below, spare);
            put_outcome(rest, *i, outcome, spare)
        }
    }
}

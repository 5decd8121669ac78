//! The rules that drop orders.

ghost use Rattle.al_rule.specs.declared.names.RuleName.TheVariants as called;
ghost use Rattle.std.specs.Prelude.{◌≡◌, ℕ, true, IfOk, MatchOption};
ghost use Rattle.al_plan.specs.declared.plan.Plan.{Plan};
ghost use Rattle.al_rules_order.specs.OrderRules as meaning;
ghost use Rattle.al_rules_order.specs.Outcomes.{IsOther, Rewritten};
ghost use Rattle.al_rules_order.specs.Shown as shown;

use crate::outcome::outcome;
use al_plan::Plan;
use al_rule::{ApplyFault, Rule, RuleName, input, put_input};
use al_value::NoMemory;
use std::alloc::Global;

/// Whether an operator gives the same for its input's rows in any order.
#[tactic(auto, using(al_rule::proofs::Operators::operators), unfolding(crate::specs::OrderRules::forgets_order))]
fn forgets_order(p: &Plan) -> bool
    ensures { result ≡ meaning.forgets_order p.now }
{
    match p {
        Plan::Join { .. } => true,
        Plan::LeftJoin { .. } => true,
        Plan::Group { .. } => true,
        Plan::Distinct { .. } => true,
        Plan::Union { .. } => true,
        Plan::Aggregate { .. } => true,
        _ => false,
    }
}

/// The input of an order.
fn ordered_input(p: &Plan) -> Option<&Plan>
    ensures { MatchOption result ((x : Plan) → meaning.IsOrder p.now x → ⊥) (λ x. meaning.IsOrder p.now x.now) }
{
    match p {
        Plan::Order { input, .. } => Some(input.get()),
        _ => None,
    }
}

/// The input of the order that is the operator's child `i`.
#[tactic(auto, using(crate::proofs::Finding::no_input, crate::proofs::Finding::no_order_there, crate::proofs::Finding::order_there))]
fn order_below(p: &Plan, i: u32) -> Option<&Plan>
    ensures { MatchOption result ((x : Plan) → meaning.HasOrder p.now i x → ⊥) (λ x. meaning.HasOrder p.now i x.now) }
{
    match input(p, i) {
        Some(part) => ordered_input(part),
        None => None,
    }
}

/// An order among an operator's inputs: its number, and its own input.
#[derive(Drop)]
struct Ordered<'a> {
    child: u32,
    input: &'a Plan,
}

/// The first order among an operator's inputs.
#[tactic(auto, using(crate::proofs::Finding::first_left, crate::proofs::Finding::first_right, crate::proofs::Finding::no_first))]
fn first_order(p: &Plan) -> Option<Ordered<'_>>
    ensures { MatchOption result ((i : ℕ) (x : Plan) → meaning.HasOrder p.now i x → ⊥) (λ o. meaning.IsFirstOrder p.now o.child o.input.now) }
{
    match order_below(p, 0) {
        Some(input) => Some(Ordered { child: 0, input }),
        None => match order_below(p, 1) {
            Some(input) => Some(Ordered { child: 1, input }),
            None => None,
        },
    }
}

/// The order that may go from below an operator.
#[tactic(auto, using(crate::proofs::Finding::not_forgetting, crate::proofs::Finding::none_to_drop))]
fn order_to_drop(p: &Plan) -> Option<Ordered<'_>>
    ensures { MatchOption result (IsOther meaning.DropOrder p.now) (λ o. (meaning.forgets_order p.now ≡ true) × meaning.IsFirstOrder p.now o.child o.input.now) }
{
    if forgets_order(p) {
        first_order(p)
    } else {
        None
    }
}

#[tactic(auto, using(crate::proofs::Finding::dropped_to))]
fn without_order(alloc: Global, p: &Plan) -> Result<Option<Plan>, NoMemory>
    ensures { IfOk result (Rewritten meaning.DropOrder p.now) }
{
    let Some(order) = order_to_drop(p) else {
        return Ok(None);
    };
    let below = order.input.copy(alloc)?;
    let whole = put_input(alloc, p.copy(alloc)?, order.child, below)?;
    Ok(Some(whole))
}

/// Drops the first order below an operator that gives the same for its input's rows in any order.
pub struct DropOrder;

impl Rule for DropOrder {
    ghost rewrites = { λ _. meaning.DropOrder };

    ghost called = { λ _. called.DropOrder };

    ghost sound = { λ _. shown.drop_order };

    fn name(&self) -> RuleName {
        RuleName::DropOrder
    }

    #[tactic(auto, using(crate::proofs::Finding::drop_matches))]
    fn matches(&self, p: &Plan) -> bool {
        order_to_drop(p).is_some()
    }

    fn apply(&self, alloc: Global, p: Plan) -> Result<Plan, ApplyFault> {
        let made = without_order(alloc, &p);
        outcome(p, made)
    }
}

/// The input of the inner one of two orders.
#[tactic(auto, using(crate::proofs::Finding::no_order, crate::proofs::Finding::no_inner_order, crate::proofs::Finding::two_orders))]
fn under_two_orders(p: &Plan) -> Option<&Plan>
    ensures { MatchOption result (IsOther meaning.OrderOverOrder p.now) (λ x. meaning.AreOrders p.now x.now) }
{
    match ordered_input(p) {
        Some(below) => ordered_input(below),
        None => None,
    }
}

#[tactic(auto, using(crate::proofs::Finding::ordered_once))]
fn one_order(alloc: Global, p: &Plan) -> Result<Option<Plan>, NoMemory>
    ensures { IfOk result (Rewritten meaning.OrderOverOrder p.now) }
{
    let Some(below) = under_two_orders(p) else {
        return Ok(None);
    };
    let below = below.copy(alloc)?;
    let whole = put_input(alloc, p.copy(alloc)?, 0, below)?;
    Ok(Some(whole))
}

/// Drops an order below an order.
pub struct OrderOverOrder;

impl Rule for OrderOverOrder {
    ghost rewrites = { λ _. meaning.OrderOverOrder };

    ghost called = { λ _. called.OrderOverOrder };

    ghost sound = { λ _. shown.order_over_order };

    fn name(&self) -> RuleName {
        RuleName::OrderOverOrder
    }

    #[tactic(auto, using(crate::proofs::Finding::orders_match))]
    fn matches(&self, p: &Plan) -> bool {
        under_two_orders(p).is_some()
    }

    fn apply(&self, alloc: Global, p: Plan) -> Result<Plan, ApplyFault> {
        let made = one_order(alloc, &p);
        outcome(p, made)
    }
}

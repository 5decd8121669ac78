//! The rules that move limits down and join them.

ghost use Rattle.al_rule.specs.declared.names.RuleName.TheVariants as called;
ghost use Rattle.std.specs.Prelude.{◌≡◌, ◌≤◌, ◌+◌, ◌-◌, nat_le, min, ℕ, List, Some, IfOk, MatchOption};
ghost use Rattle.al_plan.specs.declared.expr.Var.{Var};
ghost use Rattle.al_plan.specs.declared.expr.Expr.{Expr};
ghost use Rattle.al_plan.specs.declared.plan.Plan.{Plan};
ghost use Rattle.al_plan.specs.declared.plan.Plan.TheVariants as P;
ghost use Rattle.al_rule.specs.Places.{input, with_input};
ghost use Rattle.al_rules_order.specs.OrderRules as meaning;
ghost use Rattle.al_rules_order.specs.Outcomes.{IsOther, Rewritten};
ghost use Rattle.al_rules_order.specs.Shown as shown;

use crate::outcome::outcome;
use al_plan::Plan;
use al_rule::{ApplyFault, Rule, RuleName, put_input};
use al_value::{Boxed, NoMemory};
use std::alloc::Global;

/// The greatest number that a limit may have in a plan's text.
const MOST: u64 = 9_223_372_036_854_775_807;

/// The parts of a limit: `n` rows after the first `k`.
#[derive(Drop)]
struct Limit<'a> {
    n: u64,
    k: u64,
    input: &'a Plan,
}

fn limit_parts(p: &Plan) -> Option<Limit<'_>>
    ensures { MatchOption result ((n k : ℕ) (x : Plan) → p.now ≡ P.Limit n k x → ⊥) (λ l. p.now ≡ P.Limit l.n l.k l.input.now) }
{
    match p {
        Plan::Limit { n, k, input } => Some(Limit {
            n: *n,
            k: *k,
            input: input.get(),
        }),
        _ => None,
    }
}

/// A limit over a copy of a plan.
fn limited(alloc: Global, n: u64, k: u64, p: &Plan) -> Result<Plan, NoMemory>
    ensures { IfOk result (λ q. q ≡ P.Limit n k p.now) }
{
    let input = Boxed::new(alloc, p.copy(alloc)?)?;
    Ok(Plan::Limit { n, k, input })
}

/// Whether two limits may be joined that skip so many rows.
fn may_join(k: u64, j: u64) -> bool
    ensures { result ≡ nat_le (k + j) meaning.most }
{
    k <= MOST && j <= MOST - k
}

/// The limit that says what two limits say, one over the other.
fn joined<'a>(outer: &Limit<'a>, inner: &Limit<'a>) -> Limit<'a>
    requires { outer.now.k + inner.now.k ≤ meaning.most }
    ensures { (result.n ≡ min outer.now.n (inner.now.n - outer.now.k)) × (result.k ≡ outer.now.k + inner.now.k) × (result.input.now ≡ inner.now.input.now) }
{
    Limit {
        n: outer.n.min(inner.n.saturating_sub(outer.k)),
        k: outer.k + inner.k,
        input: inner.input,
    }
}

/// The limit that two limits may become.
#[tactic(auto, using(crate::proofs::Finding::no_limit, crate::proofs::Finding::no_inner_limit, crate::proofs::Finding::too_many))]
fn limit_of_two(p: &Plan) -> Option<Limit<'_>>
    ensures { MatchOption result (IsOther meaning.LimitOverLimit p.now) (λ l. meaning.LimitOverLimit p.now (P.Limit l.n l.k l.input.now)) }
{
    let Some(outer) = limit_parts(p) else {
        return None;
    };
    let Some(inner) = limit_parts(outer.input) else {
        return None;
    };
    if may_join(outer.k, inner.k) {
        Some(joined(&outer, &inner))
    } else {
        None
    }
}

fn one_limit(alloc: Global, p: &Plan) -> Result<Option<Plan>, NoMemory>
    ensures { IfOk result (Rewritten meaning.LimitOverLimit p.now) }
{
    match limit_of_two(p) {
        Some(limit) => Ok(Some(limited(alloc, limit.n, limit.k, limit.input)?)),
        None => Ok(None),
    }
}

/// Makes two limits one.
pub struct LimitOverLimit;

impl Rule for LimitOverLimit {
    ghost rewrites = { λ _. meaning.LimitOverLimit };

    ghost called = { λ _. called.LimitOverLimit };

    ghost sound = { λ _. shown.limit_over_limit };

    fn name(&self) -> RuleName {
        RuleName::LimitOverLimit
    }

    fn matches(&self, p: &Plan) -> bool {
        limit_of_two(p).is_some()
    }

    fn apply(&self, alloc: Global, p: Plan) -> Result<Plan, ApplyFault> {
        let made = one_limit(alloc, &p);
        outcome(p, made)
    }
}

/// A limit over an operator, and that operator's own input.
#[derive(Drop)]
struct Over<'a> {
    limit: Limit<'a>,
    below: &'a Plan,
}

/// The operator with the limit below it.
#[tactic(auto, using(crate::proofs::Finding::put_into))]
fn lowered(alloc: Global, over: &Over<'_>) -> Result<Plan, NoMemory>
    ensures { IfOk result (λ q. (z : Plan) → input over.now.limit.input.now 0 ≡ Some z → q ≡ with_input over.now.limit.input.now 0 (P.Limit over.now.limit.n over.now.limit.k over.now.below.now)) }
{
    let low = limited(alloc, over.limit.n, over.limit.k, over.below)?;
    put_input(alloc, over.limit.input.copy(alloc)?, 0, low)
}

/// The input of a `project`.
fn project_input(p: &Plan) -> Option<&Plan>
    ensures { MatchOption result ((x : Plan) → meaning.IsProject p.now x → ⊥) (λ x. meaning.IsProject p.now x.now) }
{
    match p {
        Plan::Project { input, .. } => Some(input.get()),
        _ => None,
    }
}

/// The parts of a limit over a `project`.
#[tactic(auto, using(crate::proofs::Finding::limit_of_no_project, crate::proofs::Finding::no_project_below))]
fn limit_over_project(p: &Plan) -> Option<Over<'_>>
    ensures { MatchOption result (IsOther meaning.LimitBelowProject p.now) (λ o. (p.now ≡ P.Limit o.limit.n o.limit.k o.limit.input.now) × meaning.IsProject o.limit.input.now o.below.now) }
{
    let Some(limit) = limit_parts(p) else {
        return None;
    };
    match project_input(limit.input) {
        Some(below) => Some(Over { limit, below }),
        None => None,
    }
}

fn project_of_limit(alloc: Global, p: &Plan) -> Result<Option<Plan>, NoMemory>
    ensures { IfOk result (Rewritten meaning.LimitBelowProject p.now) }
{
    match limit_over_project(p) {
        Some(over) => Ok(Some(lowered(alloc, &over)?)),
        None => Ok(None),
    }
}

/// Moves a limit below a `project`.
pub struct LimitBelowProject;

impl Rule for LimitBelowProject {
    ghost rewrites = { λ _. meaning.LimitBelowProject };

    ghost called = { λ _. called.LimitBelowProject };

    ghost sound = { λ _. shown.limit_below_project };

    fn name(&self) -> RuleName {
        RuleName::LimitBelowProject
    }

    fn matches(&self, p: &Plan) -> bool {
        limit_over_project(p).is_some()
    }

    fn apply(&self, alloc: Global, p: Plan) -> Result<Plan, ApplyFault> {
        let made = project_of_limit(alloc, &p);
        outcome(p, made)
    }
}

/// The input of an `assign`.
fn assign_input(p: &Plan) -> Option<&Plan>
    ensures { MatchOption result ((x : Plan) → meaning.IsAssign p.now x → ⊥) (λ x. meaning.IsAssign p.now x.now) }
{
    match p {
        Plan::Assign { input, .. } => Some(input.get()),
        _ => None,
    }
}

/// The parts of a limit over an `assign`.
#[tactic(auto, using(crate::proofs::Finding::limit_of_no_assign, crate::proofs::Finding::no_assign_below))]
fn limit_over_assign(p: &Plan) -> Option<Over<'_>>
    ensures { MatchOption result (IsOther meaning.LimitBelowAssign p.now) (λ o. (p.now ≡ P.Limit o.limit.n o.limit.k o.limit.input.now) × meaning.IsAssign o.limit.input.now o.below.now) }
{
    let Some(limit) = limit_parts(p) else {
        return None;
    };
    match assign_input(limit.input) {
        Some(below) => Some(Over { limit, below }),
        None => None,
    }
}

fn assign_of_limit(alloc: Global, p: &Plan) -> Result<Option<Plan>, NoMemory>
    ensures { IfOk result (Rewritten meaning.LimitBelowAssign p.now) }
{
    match limit_over_assign(p) {
        Some(over) => Ok(Some(lowered(alloc, &over)?)),
        None => Ok(None),
    }
}

/// Moves a limit below an `assign`.
pub struct LimitBelowAssign;

impl Rule for LimitBelowAssign {
    ghost rewrites = { λ _. meaning.LimitBelowAssign };

    ghost called = { λ _. called.LimitBelowAssign };

    ghost sound = { λ _. shown.limit_below_assign };

    fn name(&self) -> RuleName {
        RuleName::LimitBelowAssign
    }

    fn matches(&self, p: &Plan) -> bool {
        limit_over_assign(p).is_some()
    }

    fn apply(&self, alloc: Global, p: Plan) -> Result<Plan, ApplyFault> {
        let made = assign_of_limit(alloc, &p);
        outcome(p, made)
    }
}

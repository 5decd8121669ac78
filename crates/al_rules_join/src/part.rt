//! Joins by their parts, and parts of new ones.

ghost use Rattle.std.specs.Prelude.{◌≡◌, IfOk, MatchOption};
ghost use Rattle.al_plan.specs.declared.plan.Plan.TheVariants as P;
ghost use Rattle.al_rules_join.specs.JoinRules as meaning;
ghost use Rattle.al_rules_join.specs.JoinRules.{IsNoJoin, IsNoLeftJoin, IsNoSelectOverLeftJoin};

use al_plan::{Expr, Plan};
use al_rule::ApplyFault;
use al_value::{Boxed, NoMemory};
use std::alloc::Global;

/// The condition of a join or a left join, and its inputs.
#[derive(Drop)]
pub struct Sides<'a> {
    pub cond: &'a Expr,
    pub left: &'a Plan,
    pub right: &'a Plan,
}

/// The parts of a join.
pub fn join_sides(p: &Plan) -> Option<Sides<'_>>
    ensures { MatchOption result (IsNoJoin p.now) (λ s. p.now ≡ P.Join s.cond.now s.left.now s.right.now) }
{
    match p {
        Plan::Join { cond, left, right } => Some(Sides {
            cond,
            left: left.get(),
            right: right.get(),
        }),
        _ => None,
    }
}

/// The parts of a left join.
pub fn left_join_sides(p: &Plan) -> Option<Sides<'_>>
    ensures { MatchOption result (IsNoLeftJoin p.now) (λ s. p.now ≡ P.LeftJoin s.cond.now s.left.now s.right.now) }
{
    match p {
        Plan::LeftJoin { cond, left, right } => Some(Sides {
            cond,
            left: left.get(),
            right: right.get(),
        }),
        _ => None,
    }
}

/// A condition over a left join.
#[derive(Drop)]
pub struct SelectSides<'a> {
    pub cond: &'a Expr,
    pub join: Sides<'a>,
}

/// The condition of a select over a left join, and the parts of the left join.
pub fn select_sides(p: &Plan) -> Option<SelectSides<'_>>
    ensures { MatchOption result (IsNoSelectOverLeftJoin p.now) (λ s. p.now ≡ P.Select s.cond.now (P.LeftJoin s.join.cond.now s.join.left.now s.join.right.now)) }
{
    match p {
        Plan::Select { cond, input } => match left_join_sides(input.get()) {
            Some(join) => Some(SelectSides { cond, join }),
            None => None,
        },
        _ => None,
    }
}

pub fn copied(alloc: Global, p: &Plan) -> Result<Boxed<Plan>, NoMemory>
    ensures { IfOk result (λ b. b ≡ p.now) }
{
    Boxed::new(alloc, p.copy(alloc)?)
}

/// A copy of a plan under a select.
pub fn selected(alloc: Global, cond: Expr, p: &Plan) -> Result<Boxed<Plan>, NoMemory>
    ensures { IfOk result (λ b. b ≡ P.Select cond p.now) }
{
    let input = copied(alloc, p)?;
    Boxed::new(alloc, Plan::Select { cond, input })
}

/// What was made of a plan. Where nothing was made it is the plan itself, and where memory ran
/// out the plan is handed back.
pub fn outcome(p: Plan, made: Result<Option<Plan>, NoMemory>) -> Result<Plan, ApplyFault>
    ensures { result ≡ meaning.outcome p made }
{
    match made {
        Ok(Some(q)) => {
            // A call, since what drops in place is proved variant by variant.
            drop(p);
            Ok(q)
        }
        Ok(None) => Ok(p),
        Err(_) => Err(ApplyFault::NoMemory(p)),
    }
}

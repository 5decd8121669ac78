//! The rule that makes a left join a join.

ghost use Rattle.al_rule.specs.declared.names.RuleName.TheVariants as called;
ghost use Rattle.std.specs.Prelude.{◌≡◌, true, IfOk, MatchOption};
ghost use Rattle.al_plan.specs.declared.plan.Plan.TheVariants as P;
ghost use Rattle.al_rules_join.specs.JoinRules as meaning;
ghost use Rattle.al_rules_join.specs.JoinRules.{Rewritten, IsNot};
ghost use Rattle.al_rules_join.specs.Sound.{left_join_to_join_sound};

use crate::condition::compares;
use crate::part::{SelectSides, copied, outcome, select_sides};
use al_conj::both;
use al_plan::Plan;
use al_rule::{ApplyFault, Rule, RuleName};
use al_value::NoMemory;
use std::alloc::Global;

/// A select over a left join whose condition compares a variable of the right input, and so is
/// not TRUE of a left row that is in no pair: makes it a join.
pub struct LeftJoinToJoin;

/// The parts of a plan that the rule rewrites.
#[tactic(auto, using(crate::proofs::Matching::no_left_join_to_join, crate::proofs::Matching::other_left_join_to_join))]
fn compared(p: &Plan) -> Option<SelectSides<'_>>
    ensures { MatchOption result (IsNot meaning.left_join_to_join p.now) (λ s. (p.now ≡ P.Select s.cond.now (P.LeftJoin s.join.cond.now s.join.left.now s.join.right.now)) × (meaning.compares s.join.right.now s.cond.now ≡ true)) }
{
    let select = select_sides(p)?;
    if compares(select.cond, select.join.right) {
        Some(select)
    } else {
        None
    }
}

fn inner_join(alloc: Global, p: &Plan) -> Result<Option<Plan>, NoMemory>
    ensures { IfOk result (Rewritten meaning.left_join_to_join p.now) }
{
    let Some(select) = compared(p) else {
        return Ok(None);
    };
    let join = select.join;
    let cond = both(alloc, join.cond.copy(alloc)?, select.cond.copy(alloc)?)?;
    let left = copied(alloc, join.left)?;
    let right = copied(alloc, join.right)?;
    Ok(Some(Plan::Join { cond, left, right }))
}

impl Rule for LeftJoinToJoin {
    ghost rewrites = { λ self. meaning.left_join_to_join };

    ghost called = { λ _. called.LeftJoinToJoin };

    fn name(&self) -> RuleName {
        RuleName::LeftJoinToJoin
    }

    #[tactic(auto, using(crate::proofs::Matching::yes_left_join_to_join))]
    fn matches(&self, p: &Plan) -> bool {
        match compared(p) {
            Some(_) => true,
            None => false,
        }
    }

    fn apply(&self, alloc: Global, p: Plan) -> Result<Plan, ApplyFault> {
        let made = inner_join(alloc, &p);
        outcome(p, made)
    }

    ghost sound = { λ rule p q fit step. left_join_to_join_sound p q fit step };
}

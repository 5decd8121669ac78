//! The rule that drops a conjunct that says nothing.

ghost use Rattle.al_rule.specs.declared.names.RuleName.TheVariants as called;
ghost use Rattle.std.specs.Prelude.{◌≤◌, IfOk, MatchOption, length};
ghost use Rattle.al_plan.specs.declared.expr.Expr.{Expr};
ghost use Rattle.al_conj.specs.Conj.{Splits, conj, is_literal_true};
ghost use Rattle.al_rule.specs.Rules.{Decides};
ghost use Rattle.al_rules_join.specs.JoinRules as meaning;
ghost use Rattle.al_rules_join.specs.JoinRules.{Rewritten, SaysTrue, IsWithoutTrue};
ghost use Rattle.al_rules_join.specs.Sound.{drop_true_sound};

use crate::part::{copied, join_sides, left_join_sides, outcome};
use al_conj::{LiteralTrue, has_conjunct, is_and, take_first};
use al_plan::{Expr, Plan};
use al_rule::{ApplyFault, Rule, RuleName};
use al_value::NoMemory;
use std::alloc::Global;

/// Drops the first conjunct of a join or left join that is the literal true, unless it is the
/// only conjunct.
pub struct DropTrue;

fn says_true(cond: &Expr) -> bool
    ensures { Decides result (SaysTrue cond.now) }
{
    is_and(cond) && has_conjunct(&LiteralTrue, cond)
}

/// The condition without the first such conjunct.
#[tactic(auto, using(crate::proofs::Matching::decides_says_true))]
fn without_true(alloc: Global, cond: &Expr) -> Result<Option<Expr>, NoMemory>
    ensures { IfOk result (IsWithoutTrue cond.now) }
{
    if !is_and(cond) {
        return Ok(None);
    }
    match take_first(alloc, &LiteralTrue, cond)? {
        Some(split) => Ok(Some(split.rest)),
        None => Ok(None),
    }
}

#[tactic(auto, using(crate::proofs::Matching::drop_laws))]
fn dropped(alloc: Global, p: &Plan) -> Result<Option<Plan>, NoMemory>
    ensures { IfOk result (Rewritten meaning.drop_true p.now) }
{
    if let Some(join) = join_sides(p) {
        let Some(cond) = without_true(alloc, join.cond)? else {
            return Ok(None);
        };
        let left = copied(alloc, join.left)?;
        let right = copied(alloc, join.right)?;
        return Ok(Some(Plan::Join { cond, left, right }));
    }
    let Some(join) = left_join_sides(p) else {
        return Ok(None);
    };
    let Some(cond) = without_true(alloc, join.cond)? else {
        return Ok(None);
    };
    let left = copied(alloc, join.left)?;
    let right = copied(alloc, join.right)?;
    Ok(Some(Plan::LeftJoin { cond, left, right }))
}

impl Rule for DropTrue {
    ghost rewrites = { λ self. meaning.drop_true };

    ghost called = { λ _. called.DropTrue };

    fn name(&self) -> RuleName {
        RuleName::DropTrue
    }

    #[tactic(auto, using(crate::proofs::Matching::drop_laws))]
    fn matches(&self, p: &Plan) -> bool {
        if let Some(join) = join_sides(p) {
            return says_true(join.cond);
        }
        match left_join_sides(p) {
            Some(join) => says_true(join.cond),
            None => false,
        }
    }

    fn apply(&self, alloc: Global, p: Plan) -> Result<Plan, ApplyFault> {
        let made = dropped(alloc, &p);
        outcome(p, made)
    }

    ghost sound = { λ rule p q fit step. drop_true_sound p q fit step };
}

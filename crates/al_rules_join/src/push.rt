//! The rules that ask a conjunct of one input where that input is read.

ghost use Rattle.al_rule.specs.declared.names.RuleName.TheVariants as called;
ghost use Rattle.std.specs.Prelude.{◌≡◌, IfOk};
ghost use Rattle.al_rules_join.specs.JoinRules as meaning;
ghost use Rattle.al_rules_join.specs.JoinRules.{Rewritten};
ghost use Rattle.al_rules_join.specs.Sound.{join_cond_left_sound, join_cond_right_sound, left_join_cond_right_sound};

use crate::condition::{IsOf, ReadsOf};
use crate::part::{copied, join_sides, left_join_sides, outcome, selected};
use al_conj::{has_conjunct, take_first};
use al_plan::Plan;
use al_rule::{ApplyFault, Rule, RuleName};
use al_value::NoMemory;
use std::alloc::Global;

/// Asks the first conjunct of a join that reads the left input alone of that input.
pub struct JoinCondLeft;

#[tactic(auto, using(crate::proofs::Matching::join_cond_left_laws))]
fn pushed_left(alloc: Global, p: &Plan) -> Result<Option<Plan>, NoMemory>
    ensures { IfOk result (Rewritten meaning.join_cond_left p.now) }
{
    let Some(join) = join_sides(p) else {
        return Ok(None);
    };
    let property = IsOf { input: join.left };
    let Some(split) = take_first(alloc, &property, join.cond)? else {
        return Ok(None);
    };
    let left = selected(alloc, split.first, join.left)?;
    let right = copied(alloc, join.right)?;
    let cond = split.rest;
    Ok(Some(Plan::Join { cond, left, right }))
}

impl Rule for JoinCondLeft {
    ghost rewrites = { λ self. meaning.join_cond_left };

    ghost called = { λ _. called.JoinCondLeft };

    fn name(&self) -> RuleName {
        RuleName::JoinCondLeft
    }

    #[tactic(auto, using(crate::proofs::Matching::join_cond_left_laws))]
    fn matches(&self, p: &Plan) -> bool {
        match join_sides(p) {
            Some(join) => has_conjunct(&IsOf { input: join.left }, join.cond),
            None => false,
        }
    }

    fn apply(&self, alloc: Global, p: Plan) -> Result<Plan, ApplyFault> {
        let made = pushed_left(alloc, &p);
        outcome(p, made)
    }

    ghost sound = { λ rule p q fit step. join_cond_left_sound p q fit step };
}

/// The same of the right input.
pub struct JoinCondRight;

#[tactic(auto, using(crate::proofs::Matching::join_cond_right_laws))]
fn pushed_right(alloc: Global, p: &Plan) -> Result<Option<Plan>, NoMemory>
    ensures { IfOk result (Rewritten meaning.join_cond_right p.now) }
{
    let Some(join) = join_sides(p) else {
        return Ok(None);
    };
    let property = IsOf { input: join.right };
    let Some(split) = take_first(alloc, &property, join.cond)? else {
        return Ok(None);
    };
    let left = copied(alloc, join.left)?;
    let right = selected(alloc, split.first, join.right)?;
    let cond = split.rest;
    Ok(Some(Plan::Join { cond, left, right }))
}

impl Rule for JoinCondRight {
    ghost rewrites = { λ self. meaning.join_cond_right };

    ghost called = { λ _. called.JoinCondRight };

    fn name(&self) -> RuleName {
        RuleName::JoinCondRight
    }

    #[tactic(auto, using(crate::proofs::Matching::join_cond_right_laws))]
    fn matches(&self, p: &Plan) -> bool {
        match join_sides(p) {
            Some(join) => has_conjunct(&IsOf { input: join.right }, join.cond),
            None => false,
        }
    }

    fn apply(&self, alloc: Global, p: Plan) -> Result<Plan, ApplyFault> {
        let made = pushed_right(alloc, &p);
        outcome(p, made)
    }

    ghost sound = { λ rule p q fit step. join_cond_right_sound p q fit step };
}

/// Asks the first conjunct of a left join that has a variable and reads the right input alone of
/// that input.
pub struct LeftJoinCondRight;

#[tactic(auto, using(crate::proofs::Matching::left_join_cond_right_laws))]
fn pushed_below_left_join(alloc: Global, p: &Plan) -> Result<Option<Plan>, NoMemory>
    ensures { IfOk result (Rewritten meaning.left_join_cond_right p.now) }
{
    let Some(join) = left_join_sides(p) else {
        return Ok(None);
    };
    let property = ReadsOf { input: join.right };
    let Some(split) = take_first(alloc, &property, join.cond)? else {
        return Ok(None);
    };
    let left = copied(alloc, join.left)?;
    let right = selected(alloc, split.first, join.right)?;
    let cond = split.rest;
    Ok(Some(Plan::LeftJoin { cond, left, right }))
}

impl Rule for LeftJoinCondRight {
    ghost rewrites = { λ self. meaning.left_join_cond_right };

    ghost called = { λ _. called.LeftJoinCondRight };

    fn name(&self) -> RuleName {
        RuleName::LeftJoinCondRight
    }

    #[tactic(auto, using(crate::proofs::Matching::left_join_cond_right_laws))]
    fn matches(&self, p: &Plan) -> bool {
        match left_join_sides(p) {
            Some(join) => has_conjunct(&ReadsOf { input: join.right }, join.cond),
            None => false,
        }
    }

    fn apply(&self, alloc: Global, p: Plan) -> Result<Plan, ApplyFault> {
        let made = pushed_below_left_join(alloc, &p);
        outcome(p, made)
    }

    ghost sound = { λ rule p q fit step. left_join_cond_right_sound p q fit step };
}

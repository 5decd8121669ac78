//! Rules that take a select apart, drop it or make it a part of a join.

ghost use Rattle.al_rule.specs.declared.names.RuleName.TheVariants as called;
ghost use Rattle.std.specs.Prelude.{◌≡◌, true, IfOk, MatchOption};
ghost use Rattle.al_value.specs.declared.value.Value.TheVariants as V;
ghost use Rattle.al_plan.specs.declared.expr.Expr.{Expr};
ghost use Rattle.al_plan.specs.declared.expr.Expr.TheVariants as E;
ghost use Rattle.al_plan.specs.declared.plan.Plan.{Plan};
ghost use Rattle.al_plan.specs.declared.plan.Plan.TheVariants as P;
ghost use Rattle.al_conj.specs.Conj.{both as spec_both};
ghost use Rattle.al_rule.specs.Rules.{Decides, HandsBack};
ghost use Rattle.al_rules_select.specs.Lowers.{IsNoPair, IsPair, IsJoinedCondition, IsOverNoJoin, Splits, Uncovers, Joins};
ghost use Rattle.al_rules_select.specs.Selects as meaning;
ghost use Rattle.al_rules_select.specs.Sound as sound;

use crate::lower::select_parts;
use al_conj::{both, sides};
use al_plan::{Expr, Plan};
use al_rule::{ApplyFault, Rule, RuleName};
use al_value::{Boxed, NoMemory, Value};
use std::alloc::Global;

/// The sides of a select's condition, and a spare box.
#[derive(Drop)]
struct Halves {
    first: Expr,
    second: Expr,
    spare: Boxed<Plan>,
}

/// Copies of the sides of a select's condition, and a box for one select more.
#[tactic(auto, using(crate::proofs::WholeLaws::no_select, crate::proofs::WholeLaws::no_sides, crate::proofs::WholeLaws::of_sides))]
fn copied_sides(alloc: Global, p: &Plan) -> Result<Option<Halves>, NoMemory>
    ensures { IfOk result (λ found. MatchOption found (IsNoPair p.now) (λ h. IsPair h.first h.second p.now)) }
{
    let Some((e, _)) = select_parts(p) else {
        return Ok(None);
    };
    let Some((a, b)) = sides(e) else {
        return Ok(None);
    };
    let first = a.copy(alloc)?;
    let second = b.copy(alloc)?;
    let spare = Boxed::new(alloc, Plan::Empty)?;
    Ok(Some(Halves {
        first,
        second,
        spare,
    }))
}

/// Two selects over the input of a select, which keeps its box.
#[tactic(auto, using(crate::proofs::WholeLaws::selects_twice))]
fn selected_twice(p: Plan, halves: Halves) -> Plan
    ensures { (e : Expr) (x : Plan) → p ≡ P.Select e x → result ≡ P.Select halves.first (P.Select halves.second x) }
{
    let Halves {
        first,
        second,
        spare,
    } = halves;
    match p {
        Plan::Select { cond, input } => {
            drop(cond);
            let mut inner = spare;
            // A call, since what drops in place is proved variant by variant.
            drop(inner.replace(Plan::Select {
                cond: second,
                input,
            }));
            Plan::Select {
                cond: first,
                input: inner,
            }
        }
        other => other,
    }
}

#[tactic(auto, using(crate::proofs::WholeLaws::splits_pair))]
fn split(alloc: Global, p: Plan) -> Result<Plan, ApplyFault>
    ensures splits { IfOk result (Splits p) }
    ensures handed_back { HandsBack p result }
{
    let found = copied_sides(alloc, &p);
    match found {
        Ok(Some(halves)) => Ok(selected_twice(p, halves)),
        Ok(None) => Ok(p),
        Err(_) => Err(ApplyFault::NoMemory(p)),
    }
}

/// Takes a select of two conjuncts apart.
#[derive(Clone, Copy)]
pub struct SplitAnd;

impl Rule for SplitAnd {
    ghost rewrites = { λ _. meaning.SplitAnd };

    ghost called = { λ _. called.SplitAnd };

    ghost sound = { λ _. sound.split_and };

    fn name(&self) -> RuleName {
        RuleName::SplitAnd
    }

    #[tactic(auto, using(crate::proofs::WholeLaws::none_split, crate::proofs::WholeLaws::other_split, crate::proofs::WholeLaws::yes_split))]
    fn matches(&self, p: &Plan) -> bool {
        let Some((e, _)) = select_parts(p) else {
            return false;
        };
        match sides(e) {
            Some(_) => true,
            None => false,
        }
    }

    fn apply(&self, alloc: Global, p: Plan) -> Result<Plan, ApplyFault> {
        split(alloc, p)
    }
}

fn is_true(e: &Expr) -> bool
    ensures { Decides result (e.now ≡ E.Lit (V.Bool true)) }
{
    match e {
        Expr::Lit(Value::Bool(b)) => *b,
        _ => false,
    }
}

fn uncovered(p: Plan) -> Plan
    ensures { Uncovers p result }
{
    match p {
        Plan::Select { cond, input } => {
            drop(cond);
            input.into_inner()
        }
        other => other,
    }
}

/// Drops a select by the literal `true`.
#[derive(Clone, Copy)]
pub struct SelectTrue;

impl Rule for SelectTrue {
    ghost rewrites = { λ _. meaning.SelectTrue };

    ghost called = { λ _. called.SelectTrue };

    ghost sound = { λ _. sound.select_true };

    fn name(&self) -> RuleName {
        RuleName::SelectTrue
    }

    #[tactic(auto, using(crate::proofs::WholeLaws::none_true, crate::proofs::WholeLaws::yes_true))]
    fn matches(&self, p: &Plan) -> bool {
        match select_parts(p) {
            Some((e, _)) => is_true(e),
            None => false,
        }
    }

    fn apply(&self, _alloc: Global, p: Plan) -> Result<Plan, ApplyFault> {
        Ok(uncovered(p))
    }
}

/// Copies of two conditions as one.
fn conjoined(alloc: Global, cond: &Expr, more: &Expr) -> Result<Expr, NoMemory>
    ensures { IfOk result (λ d. d ≡ spec_both cond.now more.now) }
{
    both(alloc, cond.copy(alloc)?, more.copy(alloc)?)
}

/// The condition of the join under a select, with the select's condition as a conjunct.
#[tactic(auto, using(crate::proofs::WholeLaws::no_join_none, crate::proofs::WholeLaws::no_join_other, crate::proofs::WholeLaws::condition_of))]
fn joined_condition(alloc: Global, p: &Plan) -> Result<Option<Expr>, NoMemory>
    ensures { IfOk result (λ found. MatchOption found (IsOverNoJoin p.now) (IsJoinedCondition p.now)) }
{
    let Some((e, over)) = select_parts(p) else {
        return Ok(None);
    };
    match over {
        Plan::Join { cond, .. } => Ok(Some(conjoined(alloc, cond, e)?)),
        _ => Ok(None),
    }
}

/// The join under a select, with another condition. Its inputs keep their boxes.
#[tactic(auto, using(crate::proofs::WholeLaws::under_select))]
fn with_condition(p: Plan, new: Expr) -> Plan
    ensures { (e c : Expr) (l r : Plan) → p ≡ P.Select e (P.Join c l r) → result ≡ P.Join new l r }
{
    match p {
        Plan::Select { cond, input } => {
            drop(cond);
            under_condition(input.into_inner(), new)
        }
        other => other,
    }
}

/// A join with another condition.
#[tactic(auto, using(crate::proofs::WholeLaws::under_join))]
fn under_condition(p: Plan, new: Expr) -> Plan
    ensures { (c : Expr) (l r : Plan) → p ≡ P.Join c l r → result ≡ P.Join new l r }
{
    match p {
        Plan::Join { cond, left, right } => {
            drop(cond);
            Plan::Join {
                cond: new,
                left,
                right,
            }
        }
        other => other,
    }
}

fn joined(alloc: Global, p: Plan) -> Result<Plan, ApplyFault>
    ensures joins { IfOk result (Joins p) }
    ensures handed_back { HandsBack p result }
{
    let found = joined_condition(alloc, &p);
    match found {
        Ok(Some(cond)) => Ok(with_condition(p, cond)),
        Ok(None) => Ok(p),
        Err(_) => Err(ApplyFault::NoMemory(p)),
    }
}

/// Makes the condition of a select a conjunct of the join under it.
#[derive(Clone, Copy)]
pub struct SelectIntoJoin;

impl Rule for SelectIntoJoin {
    ghost rewrites = { λ _. meaning.SelectIntoJoin };

    ghost called = { λ _. called.SelectIntoJoin };

    ghost sound = { λ _. sound.into_join };

    fn name(&self) -> RuleName {
        RuleName::SelectIntoJoin
    }

    #[tactic(auto, using(crate::proofs::WholeLaws::none_into, crate::proofs::WholeLaws::other_into, crate::proofs::WholeLaws::yes_into))]
    fn matches(&self, p: &Plan) -> bool {
        let Some((_, over)) = select_parts(p) else {
            return false;
        };
        match over {
            Plan::Join { .. } => true,
            _ => false,
        }
    }

    fn apply(&self, alloc: Global, p: Plan) -> Result<Plan, ApplyFault> {
        joined(alloc, p)
    }
}

//! The rules that drop a `distinct`.

ghost use Rattle.al_rule.specs.declared.names.RuleName.TheVariants as called;
ghost use Rattle.std.specs.Prelude.{◌≡◌, IfOk, MatchOption};
ghost use Rattle.al_rules_group.specs.GroupRules as meaning;
ghost use Rattle.al_rules_group.specs.Outcomes.{IsOther, Rewritten};
ghost use Rattle.al_rules_group.specs.DistinctSound as sound;

use crate::outcome::outcome;
use crate::shape::{distinct_input, is_aggregate, is_distinct, is_group};
use al_plan::Plan;
use al_rule::{ApplyFault, Rule, RuleName};
use al_value::NoMemory;
use std::alloc::Global;

/// What stands below a `distinct`, where it is a `distinct`.
#[tactic(auto, using(crate::proofs::Finding::no_distinct_over_distinct, crate::proofs::Finding::distinct_over_no_distinct, crate::proofs::Finding::distinct_over_distinct))]
fn distinct_below(p: &Plan) -> Option<&Plan>
    ensures { MatchOption result (IsOther meaning.DistinctOverDistinct p.now) (λ x. meaning.DistinctOverDistinct p.now x.now) }
{
    match distinct_input(p) {
        Some(below) => {
            if is_distinct(below) {
                Some(below)
            } else {
                None
            }
        }
        None => None,
    }
}

fn distinct_alone(alloc: Global, p: &Plan) -> Result<Option<Plan>, NoMemory>
    ensures { IfOk result (Rewritten meaning.DistinctOverDistinct p.now) }
{
    match distinct_below(p) {
        Some(below) => Ok(Some(below.copy(alloc)?)),
        None => Ok(None),
    }
}

/// Drops a `distinct` over a `distinct`.
pub struct DistinctOverDistinct;

impl Rule for DistinctOverDistinct {
    ghost rewrites = { λ _. meaning.DistinctOverDistinct };

    ghost called = { λ _. called.DistinctOverDistinct };

    ghost sound = { λ _. sound.distinct_over_distinct };

    fn name(&self) -> RuleName {
        RuleName::DistinctOverDistinct
    }

    fn matches(&self, p: &Plan) -> bool {
        distinct_below(p).is_some()
    }

    fn apply(&self, alloc: Global, p: Plan) -> Result<Plan, ApplyFault> {
        let made = distinct_alone(alloc, &p);
        outcome(p, made)
    }
}

/// What stands below a `distinct`, where it is a `group`.
#[tactic(auto, using(crate::proofs::Finding::no_distinct_over_group, crate::proofs::Finding::distinct_over_no_group, crate::proofs::Finding::distinct_over_group))]
fn group_below(p: &Plan) -> Option<&Plan>
    ensures { MatchOption result (IsOther meaning.DistinctOverGroup p.now) (λ x. meaning.DistinctOverGroup p.now x.now) }
{
    match distinct_input(p) {
        Some(below) => { if is_group(below) { Some(below) } else { None } }
        None => None,
    }
}

fn group_alone(alloc: Global, p: &Plan) -> Result<Option<Plan>, NoMemory>
    ensures { IfOk result (Rewritten meaning.DistinctOverGroup p.now) }
{
    match group_below(p) {
        Some(below) => Ok(Some(below.copy(alloc)?)),
        None => Ok(None),
    }
}

/// Drops a `distinct` over a `group`.
pub struct DistinctOverGroup;

impl Rule for DistinctOverGroup {
    ghost rewrites = { λ _. meaning.DistinctOverGroup };

    ghost called = { λ _. called.DistinctOverGroup };

    ghost sound = { λ _. sound.distinct_over_group };

    fn name(&self) -> RuleName {
        RuleName::DistinctOverGroup
    }

    fn matches(&self, p: &Plan) -> bool {
        group_below(p).is_some()
    }

    fn apply(&self, alloc: Global, p: Plan) -> Result<Plan, ApplyFault> {
        let made = group_alone(alloc, &p);
        outcome(p, made)
    }
}

/// What stands below a `distinct`, where it is an `aggregate`.
#[tactic(auto, using(crate::proofs::Finding::no_distinct_over_aggregate, crate::proofs::Finding::distinct_over_no_aggregate, crate::proofs::Finding::distinct_over_aggregate))]
fn aggregate_below(p: &Plan) -> Option<&Plan>
    ensures { MatchOption result (IsOther meaning.DistinctOverAggregate p.now) (λ x. meaning.DistinctOverAggregate p.now x.now) }
{
    match distinct_input(p) {
        Some(below) => {
            if is_aggregate(below) {
                Some(below)
            } else {
                None
            }
        }
        None => None,
    }
}

fn aggregate_alone(alloc: Global, p: &Plan) -> Result<Option<Plan>, NoMemory>
    ensures { IfOk result (Rewritten meaning.DistinctOverAggregate p.now) }
{
    match aggregate_below(p) {
        Some(below) => Ok(Some(below.copy(alloc)?)),
        None => Ok(None),
    }
}

/// Drops a `distinct` over an `aggregate`.
pub struct DistinctOverAggregate;

impl Rule for DistinctOverAggregate {
    ghost rewrites = { λ _. meaning.DistinctOverAggregate };

    ghost called = { λ _. called.DistinctOverAggregate };

    ghost sound = { λ _. sound.distinct_over_aggregate };

    fn name(&self) -> RuleName {
        RuleName::DistinctOverAggregate
    }

    fn matches(&self, p: &Plan) -> bool {
        aggregate_below(p).is_some()
    }

    fn apply(&self, alloc: Global, p: Plan) -> Result<Plan, ApplyFault> {
        let made = aggregate_alone(alloc, &p);
        outcome(p, made)
    }
}

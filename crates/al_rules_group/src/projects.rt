//! The rules that drop a `project`.

ghost use Rattle.al_rule.specs.declared.names.RuleName.TheVariants as called;
ghost use Rattle.std.specs.Prelude.{◌≡◌, false, IfOk, MatchOption};
ghost use Rattle.al_plan.specs.declared.plan.Plan.{Plan};
ghost use Rattle.al_rules_group.specs.GroupRules as meaning;
ghost use Rattle.al_rules_group.specs.Shapes as shape;
ghost use Rattle.al_rules_group.specs.Outcomes.{IsOther, Rewritten};
ghost use Rattle.al_rules_group.specs.AggregateSound as aggregates;
ghost use Rattle.al_rules_group.specs.GroupSound as groups;

use crate::distinct::has_distinct;
use crate::outcome::outcome;
use crate::shape::{Grouping, aggregate_input, group_parts, project_input};
use al_plan::Plan;
use al_rule::{ApplyFault, Rule, RuleName, put_input};
use al_value::NoMemory;
use std::alloc::Global;

/// The input of the `project` below an `aggregate`.
#[tactic(auto, using(crate::proofs::Finding::no_aggregate))]
fn aggregated(p: &Plan) -> Option<&Plan>
    ensures { MatchOption result (IsOther meaning.AggregateOverProject p.now) (λ x. (y : Plan) × shape.IsAggregateOf p.now y × shape.IsProjectOf y x.now) }
{
    match aggregate_input(p) {
        Some(below) => project_input(below),
        None => None,
    }
}

fn aggregate_alone(alloc: Global, p: &Plan) -> Result<Option<Plan>, NoMemory>
    ensures { IfOk result (Rewritten meaning.AggregateOverProject p.now) }
{
    let Some(below) = aggregated(p) else {
        return Ok(None);
    };
    let below = below.copy(alloc)?;
    let whole = put_input(alloc, p.copy(alloc)?, 0, below)?;
    Ok(Some(whole))
}

/// Drops a `project` below an `aggregate`.
pub struct AggregateOverProject;

impl Rule for AggregateOverProject {
    ghost rewrites = { λ _. meaning.AggregateOverProject };

    ghost called = { λ _. called.AggregateOverProject };

    ghost sound = { λ _. aggregates.aggregate_over_project };

    fn name(&self) -> RuleName {
        RuleName::AggregateOverProject
    }

    fn matches(&self, p: &Plan) -> bool {
        aggregated(p).is_some()
    }

    fn apply(&self, alloc: Global, p: Plan) -> Result<Plan, ApplyFault> {
        let made = aggregate_alone(alloc, &p);
        outcome(p, made)
    }
}

/// A `group` whose nested plan has no `distinct`.
#[tactic(auto, using(crate::proofs::Finding::no_group, crate::proofs::Finding::group_with_distinct))]
fn plain_grouping(p: &Plan) -> Option<Grouping<'_>>
    ensures { MatchOption result (IsOther meaning.GroupOverProject p.now) (λ g. shape.IsGroupOf p.now g.nested.now g.input.now × (meaning.has_distinct g.nested.now ≡ false)) }
{
    let Some(group) = group_parts(p) else {
        return None;
    };
    if has_distinct(group.nested) {
        None
    } else {
        Some(group)
    }
}

/// The input of the `project` below a `group` whose nested plan has no `distinct`.
fn grouped(p: &Plan) -> Option<&Plan>
    ensures { MatchOption result (IsOther meaning.GroupOverProject p.now) (λ x. (n y : Plan) × shape.IsGroupOf p.now n y × (meaning.has_distinct n ≡ false) × shape.IsProjectOf y x.now) }
{
    match plain_grouping(p) {
        Some(group) => project_input(group.input),
        None => None,
    }
}

fn group_alone(alloc: Global, p: &Plan) -> Result<Option<Plan>, NoMemory>
    ensures { IfOk result (Rewritten meaning.GroupOverProject p.now) }
{
    let Some(below) = grouped(p) else {
        return Ok(None);
    };
    let below = below.copy(alloc)?;
    let whole = put_input(alloc, p.copy(alloc)?, 1, below)?;
    Ok(Some(whole))
}

/// Drops a `project` below a `group` whose nested plan has no `distinct`.
pub struct GroupOverProject;

impl Rule for GroupOverProject {
    ghost rewrites = { λ _. meaning.GroupOverProject };

    ghost called = { λ _. called.GroupOverProject };

    ghost sound = { λ _. groups.group_over_project };

    fn name(&self) -> RuleName {
        RuleName::GroupOverProject
    }

    fn matches(&self, p: &Plan) -> bool {
        grouped(p).is_some()
    }

    fn apply(&self, alloc: Global, p: Plan) -> Result<Plan, ApplyFault> {
        let made = group_alone(alloc, &p);
        outcome(p, made)
    }
}

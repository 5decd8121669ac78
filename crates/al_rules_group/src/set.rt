//! The set of the rules on groups, aggregates and distincts.

ghost use Rattle.al_rules_group.specs.GroupCounts.{group_measure, operators};
ghost use Rattle.al_rules_group.specs.GroupSet.{group_lawful, group_rules};

use crate::distincts::{DistinctOverAggregate, DistinctOverDistinct, DistinctOverGroup};
use crate::projects::{AggregateOverProject, GroupOverProject};
use al_plan::Plan;
use al_rule::{ApplyFault, Rule, RuleName, RuleSet, SetName};
use std::alloc::Global;

/// Drops distincts over rows that differ, and projects below aggregates and groups. It is driven
/// to a fixpoint.
#[derive(Clone, Copy)]
pub struct GroupSet;

impl RuleSet for GroupSet {
    ghost rules_of = { λ _. group_rules };

    ghost measure = { λ _. group_measure };

    ghost weight = { λ _. operators };

    ghost lawful = { λ _. group_lawful };

    fn name(&self) -> SetName {
        SetName::Group
    }

    fn rules(&self) -> usize {
        5
    }

    fn rule(&self, k: usize) -> RuleName {
        match k {
            0 => DistinctOverDistinct.name(),
            1 => DistinctOverGroup.name(),
            2 => DistinctOverAggregate.name(),
            3 => AggregateOverProject.name(),
            _ => GroupOverProject.name(),
        }
    }

    fn matches(&self, k: usize, p: &Plan) -> bool {
        match k {
            0 => DistinctOverDistinct.matches(p),
            1 => DistinctOverGroup.matches(p),
            2 => DistinctOverAggregate.matches(p),
            3 => AggregateOverProject.matches(p),
            _ => GroupOverProject.matches(p),
        }
    }

    fn apply(&self, alloc: Global, k: usize, p: Plan) -> Result<Plan, ApplyFault> {
        match k {
            0 => DistinctOverDistinct.apply(alloc, p),
            1 => DistinctOverGroup.apply(alloc, p),
            2 => DistinctOverAggregate.apply(alloc, p),
            3 => AggregateOverProject.apply(alloc, p),
            _ => GroupOverProject.apply(alloc, p),
        }
    }
}

//! The set of the rules of pruning.

ghost use Rattle.al_rules_prune.specs.PruneSet.{prune_measure, prune_rules, prune_weight};
ghost use Rattle.al_rules_prune.specs.Shown.{prune_lawful};

use crate::cuts::{AggregateProjectInput, ProjectBelowOrder, ProjectBelowSelect, ResultProject};
use crate::group::GroupProjectInput;
use crate::join::ProjectBelowJoin;
use crate::projects::{AssignUnderProject, ProjectAll, ProjectOverProject};
use al_plan::Plan;
use al_rule::{ApplyFault, Rule, RuleName, RuleSet, SetName};
use std::alloc::Global;

/// Cuts inputs to the variables that are used above, and drops projects and bindings that are not
/// needed. It is driven to a fixpoint.
#[derive(Clone, Copy)]
pub struct PruneSet;

impl RuleSet for PruneSet {
    ghost rules_of = { λ _. prune_rules };

    ghost measure = { λ _. prune_measure };

    ghost weight = { λ _. prune_weight };

    ghost lawful = { λ _. prune_lawful };

    fn name(&self) -> SetName {
        SetName::Prune
    }

    fn rules(&self) -> usize {
        9
    }

    fn rule(&self, k: usize) -> RuleName {
        match k {
            0 => ResultProject.name(),
            1 => ProjectOverProject.name(),
            2 => ProjectAll.name(),
            3 => AssignUnderProject.name(),
            4 => ProjectBelowSelect.name(),
            5 => ProjectBelowOrder.name(),
            6 => ProjectBelowJoin.name(),
            7 => GroupProjectInput.name(),
            _ => AggregateProjectInput.name(),
        }
    }

    fn matches(&self, k: usize, p: &Plan) -> bool {
        match k {
            0 => ResultProject.matches(p),
            1 => ProjectOverProject.matches(p),
            2 => ProjectAll.matches(p),
            3 => AssignUnderProject.matches(p),
            4 => ProjectBelowSelect.matches(p),
            5 => ProjectBelowOrder.matches(p),
            6 => ProjectBelowJoin.matches(p),
            7 => GroupProjectInput.matches(p),
            _ => AggregateProjectInput.matches(p),
        }
    }

    fn apply(&self, alloc: Global, k: usize, p: Plan) -> Result<Plan, ApplyFault> {
        match k {
            0 => ResultProject.apply(alloc, p),
            1 => ProjectOverProject.apply(alloc, p),
            2 => ProjectAll.apply(alloc, p),
            3 => AssignUnderProject.apply(alloc, p),
            4 => ProjectBelowSelect.apply(alloc, p),
            5 => ProjectBelowOrder.apply(alloc, p),
            6 => ProjectBelowJoin.apply(alloc, p),
            7 => GroupProjectInput.apply(alloc, p),
            _ => AggregateProjectInput.apply(alloc, p),
        }
    }
}

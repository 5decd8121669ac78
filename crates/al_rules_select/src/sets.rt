//! The sets of rules on selects.

ghost use Rattle.std.specs.Prelude.{[], ◌∷◌};
ghost use Rattle.al_rule.specs.Counts.{below_selects, select_ands};
ghost use Rattle.al_rule.specs.Rules.{IsLocal};
ghost use Rattle.al_rules_select.specs.Sets as sets;

use crate::below::{
    SelectBelowAssign, SelectBelowDistinct, SelectBelowJoinLeft, SelectBelowJoinRight,
    SelectBelowLeftJoin, SelectBelowOrder, SelectBelowProject, SelectBelowSubplan,
    SelectBelowUnnest,
};
use crate::whole::{SelectIntoJoin, SelectTrue, SplitAnd};
use al_plan::Plan;
use al_rule::{ApplyFault, Rule, RuleName, RuleSet, SetName};
use std::alloc::Global;

/// Takes the selects of conjunctions apart. It is driven once.
#[derive(Clone, Copy)]
pub struct SplitSet;

impl RuleSet for SplitSet {
    ghost rules_of = { λ _. sets.split_rules };

    ghost measure = { λ _ p. select_ands p ∷ [] };

    ghost weight = { λ _. select_ands };

    ghost lawful = { λ _. sets.split_lawful };

    fn name(&self) -> SetName {
        SetName::Split
    }

    fn rules(&self) -> usize {
        1
    }

    fn rule(&self, _k: usize) -> RuleName {
        SplitAnd.name()
    }

    fn matches(&self, _k: usize, p: &Plan) -> bool {
        SplitAnd.matches(p)
    }

    fn apply(&self, alloc: Global, _k: usize, p: Plan) -> Result<Plan, ApplyFault> {
        SplitAnd.apply(alloc, p)
    }
}

/// Whether a select may be taken apart doesn't hang on its input. It does nothing: its clause
/// speaks of every plan.
pub fn split_laws()
    ensures { IsLocal sets.split_rules }
{}

/// Moves selects down. It is driven to a fixpoint.
#[derive(Clone, Copy)]
pub struct SelectSet;

impl RuleSet for SelectSet {
    ghost rules_of = { λ _. sets.select_rules };

    ghost measure = { λ _ p. below_selects p ∷ [] };

    ghost weight = { λ _. below_selects };

    ghost lawful = { λ _. sets.select_lawful };

    fn name(&self) -> SetName {
        SetName::Select
    }

    fn rules(&self) -> usize {
        11
    }

    fn rule(&self, k: usize) -> RuleName {
        match k {
            0 => SelectTrue.name(),
            1 => SelectBelowAssign.name(),
            2 => SelectBelowProject.name(),
            3 => SelectBelowUnnest.name(),
            4 => SelectBelowSubplan.name(),
            5 => SelectBelowOrder.name(),
            6 => SelectBelowDistinct.name(),
            7 => SelectBelowJoinLeft.name(),
            8 => SelectBelowJoinRight.name(),
            9 => SelectIntoJoin.name(),
            _ => SelectBelowLeftJoin.name(),
        }
    }

    fn matches(&self, k: usize, p: &Plan) -> bool {
        match k {
            0 => SelectTrue.matches(p),
            1 => SelectBelowAssign.matches(p),
            2 => SelectBelowProject.matches(p),
            3 => SelectBelowUnnest.matches(p),
            4 => SelectBelowSubplan.matches(p),
            5 => SelectBelowOrder.matches(p),
            6 => SelectBelowDistinct.matches(p),
            7 => SelectBelowJoinLeft.matches(p),
            8 => SelectBelowJoinRight.matches(p),
            9 => SelectIntoJoin.matches(p),
            _ => SelectBelowLeftJoin.matches(p),
        }
    }

    fn apply(&self, alloc: Global, k: usize, p: Plan) -> Result<Plan, ApplyFault> {
        match k {
            0 => SelectTrue.apply(alloc, p),
            1 => SelectBelowAssign.apply(alloc, p),
            2 => SelectBelowProject.apply(alloc, p),
            3 => SelectBelowUnnest.apply(alloc, p),
            4 => SelectBelowSubplan.apply(alloc, p),
            5 => SelectBelowOrder.apply(alloc, p),
            6 => SelectBelowDistinct.apply(alloc, p),
            7 => SelectBelowJoinLeft.apply(alloc, p),
            8 => SelectBelowJoinRight.apply(alloc, p),
            9 => SelectIntoJoin.apply(alloc, p),
            _ => SelectBelowLeftJoin.apply(alloc, p),
        }
    }
}

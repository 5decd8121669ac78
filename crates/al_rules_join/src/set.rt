//! The set of the rules on joins.

ghost use Rattle.std.specs.Prelude.{◌≡◌, IfOk};
ghost use Rattle.al_rules_join.specs.JoinSet.{join_rules, join_measure, join_weight};
ghost use Rattle.al_rules_join.specs.Falls.{join_lawful};

use crate::drop_true::DropTrue;
use crate::left_join::LeftJoinToJoin;
use crate::push::{JoinCondLeft, JoinCondRight, LeftJoinCondRight};
use al_plan::Plan;
use al_rule::{ApplyFault, Rule, RuleName, RuleSet, SetName};
use std::alloc::Global;

/// The rules on joins, in their order: left joins become joins, the literal true is dropped, and
/// conjuncts go to the inputs that they read.
pub struct JoinSet;

impl RuleSet for JoinSet {
    ghost rules_of = { λ self. join_rules };

    ghost measure = { λ self. join_measure };

    ghost weight = { λ self. join_weight };

    fn name(&self) -> SetName {
        SetName::Join
    }

    fn rules(&self) -> usize {
        5
    }

    #[tactic(auto, using(crate::proofs::SetLaws::last_name))]
    fn rule(&self, k: usize) -> RuleName {
        match k {
            0 => LeftJoinToJoin.name(),
            1 => DropTrue.name(),
            2 => JoinCondLeft.name(),
            3 => JoinCondRight.name(),
            _ => LeftJoinCondRight.name(),
        }
    }

    fn matches(&self, k: usize, p: &Plan) -> bool {
        match k {
            0 => LeftJoinToJoin.matches(p),
            1 => DropTrue.matches(p),
            2 => JoinCondLeft.matches(p),
            3 => JoinCondRight.matches(p),
            _ => LeftJoinCondRight.matches(p),
        }
    }

    fn apply(&self, alloc: Global, k: usize, p: Plan) -> Result<Plan, ApplyFault> {
        match k {
            0 => LeftJoinToJoin.apply(alloc, p),
            1 => DropTrue.apply(alloc, p),
            2 => JoinCondLeft.apply(alloc, p),
            3 => JoinCondRight.apply(alloc, p),
            _ => LeftJoinCondRight.apply(alloc, p),
        }
    }

    ghost lawful = { λ set. join_lawful };
}

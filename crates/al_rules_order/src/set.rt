//! The set of the rules on orders and limits.

ghost use Rattle.al_rules_order.specs.OrderCounts.{order_measure, order_weight};
ghost use Rattle.al_rules_order.specs.OrderSet.{order_rules};
ghost use Rattle.al_rules_order.specs.Shown.{order_lawful};

use crate::limits::{LimitBelowAssign, LimitBelowProject, LimitOverLimit};
use crate::orders::{DropOrder, OrderOverOrder};
use al_plan::Plan;
use al_rule::{ApplyFault, Rule, RuleName, RuleSet, SetName};
use std::alloc::Global;

/// Drops orders that are forgotten above, and moves limits down. It is driven to a fixpoint.
#[derive(Clone, Copy)]
pub struct OrderSet;

impl RuleSet for OrderSet {
    ghost rules_of = { λ _. order_rules };

    ghost measure = { λ _. order_measure };

    ghost weight = { λ _. order_weight };

    ghost lawful = { λ _. order_lawful };

    fn name(&self) -> SetName {
        SetName::Order
    }

    fn rules(&self) -> usize {
        5
    }

    fn rule(&self, k: usize) -> RuleName {
        match k {
            0 => DropOrder.name(),
            1 => OrderOverOrder.name(),
            2 => LimitOverLimit.name(),
            3 => LimitBelowProject.name(),
            _ => LimitBelowAssign.name(),
        }
    }

    fn matches(&self, k: usize, p: &Plan) -> bool {
        match k {
            0 => DropOrder.matches(p),
            1 => OrderOverOrder.matches(p),
            2 => LimitOverLimit.matches(p),
            3 => LimitBelowProject.matches(p),
            _ => LimitBelowAssign.matches(p),
        }
    }

    fn apply(&self, alloc: Global, k: usize, p: Plan) -> Result<Plan, ApplyFault> {
        match k {
            0 => DropOrder.apply(alloc, p),
            1 => OrderOverOrder.apply(alloc, p),
            2 => LimitOverLimit.apply(alloc, p),
            3 => LimitBelowProject.apply(alloc, p),
            _ => LimitBelowAssign.apply(alloc, p),
        }
    }
}

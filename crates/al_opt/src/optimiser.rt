//! The optimiser.

ghost use Rattle.std.specs.Prelude.{◌≡◌, ◌≤◌, IfOk, true, false};
ghost use Rattle.al_plan.specs.Refines.{Fit, Refines};
ghost use Rattle.al_rule.specs.Driven.{Drove};
ghost use Rattle.al_rule.specs.Rules.{Stuck};
ghost use Rattle.al_opt.specs.Determined.{IsOnlyTrace};
ghost use Rattle.al_opt.specs.Optimised.{LegalTrace, Reaches};
ghost use Rattle.al_opt.specs.Room.{parts};
ghost use Rattle.al_rules_select.specs.Sets.{split_rules};

use crate::room::room_beside;
use al_plan::Plan;
use al_rule::{RuleSet, Trace, drive_fixpoint, drive_once};
use al_rules_group::GroupSet;
use al_rules_join::JoinSet;
use al_rules_order::OrderSet;
use al_rules_prune::PruneSet;
use al_rules_select::{SelectSet, SplitSet, split_laws};
use al_value::{Boxed, NoMemory};
use std::alloc::Global;

/// The operators and conjuncts outside nested plans that a plan may have.
const MOST_PARTS: usize = 1_200;

fn copied(alloc: Global, p: &Plan) -> Result<Boxed<Plan>, NoMemory>
    ensures { IfOk result (λ q. q ≡ p.now) }
{
    match p.copy(alloc) {
        Ok(q) => Boxed::new(alloc, q),
        Err(fault) => Err(fault),
    }
}

/// Drives a set until none of its rules matches.
fn exhaust<S: RuleSet>(
    alloc: Global,
    set: &S,
    p: Boxed<Plan>,
    t: &mut Trace,
) -> Result<Boxed<Plan>, NoMemory>
    requires { Fit p }
    ensures { IfOk result (λ q. Reaches false (S.rules_of set.now) p t.old t.new q) }
{
    match drive_fixpoint(alloc, set, p.into_inner(), t) {
        Ok(q) => Boxed::new(alloc, q),
        Err(fault) => {
            // A call, since what drops in place is proved variant by variant.
            drop(fault);
            Err(NoMemory)
        }
    }
}

/// Takes conditions apart: one walk is enough, since no walk makes a new conjunction.
fn split(alloc: Global, p: Boxed<Plan>, t: &mut Trace) -> Result<Boxed<Plan>, NoMemory>
    requires { Fit p }
    ensures { IfOk result (λ q. Reaches true split_rules p t.old t.new q) }
{
    split_laws();
    match drive_once(alloc, &SplitSet, p.into_inner(), t) {
        Ok(q) => Boxed::new(alloc, q),
        Err(fault) => {
            drop(fault);
            Err(NoMemory)
        }
    }
}

/// Drives the sets in their order.
fn drive(alloc: Global, p: &Plan) -> Result<(Plan, Trace), NoMemory>
    requires { Fit p.now }
    ensures legal { IfOk result (λ both. LegalTrace p.now both.1.steps both.0) }
    ensures only { IfOk result (λ both. IsOnlyTrace p.now both.1.steps both.0) }
    ensures refines { IfOk result (λ both. Refines both.0 p.now) }
{
    let mut trace = Trace::new(alloc);
    let q = copied(alloc, p)?;
    let q = split(alloc, q, &mut trace)?;
    let q = exhaust(alloc, &SelectSet, q, &mut trace)?;
    let q = exhaust(alloc, &JoinSet, q, &mut trace)?;
    let q = exhaust(alloc, &SelectSet, q, &mut trace)?;
    let q = exhaust(alloc, &OrderSet, q, &mut trace)?;
    let q = exhaust(alloc, &GroupSet, q, &mut trace)?;
    let q = exhaust(alloc, &PruneSet, q, &mut trace)?;
    let q = q.into_inner();
    Ok((q, trace))
}

/// Rewrites a plan by the sets of rules, in their order: split once, then select, join, select
/// again, order, group and prune, each until none of its rules matches. The trace has each step,
/// and the plan that is given determines it and what it leads to.
///
/// A rewritten plan may be as deep as the plan has operators and conjuncts, and the work on plans
/// takes stack for each level. So a plan with more than 1,200 of them is answered as one that
/// memory is wanted for.
pub fn optimise(alloc: Global, p: &Plan) -> Result<(Plan, Trace), NoMemory>
    requires { Fit p.now }
    ensures legal { IfOk result (λ both. LegalTrace p.now both.1.steps both.0) }
    ensures only { IfOk result (λ both. IsOnlyTrace p.now both.1.steps both.0) }
    ensures refines { IfOk result (λ both. Refines both.0 p.now) }
    ensures room { IfOk result (λ both. parts p.now ≤ 1200) }
{
    match room_beside(p, MOST_PARTS) {
        Some(_) => drive(alloc, p),
        None => Err(NoMemory),
    }
}

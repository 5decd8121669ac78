//! The controllers: a set of rules driven once, or until none of its rules matches.

ghost use Rattle.std.specs.Prelude.{◌≡◌, ◌<◌, ◌++◌, ◌∷◌, [], true, false, List as Listed, IfOk, OnOk, OnErr};
ghost use Rattle.al_plan.specs.Refines.{Fit, Replaces};
ghost use Rattle.al_rule.specs.declared.trace.TraceStep.{TraceStep};
ghost use Rattle.al_rule.specs.Places.{Applied};
ghost use Rattle.al_rule.specs.Rules.{Stuck, IsLocal};
ghost use Rattle.al_rule.specs.Driven.{Drove, reached};
ghost use Rattle.al_rule.specs.Walks.{MatchesAt, Records, StepsTo, WalkedOnce, WalkedOut};

use crate::find::{Found, find};
use crate::place::apply_at;
use crate::rule::{ApplyFault, RuleSet};
use crate::trace::{Trace, TraceStep};
use al_plan::{Place, Plan};
use al_value::{Boxed, List, NoMemory};
use std::alloc::Global;
use std::mem::replace;

/// Applies the rule that was found. After want of memory the plan is as it was.
fn rewrite<S: RuleSet>(
    alloc: Global,
    set: &S,
    plan: &mut Plan,
    found: &Found,
) -> Result<(), NoMemory>
    requires rule { found.now.rule < (S.rules_of set.now).count }
    requires place { MatchesAt ((S.rules_of set.now).rewrites found.now.rule) found.now.place.children plan.old }
    ensures ok { OnOk result (Applied ((S.rules_of set.now).rewrites found.now.rule) found.now.place.children plan.old plan.new) }
    ensures err { OnErr result (plan.new ≡ plan.old) }
{
    let spare = Boxed::new(alloc, Plan::Empty)?;
    let whole = replace(plan, Plan::Empty);
    let children = found.place.children.as_slice();
    let (outcome, spare) = apply_at(alloc, set, found.rule, whole, children, spare);
    // Calls drop the plans, since what drops in place is proved variant by variant.
    drop(spare);
    match outcome {
        Ok(next) => {
            drop(replace(plan, next));
            Ok(())
        }
        Err(ApplyFault::NoMemory(whole)) => {
            drop(replace(plan, whole));
            Err(NoMemory)
        }
    }
}

/// Writes down that the rule is applied that was found.
fn note<S: RuleSet>(alloc: Global, set: &S, t: &mut Trace, found: &Found) -> Result<(), NoMemory>
    requires { found.now.rule < (S.rules_of set.now).count }
    ensures ok { OnOk result (Records (S.rules_of set.now) found.now.rule found.now.place.children t.old t.new) }
    ensures err { OnErr result (t.new.steps ≡ t.old.steps) }
{
    let mut children = List::new(alloc);
    children.extend(found.place.children.as_slice())?;
    let step = TraceStep {
        set: set.name(),
        rule: set.rule(found.rule),
        place: Place { children },
    };
    t.steps.push(step)?;
    Ok(())
}

/// Takes out the step that was written down last.
fn forget(t: &mut Trace)
    ensures { (steps : Listed TraceStep) (last : TraceStep) → t.old.steps ≡ steps ++ last ∷ [] → t.new.steps ≡ steps }
{
    drop(t.steps.pop());
}

/// Applies the rule that was found, and writes it down. The plan and the trace change together, or
/// not at all.
fn step<S: RuleSet>(
    alloc: Global,
    set: &S,
    plan: &mut Plan,
    t: &mut Trace,
    found: &Found,
) -> Result<(), NoMemory>
    requires rule { found.now.rule < (S.rules_of set.now).count }
    requires place { MatchesAt ((S.rules_of set.now).rewrites found.now.rule) found.now.place.children plan.old }
    ensures ok { OnOk result (StepsTo (S.rules_of set.now) found.now.rule found.now.place.children plan.old t.old plan.new t.new) }
    ensures same_plan { OnErr result (plan.new ≡ plan.old) }
    ensures same_trace { OnErr result (t.new.steps ≡ t.old.steps) }
{
    note(alloc, set, t, found)?;
    match rewrite(alloc, set, plan, found) {
        Ok(()) => Ok(()),
        Err(fault) => {
            forget(t);
            Err(fault)
        }
    }
}

/// Walks the plan once, and tells whether a rule was applied.
fn walk<S: RuleSet>(
    alloc: Global,
    set: &S,
    plan: &mut Plan,
    t: &mut Trace,
) -> Result<bool, NoMemory>
    requires { Fit plan.old }
    ensures driven { Drove (S.rules_of set.now) plan.old t.old t.new plan.new }
    ensures fit { Fit plan.new }
    ensures walked { IfOk result (λ applied. WalkedOnce (S.rules_of set.now) plan.old t.old t.new plan.new) }
    ensures untraced { IfOk result (λ applied. applied ≡ false → t.new.steps ≡ t.old.steps) }
    ensures stuck { IsLocal (S.rules_of set.now) → IfOk result (λ applied. Stuck (S.rules_of set.now) plan.new) }
    ensures unapplied { IfOk result (λ applied. applied ≡ false → Stuck (S.rules_of set.now) plan.new) }
    ensures lighter { IfOk result (λ applied. applied ≡ true → S.weight set.now plan.new < S.weight set.now plan.old) }
{
    let mut from = List::new(alloc);
    let mut applied = false;
    while let Some(found) = find(alloc, set, plan, from.as_slice())? {
        step(alloc, set, plan, t, &found)?;
        from = found.place.children;
        applied = true;
    }
    Ok(applied)
}

/// Walks the plan once, from the root down and from the first input to the last. Where it stands it
/// applies the first rule that matches, again and again until none does, and only then goes down
/// into the inputs of the operator that the rules left there. Nested plans are left alone.
pub fn drive_once<S: RuleSet>(
    alloc: Global,
    set: &S,
    p: Plan,
    t: &mut Trace,
) -> Result<Plan, ApplyFault>
    requires { Fit p }
    ensures driven { Drove (S.rules_of set.now) p t.old t.new (reached result) }
    ensures walked { IfOk result (λ q. WalkedOnce (S.rules_of set.now) p t.old t.new q) }
    ensures replaces { Replaces (reached result) p }
    ensures stuck { IsLocal (S.rules_of set.now) → IfOk result (λ q. Stuck (S.rules_of set.now) q) }
{
    let mut plan = p;
    match walk(alloc, set, &mut plan, t) {
        Ok(_) => Ok(plan),
        Err(_) => Err(ApplyFault::NoMemory(plan)),
    }
}

/// Walks the plan until a walk applies nothing.
pub fn drive_fixpoint<S: RuleSet>(
    alloc: Global,
    set: &S,
    p: Plan,
    t: &mut Trace,
) -> Result<Plan, ApplyFault>
    requires { Fit p }
    ensures driven { Drove (S.rules_of set.now) p t.old t.new (reached result) }
    ensures walked { IfOk result (λ q. WalkedOut (S.rules_of set.now) p t.old t.new q) }
    ensures replaces { Replaces (reached result) p }
    ensures stuck { IfOk result (λ q. Stuck (S.rules_of set.now) q) }
{
    let mut plan = p;
    loop {
        match walk(alloc, set, &mut plan, t) {
            Ok(true) => {}
            Ok(false) => return Ok(plan),
            Err(_) => return Err(ApplyFault::NoMemory(plan)),
        }
    }
}

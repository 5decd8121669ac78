//! Rules that cut the input of an operator to what the operator uses.

ghost use Rattle.al_rule.specs.declared.names.RuleName.TheVariants as called;
ghost use Rattle.std.specs.Prelude.{◌≡◌, ◌++◌, IfOk, MatchOption, map};
ghost use Rattle.al_plan.specs.declared.plan.Plan.TheVariants as P;
ghost use Rattle.al_rules_prune.specs.Prunes as meaning;
ghost use Rattle.al_rules_prune.specs.Prunes.{IsWide, read_by, read_by_aggregates};
ghost use Rattle.al_rule.specs.Rules.{HandsBack, Matches};
ghost use Rattle.al_rules_prune.specs.Matching.{CutsSelect, CutsUnder, IsNot, IsSelectCut, Rewritten};
ghost use Rattle.al_rules_prune.specs.Sound as sound;

use crate::parts::{copy_vars, outcome, project_parts};
use crate::wanted::{
    Cut, Listed, ListedOrKeys, ListedOrRead, ReadByCalls, cut_to, is_wide, narrowed,
};
use al_plan::{AggCall, Expr, OrderKey, Plan, Var};
use al_rule::{ApplyFault, Rule, RuleName};
use al_value::{Boxed, List, NoMemory};
use std::alloc::Global;

/// Cuts a result's input to what the result lists.
pub struct ResultProject;

/// The parts of a result with an input that has more variables.
#[tactic(auto, using(crate::proofs::MatchLaws::other_result, crate::proofs::MatchLaws::narrow_result))]
fn wide_result(p: &Plan) -> Option<(&List<Var>, &Plan)>
    ensures { MatchOption result (IsNot meaning.ResultProject p.now) (λ s. (p.now ≡ P.Result s.0.now s.1.now) × IsWide s.0.now s.1.now) }
{
    match p {
        Plan::Result { vars, input } => {
            let wanted = Listed {
                vars: vars.as_slice(),
            };
            if is_wide(&wanted, input.get()) {
                Some((vars, input.get()))
            } else {
                None
            }
        }
        _ => None,
    }
}

fn cut_result(alloc: Global, p: &Plan) -> Result<Option<Plan>, NoMemory>
    ensures { IfOk result (Rewritten meaning.ResultProject p.now) }
{
    let Some((vars, below)) = wide_result(p) else {
        return Ok(None);
    };
    let wanted = Listed {
        vars: vars.as_slice(),
    };
    let input = narrowed(alloc, &wanted, below)?;
    let vars = copy_vars(alloc, vars.as_slice())?;
    Ok(Some(Plan::Result { vars, input }))
}

impl Rule for ResultProject {
    ghost rewrites = { λ _. meaning.ResultProject };

    ghost called = { λ _. called.ResultProject };

    ghost sound = { λ _. sound.result_project };

    fn name(&self) -> RuleName {
        RuleName::ResultProject
    }

    fn matches(&self, p: &Plan) -> bool {
        match wide_result(p) {
            Some(_) => true,
            None => false,
        }
    }

    fn apply(&self, alloc: Global, p: Plan) -> Result<Plan, ApplyFault> {
        let made = cut_result(alloc, &p);
        outcome(p, made)
    }
}

/// Cuts a select's input to what the project above lists and the condition reads.
pub struct ProjectBelowSelect;

/// A project over a select.
#[derive(Drop)]
struct OverSelect<'a> {
    vars: &'a List<Var>,
    cond: &'a Expr,
    input: &'a Plan,
}

/// The parts of a project over a select whose input has more variables than they use.
#[tactic(auto, using(crate::proofs::MatchLaws::none_select, crate::proofs::MatchLaws::other_select, crate::proofs::MatchLaws::narrow_select))]
fn wide_select(p: &Plan) -> Option<OverSelect<'_>>
    ensures { MatchOption result (IsNot meaning.ProjectBelowSelect p.now) (λ s. (p.now ≡ P.Project s.vars.now (P.Select s.cond.now s.input.now)) × IsWide (s.vars.now ++ read_by s.cond.now) s.input.now) }
{
    let Some((vars, over)) = project_parts(p) else {
        return None;
    };
    match over {
        Plan::Select { cond, input } => {
            let wanted = ListedOrRead {
                vars: vars.as_slice(),
                cond,
            };
            if is_wide(&wanted, input.get()) {
                Some(OverSelect {
                    vars,
                    cond,
                    input: input.get(),
                })
            } else {
                None
            }
        }
        _ => None,
    }
}

/// What the input of a select is cut to, where it is wider, and a box for one project more.
#[tactic(auto, using(crate::proofs::MatchLaws::is_cut))]
fn select_cut(alloc: Global, p: &Plan) -> Result<Option<Cut>, NoMemory>
    ensures { IfOk result (λ found. MatchOption found (IsNot meaning.ProjectBelowSelect p.now) (λ c. IsSelectCut p.now c.vars)) }
{
    let Some(found) = wide_select(p) else {
        return Ok(None);
    };
    let wanted = ListedOrRead {
        vars: found.vars.as_slice(),
        cond: found.cond,
    };
    Ok(Some(cut_to(alloc, &wanted, found.input)?))
}

/// A select with a project over its input. All boxes stay.
#[tactic(auto, using(crate::proofs::MatchLaws::cuts_select))]
fn cut_below(over: Boxed<Plan>, cut: Cut) -> Boxed<Plan>
    ensures { CutsSelect cut.vars over result }
{
    let Cut { vars, spare } = cut;
    let mut over = over;
    let mut inner = spare;
    match over.replace(Plan::Empty) {
        Plan::Select { cond, input } => {
            // Calls drop the plans, since what drops in place is proved variant by variant.
            drop(inner.replace(Plan::Project { vars, input }));
            drop(over.replace(Plan::Select { cond, input: inner }));
            over
        }
        other => {
            drop(over.replace(other));
            over
        }
    }
}

/// A project over a select, with a project more over the select's input.
#[tactic(auto, using(crate::proofs::MatchLaws::cuts_under))]
fn cut_select(p: Plan, cut: Cut) -> Plan
    ensures { CutsUnder cut.vars p result }
{
    match p {
        Plan::Project { vars, input } => Plan::Project {
            vars,
            input: cut_below(input, cut),
        },
        other => other,
    }
}

fn cut(alloc: Global, p: Plan) -> Result<Plan, ApplyFault>
    ensures applied { Matches meaning.ProjectBelowSelect p → IfOk result (λ q. meaning.ProjectBelowSelect p q) }
    ensures handed_back { HandsBack p result }
{
    let found = select_cut(alloc, &p);
    match found {
        Ok(Some(cut)) => Ok(cut_select(p, cut)),
        Ok(None) => Ok(p),
        Err(_) => Err(ApplyFault::NoMemory(p)),
    }
}

impl Rule for ProjectBelowSelect {
    ghost rewrites = { λ _. meaning.ProjectBelowSelect };

    ghost called = { λ _. called.ProjectBelowSelect };

    ghost sound = { λ _. sound.project_below_select };

    fn name(&self) -> RuleName {
        RuleName::ProjectBelowSelect
    }

    fn matches(&self, p: &Plan) -> bool {
        match wide_select(p) {
            Some(_) => true,
            None => false,
        }
    }

    fn apply(&self, alloc: Global, p: Plan) -> Result<Plan, ApplyFault> {
        cut(alloc, p)
    }
}

/// Cuts an order's input to what the project above lists and the keys name.
pub struct ProjectBelowOrder;

/// A project over an order.
#[derive(Drop)]
struct OverOrder<'a> {
    vars: &'a List<Var>,
    keys: &'a List<OrderKey>,
    input: &'a Plan,
}

/// The parts of a project over an order whose input has more variables than they use.
fn wide_order(p: &Plan) -> Option<OverOrder<'_>>
    ensures { MatchOption result (IsNot meaning.ProjectBelowOrder p.now) (λ s. (p.now ≡ P.Project s.vars.now (P.Order s.keys.now s.input.now)) × IsWide (s.vars.now ++ map (λ k. k.var) s.keys.now) s.input.now) }
{
    let Some((vars, over)) = project_parts(p) else {
        return None;
    };
    match over {
        Plan::Order { keys, input } => {
            let wanted = ListedOrKeys {
                vars: vars.as_slice(),
                keys: keys.as_slice(),
            };
            if is_wide(&wanted, input.get()) {
                Some(OverOrder {
                    vars,
                    keys,
                    input: input.get(),
                })
            } else {
                None
            }
        }
        _ => None,
    }
}

fn copy_keys(alloc: Global, keys: &[OrderKey]) -> Result<List<OrderKey>, NoMemory>
    ensures { IfOk result (λ copies. copies ≡ keys.now) }
{
    let mut copies = List::new(alloc);
    for k in keys {
        copies.push(k.copy(alloc)?)?;
    }
    Ok(copies)
}

fn cut_order(alloc: Global, p: &Plan) -> Result<Option<Plan>, NoMemory>
    ensures { IfOk result (Rewritten meaning.ProjectBelowOrder p.now) }
{
    let Some(found) = wide_order(p) else {
        return Ok(None);
    };
    let wanted = ListedOrKeys {
        vars: found.vars.as_slice(),
        keys: found.keys.as_slice(),
    };
    let input = narrowed(alloc, &wanted, found.input)?;
    let keys = copy_keys(alloc, found.keys.as_slice())?;
    let input = Boxed::new(alloc, Plan::Order { keys, input })?;
    let vars = copy_vars(alloc, found.vars.as_slice())?;
    Ok(Some(Plan::Project { vars, input }))
}

impl Rule for ProjectBelowOrder {
    ghost rewrites = { λ _. meaning.ProjectBelowOrder };

    ghost called = { λ _. called.ProjectBelowOrder };

    ghost sound = { λ _. sound.project_below_order };

    fn name(&self) -> RuleName {
        RuleName::ProjectBelowOrder
    }

    fn matches(&self, p: &Plan) -> bool {
        match wide_order(p) {
            Some(_) => true,
            None => false,
        }
    }

    fn apply(&self, alloc: Global, p: Plan) -> Result<Plan, ApplyFault> {
        let made = cut_order(alloc, &p);
        outcome(p, made)
    }
}

/// Cuts an aggregate's input to what its calls read.
pub struct AggregateProjectInput;

/// The parts of an aggregate whose input has more variables than the calls read.
#[tactic(auto, using(crate::proofs::MatchLaws::other_aggregate, crate::proofs::MatchLaws::narrow_aggregate))]
fn wide_aggregate(p: &Plan) -> Option<(&List<(Var, AggCall)>, &Plan)>
    ensures { MatchOption result (IsNot meaning.AggregateProjectInput p.now) (λ s. (p.now ≡ P.Aggregate s.0.now s.1.now) × IsWide (read_by_aggregates s.0.now) s.1.now) }
{
    match p {
        Plan::Aggregate { made, input } => {
            let wanted = ReadByCalls {
                made: made.as_slice(),
            };
            if is_wide(&wanted, input.get()) {
                Some((made, input.get()))
            } else {
                None
            }
        }
        _ => None,
    }
}

fn copy_calls(alloc: Global, made: &[(Var, AggCall)]) -> Result<List<(Var, AggCall)>, NoMemory>
    ensures { IfOk result (λ copies. copies ≡ made.now) }
{
    let mut copies = List::new(alloc);
    for (v, call) in made {
        copies.push((v.copy(alloc)?, call.copy(alloc)?))?;
    }
    Ok(copies)
}

fn cut_aggregate(alloc: Global, p: &Plan) -> Result<Option<Plan>, NoMemory>
    ensures { IfOk result (Rewritten meaning.AggregateProjectInput p.now) }
{
    let Some((calls, below)) = wide_aggregate(p) else {
        return Ok(None);
    };
    let wanted = ReadByCalls {
        made: calls.as_slice(),
    };
    let input = narrowed(alloc, &wanted, below)?;
    let made = copy_calls(alloc, calls.as_slice())?;
    Ok(Some(Plan::Aggregate { made, input }))
}

impl Rule for AggregateProjectInput {
    ghost rewrites = { λ _. meaning.AggregateProjectInput };

    ghost called = { λ _. called.AggregateProjectInput };

    ghost sound = { λ _. sound.aggregate_project_input };

    fn name(&self) -> RuleName {
        RuleName::AggregateProjectInput
    }

    fn matches(&self, p: &Plan) -> bool {
        match wide_aggregate(p) {
            Some(_) => true,
            None => false,
        }
    }

    fn apply(&self, alloc: Global, p: Plan) -> Result<Plan, ApplyFault> {
        let made = cut_aggregate(alloc, &p);
        outcome(p, made)
    }
}

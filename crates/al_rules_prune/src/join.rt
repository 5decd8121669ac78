//! The rule that cuts the inputs of joins below a project.

ghost use Rattle.al_rule.specs.declared.names.RuleName.TheVariants as called;
ghost use Rattle.std.specs.Prelude.{◌≡◌, ◌++◌, IfOk, MatchOption};
ghost use Rattle.al_plan.specs.declared.plan.Plan.TheVariants as P;
ghost use Rattle.al_rules_prune.specs.Prunes as meaning;
ghost use Rattle.al_rules_prune.specs.Prunes.{joined, read_by};
ghost use Rattle.al_rules_prune.specs.Matching.{IsNot, IsNoJoined, IsNarrow, IsWideOn, Rewritten, left_cut, right_cut};
ghost use Rattle.al_rules_prune.specs.Sound as sound;

use crate::parts::{copy_vars, outcome, project_parts};
use crate::wanted::{ListedOrRead, copied, is_wide, narrowed};
use al_plan::{Expr, Plan, Var};
use al_rule::{ApplyFault, Rule, RuleName};
use al_value::{Boxed, List, NoMemory};
use std::alloc::Global;

/// Cuts an input of a join or a left join to what the project above lists and the condition
/// reads: the left one where it has more variables, else the right one.
pub struct ProjectBelowJoin;

/// A join, or a left join.
#[derive(Drop)]
struct Sides<'a> {
    outer: bool,
    cond: &'a Expr,
    left: &'a Plan,
    right: &'a Plan,
}

#[tactic(auto, using(crate::proofs::MatchLaws::none_joined))]
fn join_sides(p: &Plan) -> Option<Sides<'_>>
    ensures { MatchOption result (IsNoJoined p.now) (λ s. p.now ≡ joined s.outer s.cond.now s.left.now s.right.now) }
{
    match p {
        Plan::Join { cond, left, right } => Some(Sides {
            outer: false,
            cond,
            left: left.get(),
            right: right.get(),
        }),
        Plan::LeftJoin { cond, left, right } => Some(Sides {
            outer: true,
            cond,
            left: left.get(),
            right: right.get(),
        }),
        _ => None,
    }
}

/// Which input of a join has other variables than these, and is cut.
fn wide_side(vars: &[Var], join: &Sides<'_>) -> Option<bool>
    ensures { MatchOption result (IsNarrow (vars.now ++ read_by join.now.cond.now) join.now.left.now join.now.right.now) (λ on_left. IsWideOn on_left (vars.now ++ read_by join.now.cond.now) join.now.left.now join.now.right.now) }
{
    let wanted = ListedOrRead {
        vars,
        cond: join.cond,
    };
    if is_wide(&wanted, join.left) {
        Some(true)
    } else if is_wide(&wanted, join.right) {
        Some(false)
    } else {
        None
    }
}

/// A project over a join, and whether the join's left input is the one that is cut.
#[derive(Drop)]
struct OverJoin<'a> {
    vars: &'a List<Var>,
    join: Sides<'a>,
    on_left: bool,
}

fn wide_join(p: &Plan) -> Option<OverJoin<'_>>
    ensures { MatchOption result (IsNot meaning.ProjectBelowJoin p.now) (λ s. (p.now ≡ P.Project s.vars.now (joined s.join.outer s.join.cond.now s.join.left.now s.join.right.now)) × IsWideOn s.on_left (s.vars.now ++ read_by s.join.cond.now) s.join.left.now s.join.right.now) }
{
    let Some((vars, over)) = project_parts(p) else {
        return None;
    };
    let Some(join) = join_sides(over) else {
        return None;
    };
    let Some(on_left) = wide_side(vars.as_slice(), &join) else {
        return None;
    };
    Some(OverJoin {
        vars,
        join,
        on_left,
    })
}

/// A join, or a left join, over these inputs.
fn join_of(outer: bool, cond: Expr, left: Boxed<Plan>, right: Boxed<Plan>) -> Plan
    ensures { result ≡ joined outer cond left right }
{
    if outer {
        Plan::LeftJoin { cond, left, right }
    } else {
        Plan::Join { cond, left, right }
    }
}

fn join_over(
    alloc: Global,
    join: &Sides<'_>,
    left: Boxed<Plan>,
    right: Boxed<Plan>,
) -> Result<Boxed<Plan>, NoMemory>
    ensures { IfOk result (λ q. q ≡ joined join.now.outer join.now.cond.now left right) }
{
    let cond = join.cond.copy(alloc)?;
    Boxed::new(alloc, join_of(join.outer, cond, left, right))
}

/// The join over its inputs, of which one is cut.
fn cut_side(
    alloc: Global,
    vars: &[Var],
    join: &Sides<'_>,
    on_left: bool,
) -> Result<Boxed<Plan>, NoMemory>
    ensures { IfOk result (λ q. q ≡ joined join.now.outer join.now.cond.now (left_cut on_left (vars.now ++ read_by join.now.cond.now) join.now.left.now) (right_cut on_left (vars.now ++ read_by join.now.cond.now) join.now.right.now)) }
{
    let wanted = ListedOrRead {
        vars,
        cond: join.cond,
    };
    if on_left {
        let left = narrowed(alloc, &wanted, join.left)?;
        let right = copied(alloc, join.right)?;
        return join_over(alloc, join, left, right);
    }
    let left = copied(alloc, join.left)?;
    let right = narrowed(alloc, &wanted, join.right)?;
    join_over(alloc, join, left, right)
}

#[tactic(auto, using(crate::proofs::MatchLaws::rewritten_join))]
fn cut_join(alloc: Global, p: &Plan) -> Result<Option<Plan>, NoMemory>
    ensures { IfOk result (Rewritten meaning.ProjectBelowJoin p.now) }
{
    let Some(found) = wide_join(p) else {
        return Ok(None);
    };
    let input = cut_side(alloc, found.vars.as_slice(), &found.join, found.on_left)?;
    let vars = copy_vars(alloc, found.vars.as_slice())?;
    Ok(Some(Plan::Project { vars, input }))
}

impl Rule for ProjectBelowJoin {
    ghost rewrites = { λ _. meaning.ProjectBelowJoin };

    ghost called = { λ _. called.ProjectBelowJoin };

    ghost sound = { λ _. sound.project_below_join };

    fn name(&self) -> RuleName {
        RuleName::ProjectBelowJoin
    }

    fn matches(&self, p: &Plan) -> bool {
        match wide_join(p) {
            Some(_) => true,
            None => false,
        }
    }

    fn apply(&self, alloc: Global, p: Plan) -> Result<Plan, ApplyFault> {
        let made = cut_join(alloc, &p);
        outcome(p, made)
    }
}

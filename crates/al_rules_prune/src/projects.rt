//! Rules that drop projects, and bindings that nobody uses.

ghost use Rattle.al_rule.specs.declared.names.RuleName.TheVariants as called;
ghost use Rattle.std.specs.Prelude.{◌≡◌, [], false, IfOk, List, MatchOption, filter, map};
ghost use Rattle.al_plan.specs.declared.plan.Plan.TheVariants as P;
ghost use Rattle.al_plan.specs.Allows.{is_among, live};
ghost use Rattle.al_rule.specs.Rules.{Decides};
ghost use Rattle.al_rules_prune.specs.Prunes as meaning;
ghost use Rattle.al_rules_prune.specs.Prunes.{HaveSame, all_among, assigned_over, bindings};
ghost use Rattle.al_rules_prune.specs.Matching.{IsNot, Merges, Rewritten, Uncovers};
ghost use Rattle.al_rules_prune.specs.Sound as sound;

use crate::parts::{copy_vars, outcome, project_parts};
use crate::wanted::{Listed, Wanted, all_made, copied, is_wide};
use al_plan::{Expr, Plan, Var};
use al_rule::{ApplyFault, Rule, RuleName, is_live};
use al_value::{Boxed, List, NoMemory};
use std::alloc::Global;

/// Drops a project below a project.
pub struct ProjectOverProject;

/// A project over a project.
#[derive(Drop)]
struct OverProject<'a> {
    vars: &'a List<Var>,
    inner: &'a List<Var>,
    input: &'a Plan,
}

fn over_project(p: &Plan) -> Option<OverProject<'_>>
    ensures { MatchOption result (IsNot meaning.ProjectOverProject p.now) (λ s. p.now ≡ P.Project s.vars.now (P.Project s.inner.now s.input.now)) }
{
    let Some((vars, over)) = project_parts(p) else {
        return None;
    };
    let Some((inner, input)) = project_parts(over) else {
        return None;
    };
    Some(OverProject { vars, inner, input })
}

/// The input of a project, in the project's box or its own.
#[tactic(auto, using(crate::proofs::MatchLaws::bare_input))]
fn bare(over: Boxed<Plan>) -> Boxed<Plan>
    ensures { Uncovers over result }
{
    let mut over = over;
    match over.replace(Plan::Empty) {
        Plan::Project { vars, input } => {
            drop(vars);
            drop(over);
            input
        }
        other => {
            // A call, since what drops in place is proved variant by variant.
            drop(over.replace(other));
            over
        }
    }
}

/// A project without the project below it.
#[tactic(auto, using(crate::proofs::MatchLaws::merges_bare))]
fn one_project(p: Plan) -> Plan
    ensures { Merges p result }
{
    match p {
        Plan::Project { vars, input } => Plan::Project {
            vars,
            input: bare(input),
        },
        other => other,
    }
}

impl Rule for ProjectOverProject {
    ghost rewrites = { λ _. meaning.ProjectOverProject };

    ghost called = { λ _. called.ProjectOverProject };

    ghost sound = { λ _. sound.project_over_project };

    fn name(&self) -> RuleName {
        RuleName::ProjectOverProject
    }

    fn matches(&self, p: &Plan) -> bool {
        match over_project(p) {
            Some(_) => true,
            None => false,
        }
    }

    fn apply(&self, _alloc: Global, p: Plan) -> Result<Plan, ApplyFault> {
        Ok(one_project(p))
    }
}

/// Drops a project of all live variables.
pub struct ProjectAll;

fn all_live(vars: &[Var], p: &Plan) -> bool
    ensures { result ≡ all_among (live p.now []) vars.now }
{
    vars.iter().all(|v| is_live(v, p))
}

/// Whether the live variables of a plan are these.
#[tactic(auto, using(crate::proofs::MatchLaws::decides_same))]
fn has_same(vars: &[Var], p: &Plan) -> bool
    ensures { Decides result (HaveSame vars.now (live p.now [])) }
{
    let inside = all_live(vars, p);
    let wide = is_wide(&Listed { vars }, p);
    inside && !wide
}

fn of_all(p: &Plan) -> Option<(&List<Var>, &Plan)>
    ensures { MatchOption result (IsNot meaning.ProjectAll p.now) (λ s. (p.now ≡ P.Project s.0.now s.1.now) × HaveSame s.0.now (live s.1.now [])) }
{
    let Some((vars, input)) = project_parts(p) else {
        return None;
    };
    if has_same(vars.as_slice(), input) {
        Some((vars, input))
    } else {
        None
    }
}

fn no_project(p: Plan) -> Plan
    ensures { Uncovers p result }
{
    match p {
        Plan::Project { vars, input } => {
            drop(vars);
            input.into_inner()
        }
        other => other,
    }
}

impl Rule for ProjectAll {
    ghost rewrites = { λ _. meaning.ProjectAll };

    ghost called = { λ _. called.ProjectAll };

    ghost sound = { λ _. sound.project_all };

    fn name(&self) -> RuleName {
        RuleName::ProjectAll
    }

    fn matches(&self, p: &Plan) -> bool {
        match of_all(p) {
            Some(_) => true,
            None => false,
        }
    }

    fn apply(&self, _alloc: Global, p: Plan) -> Result<Plan, ApplyFault> {
        Ok(no_project(p))
    }
}

/// Drops the bindings of an assign that the project above doesn't list.
pub struct AssignUnderProject;

/// A project over an assign.
#[derive(Drop)]
struct OverAssign<'a> {
    vars: &'a List<Var>,
    made: &'a List<(Var, Expr)>,
    input: &'a Plan,
}

fn over_assign(p: &Plan) -> Option<OverAssign<'_>>
    ensures { MatchOption result (IsNot meaning.AssignUnderProject p.now) (λ s. (p.now ≡ P.Project s.vars.now (P.Assign s.made.now s.input.now)) × (all_among s.vars.now (map (λ m. m.0) s.made.now) ≡ false)) }
{
    let Some((vars, over)) = project_parts(p) else {
        return None;
    };
    match over {
        Plan::Assign { made, input } => {
            let wanted = Listed {
                vars: vars.as_slice(),
            };
            if all_made(&wanted, made.as_slice()) {
                None
            } else {
                Some(OverAssign {
                    vars,
                    made,
                    input: input.get(),
                })
            }
        }
        _ => None,
    }
}

/// The bindings of wanted variables.
fn kept_bindings<W: Wanted>(
    alloc: Global,
    wanted: &W,
    made: &[(Var, Expr)],
) -> Result<List<(Var, Expr)>, NoMemory>
    ensures { IfOk result (λ some. some ≡ bindings (W.vars_of wanted.now) made.now) }
{
    let mut some = List::new(alloc);
    for m in made {
        if wanted.has(&m.0) {
            some.push((m.0.copy(alloc)?, m.1.copy(alloc)?))?;
        }
    }
    Ok(some)
}

/// A copy of a plan under an assign, or alone where nothing is assigned.
#[tactic(auto, using(crate::proofs::MatchLaws::assigned_none, crate::proofs::MatchLaws::assigned_some))]
fn assigned(alloc: Global, made: List<(Var, Expr)>, p: &Plan) -> Result<Boxed<Plan>, NoMemory>
    ensures { IfOk result (λ b. b ≡ assigned_over made p.now) }
{
    let input = copied(alloc, p)?;
    if made.is_empty() {
        return Ok(input);
    }
    Boxed::new(alloc, Plan::Assign { made, input })
}

fn fewer_bindings(alloc: Global, p: &Plan) -> Result<Option<Plan>, NoMemory>
    ensures { IfOk result (Rewritten meaning.AssignUnderProject p.now) }
{
    let Some(found) = over_assign(p) else {
        return Ok(None);
    };
    let wanted = Listed {
        vars: found.vars.as_slice(),
    };
    let made = kept_bindings(alloc, &wanted, found.made.as_slice())?;
    let input = assigned(alloc, made, found.input)?;
    let vars = copy_vars(alloc, found.vars.as_slice())?;
    Ok(Some(Plan::Project { vars, input }))
}

impl Rule for AssignUnderProject {
    ghost rewrites = { λ _. meaning.AssignUnderProject };

    ghost called = { λ _. called.AssignUnderProject };

    ghost sound = { λ _. sound.assign_under_project };

    fn name(&self) -> RuleName {
        RuleName::AssignUnderProject
    }

    fn matches(&self, p: &Plan) -> bool {
        match over_assign(p) {
            Some(_) => true,
            None => false,
        }
    }

    fn apply(&self, alloc: Global, p: Plan) -> Result<Plan, ApplyFault> {
        let made = fewer_bindings(alloc, &p);
        outcome(p, made)
    }
}

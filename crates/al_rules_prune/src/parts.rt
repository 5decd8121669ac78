//! What the rules share: projects by their parts, copies, and what is made of a plan.

ghost use Rattle.std.specs.Prelude.{◌≡◌, IfOk, MatchOption};
ghost use Rattle.al_plan.specs.declared.plan.Plan.TheVariants as P;
ghost use Rattle.al_rules_prune.specs.Matching as meaning;
ghost use Rattle.al_rules_prune.specs.Matching.{IsNoProject};

use al_plan::{Plan, Var};
use al_rule::ApplyFault;
use al_value::{List, NoMemory};
use std::alloc::Global;

/// The variables and the input of a project.
pub fn project_parts(p: &Plan) -> Option<(&List<Var>, &Plan)>
    ensures { MatchOption result (IsNoProject p.now) (λ s. p.now ≡ P.Project s.0.now s.1.now) }
{
    match p {
        Plan::Project { vars, input } => Some((vars, input.get())),
        _ => None,
    }
}

pub fn copy_vars(alloc: Global, vars: &[Var]) -> Result<List<Var>, NoMemory>
    ensures { IfOk result (λ copies. copies ≡ vars.now) }
{
    let mut copies = List::new(alloc);
    for v in vars {
        copies.push(v.copy(alloc)?)?;
    }
    Ok(copies)
}

/// What was made of a plan. Where nothing was made it is the plan itself, and where memory ran
/// out it is handed back.
pub fn outcome(p: Plan, made: Result<Option<Plan>, NoMemory>) -> Result<Plan, ApplyFault>
    ensures { result ≡ meaning.outcome p made }
{
    match made {
        Ok(Some(q)) => {
            // A call, since what drops in place is proved variant by variant.
            drop(p);
            Ok(q)
        }
        Ok(None) => Ok(p),
        Err(_) => Err(ApplyFault::NoMemory(p)),
    }
}

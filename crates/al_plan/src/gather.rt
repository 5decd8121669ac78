//! The variables that an expression reads.

ghost use Rattle.std.specs.Prelude.{◌≡◌, IfOk};
ghost use Rattle.al_plan.specs.Names.{names};
ghost use Rattle.al_plan.specs.Uses as meaning;
ghost use Rattle.std.specs.List.{flat_map};
ghost use Rattle.al_plan.specs.Allows.{is_among};
ghost use Rattle.al_plan.specs.Uses.{with_name, with_names};

use crate::expr::{Expr, Var};
use al_value::{List, NoMemory};
use std::alloc::Global;

/// The variables of an expression, each once, in the order in which they first stand in it.
#[tactic(auto, using(crate::proofs::UsesLaws::gathered_all))]
pub fn uses(alloc: Global, e: &Expr) -> Result<List<Var>, NoMemory>
    ensures { IfOk result (λ vars. vars ≡ meaning.uses e.now) }
{
    with_uses(alloc, List::new(alloc), e)
}

fn is_in(vars: &[Var], v: &Var) -> bool
    ensures { result ≡ is_among vars.now v.now.name }
{
    vars.iter().any(|other| other.name == v.name)
}

#[tactic(auto, unfolding(crate::specs::Uses::with_name))]
fn with_var(alloc: Global, vars: List<Var>, v: &Var) -> Result<List<Var>, NoMemory>
    ensures { IfOk result (λ more. more ≡ with_name vars v.now.name) }
{
    if is_in(vars.as_slice(), v) {
        return Ok(vars);
    }
    let mut more = vars;
    more.push(v.copy(alloc)?)?;
    Ok(more)
}

#[cycle(with_uses)]
fn with_args(alloc: Global, vars: List<Var>, args: &[Expr]) -> Result<List<Var>, NoMemory>
    ensures { IfOk result (λ more. more ≡ with_names vars (flat_map names args.now)) }
{
    let mut more = vars;
    for e in args {
        more = with_uses(alloc, more, e)?;
    }
    Ok(more)
}

#[cycle(with_uses)]
#[tactic(auto, using(crate::proofs::UsesLaws::gather_laws))]
fn with_uses(alloc: Global, vars: List<Var>, e: &Expr) -> Result<List<Var>, NoMemory>
    ensures { IfOk result (λ more. more ≡ with_names vars (names e.now)) }
{
    match e {
        Expr::Var(v) => with_var(alloc, vars, v),
        Expr::Lit(_) => Ok(vars),
        Expr::Call(_, args) => with_args(alloc, vars, args.as_slice()),
    }
}

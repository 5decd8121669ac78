//! Lists of variables and of what stands with them.

ghost use Rattle.std.specs.Prelude.{◌≡◌, IfOk};
ghost use Rattle.al_plan.specs.Accept.{are_among};
ghost use Rattle.al_plan.specs.Allows.{is_among};
ghost use Rattle.al_phys.specs.Properties.{old_of};

use al_plan::{AggCall, Expr, OrderKey, Var};
use al_value::{List, NoMemory};
use std::alloc::Global;

pub fn is_in(vars: &[Var], v: &Var) -> bool
    ensures { result ≡ is_among vars.now v.now.name }
{
    vars.iter().any(|other| other.name == v.name)
}

/// Whether all of the second variables are among the first ones.
pub fn are_in(vars: &[Var], others: &[Var]) -> bool
    ensures { result ≡ are_among vars.now others.now }
{
    others.iter().all(|v| is_in(vars, v))
}

pub fn copy_vars(alloc: Global, vars: &[Var]) -> Result<List<Var>, NoMemory>
    ensures { IfOk result (λ copies. copies ≡ vars.now) }
{
    let mut copies = List::new(alloc);
    for v in vars {
        copies.push(v.copy(alloc)?)?;
    }
    Ok(copies)
}

pub fn copy_assigned(alloc: Global, made: &[(Var, Expr)]) -> Result<List<(Var, Expr)>, NoMemory>
    ensures { IfOk result (λ copies. copies ≡ made.now) }
{
    let mut copies = List::new(alloc);
    for (v, e) in made {
        copies.push((v.copy(alloc)?, e.copy(alloc)?))?;
    }
    Ok(copies)
}

pub fn copy_aggregated(
    alloc: Global,
    made: &[(Var, AggCall)],
) -> Result<List<(Var, AggCall)>, NoMemory>
    ensures { IfOk result (λ copies. copies ≡ made.now) }
{
    let mut copies = List::new(alloc);
    for (v, call) in made {
        copies.push((v.copy(alloc)?, call.copy(alloc)?))?;
    }
    Ok(copies)
}

pub fn copy_keys(alloc: Global, keys: &[(Var, Var)]) -> Result<List<(Var, Var)>, NoMemory>
    ensures { IfOk result (λ copies. copies ≡ keys.now) }
{
    let mut copies = List::new(alloc);
    for (new, old) in keys {
        copies.push((new.copy(alloc)?, old.copy(alloc)?))?;
    }
    Ok(copies)
}

pub fn copy_order(alloc: Global, keys: &[OrderKey]) -> Result<List<OrderKey>, NoMemory>
    ensures { IfOk result (λ copies. copies ≡ keys.now) }
{
    let mut copies = List::new(alloc);
    for key in keys {
        copies.push(key.copy(alloc)?)?;
    }
    Ok(copies)
}

/// Copies of the second parts of the pairs.
pub fn olds_of(alloc: Global, keys: &[(Var, Var)]) -> Result<List<Var>, NoMemory>
    ensures { IfOk result (λ olds. olds ≡ old_of keys.now) }
{
    let mut olds = List::new(alloc);
    for (_, old) in keys {
        olds.push(old.copy(alloc)?)?;
    }
    Ok(olds)
}

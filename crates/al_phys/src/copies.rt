//! Lists of variables and of order keys.

ghost use Rattle.std.specs.Prelude.{◌≡◌, ◌++◌, IfOk, map};
ghost use Rattle.al_plan.specs.Accept.{are_among};
ghost use Rattle.al_plan.specs.Allows.{is_among};
ghost use Rattle.al_phys.specs.Properties as spec;

use al_plan::{OrderKey, Var};
use al_value::{List, NoMemory};
use std::alloc::Global;

pub fn is_in(vars: &[Var], v: &Var) -> bool
    ensures { result ≡ is_among vars.now v.now.name }
{
    vars.iter().any(|other| other.name == v.name)
}

/// Whether all of the second variables are among the first ones.
pub fn are_in(vars: &[Var], others: &[Var]) -> bool
    ensures { result ≡ are_among vars.now others.now }
{
    others.iter().all(|v| is_in(vars, v))
}

pub fn copy_vars(alloc: Global, vars: &[Var]) -> Result<List<Var>, NoMemory>
    ensures { IfOk result (λ copies. copies ≡ vars.now) }
{
    let mut copies = List::new(alloc);
    for v in vars {
        copies.push(v.copy(alloc)?)?;
    }
    Ok(copies)
}

pub fn copy_order(alloc: Global, keys: &[OrderKey]) -> Result<List<OrderKey>, NoMemory>
    ensures { IfOk result (λ copies. copies ≡ keys.now) }
{
    let mut copies = List::new(alloc);
    for key in keys {
        copies.push(key.copy(alloc)?)?;
    }
    Ok(copies)
}

/// These variables, and copies of more behind them.
pub fn joined(alloc: Global, vars: List<Var>, more: &[Var]) -> Result<List<Var>, NoMemory>
    ensures { IfOk result (λ both. both ≡ vars ++ more.now) }
{
    let mut all = vars;
    for v in more {
        all.push(v.copy(alloc)?)?;
    }
    Ok(all)
}

/// These variables, and behind them copies of the first parts of the pairs.
pub fn with_made<T>(
    alloc: Global,
    vars: List<Var>,
    made: &[(Var, T)],
) -> Result<List<Var>, NoMemory>
    ensures { IfOk result (λ all. all ≡ vars ++ map (λ m. m.0) made.now) }
{
    let mut all = vars;
    for (v, _) in made {
        all.push(v.copy(alloc)?)?;
    }
    Ok(all)
}

/// Copies of the second parts of the pairs.
pub fn olds_of(alloc: Global, keys: &[(Var, Var)]) -> Result<List<Var>, NoMemory>
    ensures { IfOk result (λ olds. olds ≡ map (λ k. k.1) keys.now) }
{
    let mut olds = List::new(alloc);
    for (_, old) in keys {
        olds.push(old.copy(alloc)?)?;
    }
    Ok(olds)
}

/// The longest prefix of keys whose variables are kept.
pub fn kept_keys(alloc: Global, vars: &[Var], keys: &[OrderKey]) -> Result<List<OrderKey>, NoMemory>
    ensures { IfOk result (λ kept. kept ≡ spec.kept_keys vars.now keys.now) }
{
    let mut kept = List::new(alloc);
    for key in keys {
        if !is_in(vars, &key.var) {
            return Ok(kept);
        }
        kept.push(key.copy(alloc)?)?;
    }
    Ok(kept)
}

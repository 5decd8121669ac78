//! The equi keys of a join: the conjuncts of its condition that compare a left variable with a right one.

ghost use Rattle.std.specs.Prelude.{◌≡◌, ◌++◌, [], ◌∷◌, IfOk, map};
ghost use Rattle.std.specs.List.{flat_map, cons_option};
ghost use Rattle.std.specs.Option.{option_map};
ghost use Rattle.al_func.specs.declared.func.Func.TheVariants as F;
ghost use Rattle.al_plan.specs.declared.expr.Expr.TheOpen as L;
ghost use Rattle.al_phys.specs.Operators as meaning;
ghost use Rattle.al_phys.specs.Properties as spec;

use crate::copies::{is_in, olds_of, with_made};
use crate::live::phys_live;
use crate::phys::Phys;
use al_func::Func;
use al_plan::{Expr, Var};
use al_value::{List, NoMemory};
use std::alloc::Global;

fn variable_of(e: &Expr) -> Option<&Var>
    ensures { option_map (λ v. v.now) result ≡ spec.variable_of e.now }
{
    match e {
        Expr::Var(v) => Some(v),
        Expr::Lit(_) => None,
        Expr::Call(_, _) => None,
    }
}

/// The keys, and behind them the pair where one variable is of the left side and the other of the
/// right one.
fn with_pair(
    alloc: Global,
    keys: List<(Var, Var)>,
    ls: &[Var],
    rs: &[Var],
    x: &Var,
    y: &Var,
) -> Result<List<(Var, Var)>, NoMemory>
    ensures { IfOk result (λ all. all ≡ keys ++ cons_option (spec.sided ls.now rs.now x.now y.now) []) }
{
    let mut all = keys;
    if is_in(ls, x) && is_in(rs, y) {
        all.push((x.copy(alloc)?, y.copy(alloc)?))?;
    } else if is_in(rs, x) && is_in(ls, y) {
        all.push((y.copy(alloc)?, x.copy(alloc)?))?;
    }
    Ok(all)
}

/// The keys, and behind them the one of an equation of these arguments, if it has one.
fn with_equation(
    alloc: Global,
    keys: List<(Var, Var)>,
    ls: &[Var],
    rs: &[Var],
    args: &[Expr],
) -> Result<List<(Var, Var)>, NoMemory>
    ensures { IfOk result (λ all. all ≡ keys ++ cons_option (spec.equi_step ls.now rs.now (L.Call F.Eq args.now)) []) }
{
    if args.len() != 2 {
        return Ok(keys);
    }
    match variable_of(&args[0]) {
        Some(x) => match variable_of(&args[1]) {
            Some(y) => with_pair(alloc, keys, ls, rs, x, y),
            None => Ok(keys),
        },
        None => Ok(keys),
    }
}

#[cycle(with_keys)]
fn with_args(
    alloc: Global,
    keys: List<(Var, Var)>,
    ls: &[Var],
    rs: &[Var],
    args: &[Expr],
) -> Result<List<(Var, Var)>, NoMemory>
    ensures { IfOk result (λ all. all ≡ keys ++ flat_map (spec.equi_keys ls.now rs.now) args.now) }
{
    let mut all = keys;
    for e in args {
        all = with_keys(alloc, all, ls, rs, e)?;
    }
    Ok(all)
}

/// The keys, and behind them the equi keys of a condition.
#[cycle(with_keys)]
#[tactic(auto, using(crate::proofs::EquiLaws::equi_laws))]
fn with_keys(
    alloc: Global,
    keys: List<(Var, Var)>,
    ls: &[Var],
    rs: &[Var],
    e: &Expr,
) -> Result<List<(Var, Var)>, NoMemory>
    ensures { IfOk result (λ all. all ≡ keys ++ spec.equi_keys ls.now rs.now e.now) }
{
    match e {
        Expr::Var(_) => Ok(keys),
        Expr::Lit(_) => Ok(keys),
        Expr::Call(f, args) => match f {
            Func::And => {
                if args.len() == 2 {
                    with_args(alloc, keys, ls, rs, args.as_slice())
                } else {
                    Ok(keys)
                }
            }
            Func::Eq => with_equation(alloc, keys, ls, rs, args.as_slice()),
            _ => Ok(keys),
        },
    }
}

/// The equi keys of a join of two plans, in the order of the condition's conjuncts.
fn equi_keys(alloc: Global, l: &Phys, r: &Phys, cond: &Expr) -> Result<List<(Var, Var)>, NoMemory>
    ensures { IfOk result (λ keys. keys ≡ spec.equi_keys (meaning.phys_live l.now) (meaning.phys_live r.now) cond.now) }
{
    let left = phys_live(alloc, l)?;
    let right = phys_live(alloc, r)?;
    with_keys(
        alloc,
        List::new(alloc),
        left.as_slice(),
        right.as_slice(),
        cond,
    )
}

pub fn left_keys(alloc: Global, l: &Phys, r: &Phys, cond: &Expr) -> Result<List<Var>, NoMemory>
    ensures { IfOk result (λ keys. keys ≡ spec.left_keys l.now r.now cond.now) }
{
    let keys = equi_keys(alloc, l, r, cond)?;
    with_made(alloc, List::new(alloc), keys.as_slice())
}

pub fn right_keys(alloc: Global, l: &Phys, r: &Phys, cond: &Expr) -> Result<List<Var>, NoMemory>
    ensures { IfOk result (λ keys. keys ≡ spec.right_keys l.now r.now cond.now) }
{
    let keys = equi_keys(alloc, l, r, cond)?;
    olds_of(alloc, keys.as_slice())
}

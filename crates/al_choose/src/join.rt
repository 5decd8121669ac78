//! Joins: by the hash of their equi keys, or through all pairs.

ghost use Rattle.std.specs.Prelude.{◌≡◌, ◌++◌, [], IfOk, false, map, if◌then◌else◌};
ghost use Rattle.std.specs.List.{cons_option, filter_map};
ghost use Rattle.std.specs.Option.{option_map};
ghost use Rattle.al_func.specs.declared.func.Func.TheVariants as F;
ghost use Rattle.al_plan.specs.declared.expr.Expr.TheOpen as L;
ghost use Rattle.al_phys.specs.Gives.{is_hash};
ghost use Rattle.al_phys.specs.Operators as meaning;
ghost use Rattle.al_phys.specs.Properties as property;
ghost use Rattle.al_phys.specs.declared.phys.Phys.TheVariants as Q;
ghost use Rattle.al_phys.specs.declared.property.Need.TheVariants as N;
ghost use Rattle.al_choose.specs.Chosen as spec;

use crate::copies::{is_in, olds_of};
use crate::exchange::served;
use al_conj::conjuncts;
use al_func::Func;
use al_phys::{JoinForm, Need, Phys, phys_live};
use al_plan::{Expr, Var};
use al_value::{Boxed, List, NoMemory};
use std::alloc::Global;

#[tactic(auto, using(crate::proofs::EquiKeys::variable_laws))]
fn variable_of(e: &Expr) -> Option<&Var>
    ensures { option_map (λ v. v.now) result ≡ property.variable_of e.now }
{
    match e {
        Expr::Var(v) => Some(v),
        Expr::Lit(_) => None,
        Expr::Call(_, _) => None,
    }
}

/// The keys, and behind them the pair where one variable is of the left side and the other of the
/// right one.
fn with_pair(
    alloc: Global,
    keys: List<(Var, Var)>,
    ls: &[Var],
    rs: &[Var],
    x: &Var,
    y: &Var,
) -> Result<List<(Var, Var)>, NoMemory>
    ensures { IfOk result (λ all. all ≡ keys ++ cons_option (property.sided ls.now rs.now x.now y.now) []) }
{
    let mut all = keys;
    if is_in(ls, x) && is_in(rs, y) {
        all.push((x.copy(alloc)?, y.copy(alloc)?))?;
    } else if is_in(rs, x) && is_in(ls, y) {
        all.push((y.copy(alloc)?, x.copy(alloc)?))?;
    }
    Ok(all)
}

/// The keys, and behind them the one of an equation of these arguments, if it has one.
fn with_equation(
    alloc: Global,
    keys: List<(Var, Var)>,
    ls: &[Var],
    rs: &[Var],
    args: &[Expr],
) -> Result<List<(Var, Var)>, NoMemory>
    ensures { IfOk result (λ all. all ≡ keys ++ cons_option (property.equi_step ls.now rs.now (L.Call F.Eq args.now)) []) }
{
    if args.len() != 2 {
        return Ok(keys);
    }
    match variable_of(&args[0]) {
        Some(x) => match variable_of(&args[1]) {
            Some(y) => with_pair(alloc, keys, ls, rs, x, y),
            None => Ok(keys),
        },
        None => Ok(keys),
    }
}

/// The keys, and behind them the one of a conjunct, if it has one.
#[tactic(auto, using(crate::proofs::EquiKeys::key_laws))]
fn with_key(
    alloc: Global,
    keys: List<(Var, Var)>,
    ls: &[Var],
    rs: &[Var],
    e: &Expr,
) -> Result<List<(Var, Var)>, NoMemory>
    ensures { IfOk result (λ all. all ≡ keys ++ cons_option (property.equi_key ls.now rs.now e.now) []) }
{
    match e {
        Expr::Var(_) => Ok(keys),
        Expr::Lit(_) => Ok(keys),
        Expr::Call(f, args) => match f {
            Func::Eq => with_equation(alloc, keys, ls, rs, args.as_slice()),
            _ => Ok(keys),
        },
    }
}

/// The keys of conjuncts, in their order.
fn keys_of(
    alloc: Global,
    ls: &[Var],
    rs: &[Var],
    conjuncts: &[Expr],
) -> Result<List<(Var, Var)>, NoMemory>
    ensures { IfOk result (λ keys. keys ≡ filter_map (property.equi_key ls.now rs.now) conjuncts.now) }
{
    let mut keys = List::new(alloc);
    for e in conjuncts {
        keys = with_key(alloc, keys, ls, rs, e)?;
    }
    Ok(keys)
}

/// The equi keys of a condition over these variables: each a left one and a right one.
fn equi_keys(
    alloc: Global,
    ls: &[Var],
    rs: &[Var],
    cond: &Expr,
) -> Result<List<(Var, Var)>, NoMemory>
    ensures { IfOk result (λ keys. keys ≡ property.equi_keys ls.now rs.now cond.now) }
{
    let conjuncts = conjuncts(alloc, cond)?;
    keys_of(alloc, ls, rs, conjuncts.as_slice())
}

/// Copies of the first parts of the pairs.
fn lefts_of(alloc: Global, keys: &[(Var, Var)]) -> Result<List<Var>, NoMemory>
    ensures { IfOk result (λ lefts. lefts ≡ map (λ k. k.0) keys.now) }
{
    let mut lefts = List::new(alloc);
    for (left, _) in keys {
        lefts.push(left.copy(alloc)?)?;
    }
    Ok(lefts)
}

/// By the hash of the equi keys, or through all pairs where there are none.
fn join_form(outer: bool, keys: &[(Var, Var)]) -> JoinForm
    ensures { result ≡ spec.join_form outer keys.now }
{
    match (outer, keys.is_empty()) {
        (true, true) => JoinForm::LoopLeftJoin,
        (true, false) => JoinForm::HashLeftJoin,
        (false, true) => JoinForm::LoopJoin,
        (false, false) => JoinForm::HashJoin,
    }
}

/// The equi keys of a join of two plans.
fn keys_between(
    alloc: Global,
    left: &Phys,
    right: &Phys,
    cond: &Expr,
) -> Result<List<(Var, Var)>, NoMemory>
    ensures { IfOk result (λ keys. keys ≡ property.equi_keys (meaning.phys_live left.now) (meaning.phys_live right.now) cond.now) }
{
    let ls = phys_live(alloc, left)?;
    let rs = phys_live(alloc, right)?;
    equi_keys(alloc, ls.as_slice(), rs.as_slice(), cond)
}

/// What a join with these keys needs of its left input.
fn left_need(alloc: Global, keys: &[(Var, Var)]) -> Result<Need, NoMemory>
    ensures { IfOk result (λ need. need ≡ (if is_hash (spec.join_form false keys.now) then N.Exactly (map (λ k. k.0) keys.now) else N.Any)) }
{
    if keys.is_empty() {
        return Ok(Need::Any);
    }
    Ok(Need::Exactly(lefts_of(alloc, keys)?))
}

/// What a join with these keys needs of its right input.
fn right_need(alloc: Global, keys: &[(Var, Var)]) -> Result<Need, NoMemory>
    ensures { IfOk result (λ need. need ≡ (if is_hash (spec.join_form false keys.now) then N.Exactly (property.old_of keys.now) else N.All)) }
{
    if keys.is_empty() {
        return Ok(Need::All);
    }
    Ok(Need::Exactly(olds_of(alloc, keys)?))
}

fn joined(
    alloc: Global,
    form: JoinForm,
    cond: &Expr,
    left: Boxed<Phys>,
    right: Boxed<Phys>,
) -> Result<Boxed<Phys>, NoMemory>
    ensures { IfOk result (λ q. q ≡ Q.Join form cond.now left right) }
{
    let cond = cond.copy(alloc)?;
    Boxed::new(
        alloc,
        Phys::Join {
            form,
            cond,
            left,
            right,
        },
    )
}

#[tactic(auto, using(crate::proofs::EquiKeys::join_made))]
pub fn join_over(
    alloc: Global,
    outer: bool,
    cond: &Expr,
    left: Boxed<Phys>,
    right: Boxed<Phys>,
    partitions: u32,
) -> Result<Boxed<Phys>, NoMemory>
    ensures { IfOk result (λ q. q ≡ spec.join_over partitions outer cond.now left right) }
{
    let keys = keys_between(alloc, left.get(), right.get(), cond)?;
    let of_left = left_need(alloc, keys.as_slice())?;
    let left = served(alloc, of_left, left, partitions)?;
    let of_right = right_need(alloc, keys.as_slice())?;
    let right = served(alloc, of_right, right, partitions)?;
    joined(alloc, join_form(outer, keys.as_slice()), cond, left, right)
}

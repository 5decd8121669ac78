//! What a join works by: the columns of its equi keys, and the rest of its condition.

ghost use Rattle.std.specs.Prelude.{◌≡◌, true, false, ◌++◌, [], IfOk, OnOk, filter, map};
ghost use Rattle.std.specs.List.{filter_map};
ghost use Rattle.std.specs.Option.{option_map};
ghost use Rattle.al_func.specs.declared.func.Func.TheVariants as F;
ghost use Rattle.al_plan.specs.Allows.{is_among};
ghost use Rattle.al_plan.specs.declared.expr.Expr.TheOpen as L;
ghost use Rattle.al_conj.specs.Conj.{all_of};
ghost use Rattle.al_phys.specs.Gives as forms;
ghost use Rattle.al_phys.specs.Properties as equi;
ghost use Rattle.hy_job.specs.Literals.{literals};
ghost use Rattle.hy_job.specs.Columns.{AreValues};
ghost use Rattle.al_jobgen.specs.Columns as spec;
ghost use Rattle.al_jobgen.specs.Parts as parts;

use crate::columns::{column_of, rex_of};
use al_conj::{all_of, conjuncts};
use al_func::{Func, Rex};
use al_phys::JoinForm;
use al_plan::{Expr, Var, joined_vars};
use al_value::{List, NoMemory};
use hy_job::JoinArg;
use std::alloc::Global;

/// Whether rows are joined by the hash of their keys.
pub fn is_hash(form: JoinForm) -> bool
    ensures { result ≡ forms.is_hash form }
{
    match form {
        JoinForm::HashJoin => true,
        JoinForm::HashLeftJoin => true,
        JoinForm::LoopJoin => false,
        JoinForm::LoopLeftJoin => false,
    }
}

/// Whether left rows without a partner are kept.
pub fn is_outer(form: JoinForm) -> bool
    ensures { result ≡ forms.is_outer form }
{
    match form {
        JoinForm::HashJoin => false,
        JoinForm::HashLeftJoin => true,
        JoinForm::LoopJoin => false,
        JoinForm::LoopLeftJoin => true,
    }
}

fn is_in(vars: &[Var], v: &Var) -> bool
    ensures { result ≡ is_among vars.now v.now.name }
{
    vars.iter().any(|other| other.name == v.name)
}

fn variable_of(e: &Expr) -> Option<&Var>
    ensures { option_map (λ v. v.now) result ≡ equi.variable_of e.now }
{
    match e {
        Expr::Var(v) => Some(v),
        Expr::Lit(_) => None,
        Expr::Call(_, _) => None,
    }
}

/// A variable of the left side and one of the right side.
fn sided<'a>(ls: &[Var], rs: &[Var], x: &'a Var, y: &'a Var) -> Option<(&'a Var, &'a Var)>
    ensures { option_map (λ k. (k.0.now, k.1.now)) result ≡ equi.sided ls.now rs.now x.now y.now }
{
    if is_in(ls, x) && is_in(rs, y) {
        Some((x, y))
    } else if is_in(rs, x) && is_in(ls, y) {
        Some((y, x))
    } else {
        None
    }
}

/// The key of an equation of these arguments, if it has one.
fn equation<'a>(ls: &[Var], rs: &[Var], args: &'a [Expr]) -> Option<(&'a Var, &'a Var)>
    ensures { option_map (λ k. (k.0.now, k.1.now)) result ≡ equi.equi_step ls.now rs.now (L.Call F.Eq args.now) }
{
    if args.len() != 2 {
        return None;
    }
    match variable_of(&args[0]) {
        Some(x) => match variable_of(&args[1]) {
            Some(y) => sided(ls, rs, x, y),
            None => None,
        },
        None => None,
    }
}

/// The equi key that a conjunct is: a left variable and a right one.
#[tactic(auto, using(crate::proofs::PieceJoin::key_laws))]
fn equi_key<'a>(ls: &[Var], rs: &[Var], e: &'a Expr) -> Option<(&'a Var, &'a Var)>
    ensures { option_map (λ k. (k.0.now, k.1.now)) result ≡ equi.equi_key ls.now rs.now e.now }
{
    match e {
        Expr::Var(_) => None,
        Expr::Lit(_) => None,
        Expr::Call(f, args) => match f {
            Func::Eq => equation(ls, rs, args.as_slice()),
            _ => None,
        },
    }
}

/// The conjuncts of a condition: the columns of the equi keys, and the other ones.
#[derive(Drop)]
struct Parts {
    left: List<u32>,
    right: List<u32>,
    rest: List<Expr>,
}

fn push_left(
    columns: &mut List<u32>,
    vars: &[Var],
    key: Option<(&Var, &Var)>,
) -> Result<(), NoMemory>
    ensures { OnOk result (columns.new ≡ columns.old ++ parts.left_column vars.now (option_map (λ k. (k.0.now, k.1.now)) key.entry)) }
{
    match key {
        Some((x, _)) => columns.push(column_of(vars, x)?),
        None => Ok(()),
    }
}

fn push_right(
    columns: &mut List<u32>,
    vars: &[Var],
    key: Option<(&Var, &Var)>,
) -> Result<(), NoMemory>
    ensures { OnOk result (columns.new ≡ columns.old ++ parts.right_column vars.now (option_map (λ k. (k.0.now, k.1.now)) key.entry)) }
{
    match key {
        Some((_, y)) => columns.push(column_of(vars, y)?),
        None => Ok(()),
    }
}

/// The conjunct goes behind the others where it is no key.
fn push_rest(
    alloc: Global,
    rest: &mut List<Expr>,
    e: &Expr,
    key: Option<(&Var, &Var)>,
) -> Result<(), NoMemory>
    ensures { OnOk result (rest.new ≡ rest.old ++ parts.no_key e.now (option_map (λ k. (k.0.now, k.1.now)) key.entry)) }
{
    match key {
        Some(_) => Ok(()),
        None => rest.push(e.copy(alloc)?),
    }
}

fn parts_of(alloc: Global, ls: &[Var], rs: &[Var], all: &[Expr]) -> Result<Parts, NoMemory>
    ensures left { IfOk result (λ p. p.left ≡ map (λ k. spec.column_of ls.now k.0.name) (filter_map (equi.equi_key ls.now rs.now) all.now)) }
    ensures right { IfOk result (λ p. p.right ≡ map (λ k. spec.column_of rs.now k.1.name) (filter_map (equi.equi_key ls.now rs.now) all.now)) }
    ensures rest { IfOk result (λ p. p.rest ≡ filter (λ e. spec.is_none (equi.equi_key ls.now rs.now e)) all.now) }
{
    let mut left = List::new(alloc);
    let mut right = List::new(alloc);
    let mut rest = List::new(alloc);
    for e in all {
        let key = equi_key(ls, rs, e);
        push_left(&mut left, ls, key)?;
        push_right(&mut right, rs, key)?;
        push_rest(alloc, &mut rest, e, key)?;
    }
    Ok(Parts { left, right, rest })
}

/// The variables of a left and of a right row.
fn both_of(alloc: Global, ls: &[Var], rs: &[Var]) -> Result<List<Var>, NoMemory>
    ensures { IfOk result (λ both. both ≡ ls.now ++ rs.now) }
{
    let left = joined_vars(alloc, List::new(alloc), ls)?;
    joined_vars(alloc, left, rs)
}

/// The conjuncts that are no keys, as one condition over columns.
fn rest_of(alloc: Global, ls: &[Var], rs: &[Var], rest: List<Expr>) -> Result<Rex, NoMemory>
    ensures is { IfOk result (λ r. r ≡ spec.rex_of (ls.now ++ rs.now) (all_of rest)) }
    ensures values { IfOk result (λ r. AreValues (literals r)) }
{
    let both = both_of(alloc, ls, rs)?;
    let residual = all_of(alloc, rest)?;
    rex_of(alloc, both.as_slice(), &residual)
}

/// By the hash of the keys, and with the rest of the condition.
fn hash_arg(
    alloc: Global,
    outer: bool,
    ls: &[Var],
    rs: &[Var],
    cond: &Expr,
) -> Result<JoinArg, NoMemory>
    ensures is { IfOk result (λ arg. arg ≡ spec.join_arg true outer ls.now rs.now cond.now) }
    ensures values { IfOk result (λ arg. AreValues (literals arg.rest)) }
{
    let all = conjuncts(alloc, cond)?;
    let parts = parts_of(alloc, ls, rs, all.as_slice())?;
    let rest = rest_of(alloc, ls, rs, parts.rest)?;
    Ok(JoinArg {
        left: parts.left,
        right: parts.right,
        rest,
        outer,
    })
}

/// With the whole condition.
fn loop_arg(
    alloc: Global,
    outer: bool,
    ls: &[Var],
    rs: &[Var],
    cond: &Expr,
) -> Result<JoinArg, NoMemory>
    ensures is { IfOk result (λ arg. arg ≡ spec.join_arg false outer ls.now rs.now cond.now) }
    ensures values { IfOk result (λ arg. AreValues (literals arg.rest)) }
{
    let both = both_of(alloc, ls, rs)?;
    let rest = rex_of(alloc, both.as_slice(), cond)?;
    Ok(JoinArg {
        left: List::new(alloc),
        right: List::new(alloc),
        rest,
        outer,
    })
}

/// What a join of rows of these variables works by.
pub fn join_arg(
    alloc: Global,
    form: JoinForm,
    ls: &[Var],
    rs: &[Var],
    cond: &Expr,
) -> Result<JoinArg, NoMemory>
    ensures is { IfOk result (λ arg. arg ≡ spec.join_arg (forms.is_hash form) (forms.is_outer form) ls.now rs.now cond.now) }
    ensures values { IfOk result (λ arg. AreValues (literals arg.rest)) }
{
    if is_hash(form) {
        hash_arg(alloc, is_outer(form), ls, rs, cond)
    } else {
        loop_arg(alloc, is_outer(form), ls, rs, cond)
    }
}

//! Variables as columns of the rows whose values are those of these variables, in order.

ghost use Rattle.std.specs.Prelude.{◌≡◌, IfOk, map, nat_eq};
ghost use Rattle.std.specs.List.{flat_map, position};
ghost use Rattle.std.specs.Cmp.Lexicographic.{pointwise};
ghost use Rattle.hy_job.specs.Literals.{agg_literals, gen_literals, literals};
ghost use Rattle.hy_job.specs.Columns.{AreValues};
ghost use Rattle.al_jobgen.specs.Columns as spec;

use al_agg::Agg;
use al_func::Rex;
use al_plan::{AggCall, Expr, Generator, OrderKey, Var};
use al_value::{List, NoMemory, SortKey};
use hy_job::{AggRex, GenRex};
use std::alloc::Global;

/// A number of a job. Memory is also wanting where it is past 2^32 - 1.
pub fn number(at: usize) -> Result<u32, NoMemory>
    ensures { IfOk result (λ n. n ≡ at) }
{
    match u32::try_from(at) {
        Ok(n) => Ok(n),
        Err(_) => Err(NoMemory),
    }
}

/// The first variable of this name, by its place.
fn place_among(vars: &[Var], v: &Var) -> Option<usize>
    ensures { result ≡ position (λ w. pointwise nat_eq w.name v.now.name) vars.now }
{
    vars.iter().position(|w| w.name == v.name)
}

/// The place of the first variable of this name; behind all of them where there is none.
fn place_of(vars: &[Var], v: &Var) -> usize
    ensures { result ≡ spec.column_of vars.now v.now.name }
{
    match place_among(vars, v) {
        Some(at) => at,
        None => vars.len(),
    }
}

/// The column of a variable.
pub fn column_of(vars: &[Var], v: &Var) -> Result<u32, NoMemory>
    ensures { IfOk result (λ c. c ≡ spec.column_of vars.now v.now.name) }
{
    number(place_of(vars, v))
}

pub fn columns_of(alloc: Global, vars: &[Var], named: &[Var]) -> Result<List<u32>, NoMemory>
    ensures { IfOk result (λ columns. columns ≡ spec.columns_of vars.now named.now) }
{
    let mut columns = List::new(alloc);
    for v in named {
        columns.push(column_of(vars, v)?)?;
    }
    Ok(columns)
}

/// The columns of the second parts of the pairs.
pub fn old_columns(alloc: Global, vars: &[Var], keys: &[(Var, Var)]) -> Result<List<u32>, NoMemory>
    ensures { IfOk result (λ columns. columns ≡ spec.columns_of vars.now (map (λ k. k.1) keys.now)) }
{
    let mut columns = List::new(alloc);
    for (_, old) in keys {
        columns.push(column_of(vars, old)?)?;
    }
    Ok(columns)
}

#[cycle(rex_of)]
fn rexes_of(alloc: Global, vars: &[Var], args: &[Expr]) -> Result<List<Rex>, NoMemory>
    ensures is { IfOk result (λ rexes. rexes ≡ map (spec.rex_of vars.now) args.now) }
    ensures values { IfOk result (λ rexes. AreValues (flat_map literals rexes)) }
{
    let mut rexes = List::new(alloc);
    for e in args {
        rexes.push(rex_of(alloc, vars, e)?)?;
    }
    Ok(rexes)
}

/// An expression over columns.
#[cycle(rex_of)]
#[tactic(auto, using(crate::proofs::PieceColumns::rex_laws, crate::proofs::Literals::rex_values))]
pub fn rex_of(alloc: Global, vars: &[Var], e: &Expr) -> Result<Rex, NoMemory>
    ensures is { IfOk result (λ r. r ≡ spec.rex_of vars.now e.now) }
    ensures values { IfOk result (λ r. AreValues (literals r)) }
{
    match e {
        Expr::Var(v) => Ok(Rex::Col(column_of(vars, v)?)),
        Expr::Lit(v) => Ok(Rex::Lit(v.copy(alloc)?)),
        Expr::Call(f, args) => Ok(Rex::Call(*f, rexes_of(alloc, vars, args.as_slice())?)),
    }
}

pub fn made_rexes(alloc: Global, vars: &[Var], made: &[(Var, Expr)]) -> Result<List<Rex>, NoMemory>
    ensures is { IfOk result (λ rexes. rexes ≡ spec.made_rexes vars.now made.now) }
    ensures values { IfOk result (λ rexes. AreValues (flat_map literals rexes)) }
{
    let mut rexes = List::new(alloc);
    for (_, e) in made {
        rexes.push(rex_of(alloc, vars, e)?)?;
    }
    Ok(rexes)
}

fn agg_rex(alloc: Global, vars: &[Var], call: &AggCall) -> Result<AggRex, NoMemory>
    ensures is { IfOk result (λ a. a ≡ spec.agg_rex vars.now call.now) }
    ensures values { IfOk result (λ a. AreValues (agg_literals a)) }
{
    match call {
        AggCall::CountAll => Ok(AggRex::CountAll),
        AggCall::Count(e) => Ok(AggRex::Count(rex_of(alloc, vars, e)?)),
        AggCall::Sum(e) => Ok(AggRex::Sum(rex_of(alloc, vars, e)?)),
        AggCall::Min(e) => Ok(AggRex::Min(rex_of(alloc, vars, e)?)),
        AggCall::Max(e) => Ok(AggRex::Max(rex_of(alloc, vars, e)?)),
    }
}

pub fn made_aggs(
    alloc: Global,
    vars: &[Var],
    made: &[(Var, AggCall)],
) -> Result<List<AggRex>, NoMemory>
    ensures is { IfOk result (λ aggs. aggs ≡ spec.made_aggs vars.now made.now) }
    ensures values { IfOk result (λ aggs. AreValues (flat_map agg_literals aggs)) }
{
    let mut aggs = List::new(alloc);
    for (_, call) in made {
        aggs.push(agg_rex(alloc, vars, call)?)?;
    }
    Ok(aggs)
}

fn agg_kind(call: &AggCall) -> Agg
    ensures { result ≡ spec.agg_kind call.now }
{
    match call {
        AggCall::CountAll => Agg::CountAll,
        AggCall::Count(_) => Agg::Count,
        AggCall::Sum(_) => Agg::Sum,
        AggCall::Min(_) => Agg::Min,
        AggCall::Max(_) => Agg::Max,
    }
}

/// Which aggregates these calls are of.
pub fn agg_kinds(alloc: Global, made: &[(Var, AggCall)]) -> Result<List<Agg>, NoMemory>
    ensures { IfOk result (λ aggs. aggs ≡ map (λ m. spec.agg_kind m.1) made.now) }
{
    let mut aggs = List::new(alloc);
    for (_, call) in made {
        aggs.push(agg_kind(call))?;
    }
    Ok(aggs)
}

#[tactic(auto, using(crate::proofs::Literals::both_values))]
pub fn gen_rex(alloc: Global, vars: &[Var], items: &Generator) -> Result<GenRex, NoMemory>
    ensures is { IfOk result (λ g. g ≡ spec.gen_rex vars.now items.now) }
    ensures values { IfOk result (λ g. AreValues (gen_literals g)) }
{
    match items {
        Generator::Range(a, b) => Ok(GenRex::Range(
            rex_of(alloc, vars, a)?,
            rex_of(alloc, vars, b)?,
        )),
        Generator::Split(t, s) => Ok(GenRex::Split(
            rex_of(alloc, vars, t)?,
            rex_of(alloc, vars, s)?,
        )),
    }
}

pub fn sort_keys(alloc: Global, vars: &[Var], keys: &[OrderKey]) -> Result<List<SortKey>, NoMemory>
    ensures { IfOk result (λ by. by ≡ spec.sort_keys vars.now keys.now) }
{
    let mut by = List::new(alloc);
    for key in keys {
        let column = column_of(vars, &key.var)?;
        by.push(SortKey {
            column,
            descending: key.descending,
        })?;
    }
    Ok(by)
}

//! Nested plans over columns.

ghost use Rattle.std.specs.Prelude.{◌≡◌, IfOk};
ghost use Rattle.std.specs.List.{flat_map};
ghost use Rattle.al_plan.specs.Allows as meaning;
ghost use Rattle.hy_job.specs.Literals.{agg_literals, gen_literals, literals, n_literals};
ghost use Rattle.hy_job.specs.Columns.{AreValues};
ghost use Rattle.al_jobgen.specs.Columns as spec;

use crate::columns::{agg_kinds, columns_of, gen_rex, made_aggs, made_rexes, rex_of, sort_keys};
use al_agg::Agg;
use al_func::Rex;
use al_plan::{AggCall, Expr, Generator, OrderKey, Plan, Var, live_over};
use al_value::{Boxed, List, NoMemory, SortKey};
use hy_job::{AggRex, GenRex, NestedPlan};
use std::alloc::Global;

/// The expressions that an operator makes over the rows of its input.
fn rexes_over(
    alloc: Global,
    given: &[Var],
    input: &Plan,
    made: &[(Var, Expr)],
) -> Result<List<Rex>, NoMemory>
    ensures is { IfOk result (λ rexes. rexes ≡ spec.made_rexes (meaning.live input.now given.now) made.now) }
    ensures values { IfOk result (λ rexes. AreValues (flat_map literals rexes)) }
{
    let vars = live_over(alloc, input, given)?;
    made_rexes(alloc, vars.as_slice(), made)
}

fn rex_over(alloc: Global, given: &[Var], input: &Plan, e: &Expr) -> Result<Rex, NoMemory>
    ensures is { IfOk result (λ r. r ≡ spec.rex_of (meaning.live input.now given.now) e.now) }
    ensures values { IfOk result (λ r. AreValues (literals r)) }
{
    let vars = live_over(alloc, input, given)?;
    rex_of(alloc, vars.as_slice(), e)
}

fn columns_over(
    alloc: Global,
    given: &[Var],
    input: &Plan,
    kept: &[Var],
) -> Result<List<u32>, NoMemory>
    ensures { IfOk result (λ columns. columns ≡ spec.columns_of (meaning.live input.now given.now) kept.now) }
{
    let vars = live_over(alloc, input, given)?;
    columns_of(alloc, vars.as_slice(), kept)
}

fn items_over(
    alloc: Global,
    given: &[Var],
    input: &Plan,
    items: &Generator,
) -> Result<GenRex, NoMemory>
    ensures is { IfOk result (λ g. g ≡ spec.gen_rex (meaning.live input.now given.now) items.now) }
    ensures values { IfOk result (λ g. AreValues (gen_literals g)) }
{
    let vars = live_over(alloc, input, given)?;
    gen_rex(alloc, vars.as_slice(), items)
}

fn keys_over(
    alloc: Global,
    given: &[Var],
    input: &Plan,
    keys: &[OrderKey],
) -> Result<List<SortKey>, NoMemory>
    ensures { IfOk result (λ by. by ≡ spec.sort_keys (meaning.live input.now given.now) keys.now) }
{
    let vars = live_over(alloc, input, given)?;
    sort_keys(alloc, vars.as_slice(), keys)
}

fn aggs_over(
    alloc: Global,
    given: &[Var],
    input: &Plan,
    made: &[(Var, AggCall)],
) -> Result<List<AggRex>, NoMemory>
    ensures is { IfOk result (λ aggs. aggs ≡ spec.made_aggs (meaning.live input.now given.now) made.now) }
    ensures values { IfOk result (λ aggs. AreValues (flat_map agg_literals aggs)) }
{
    let vars = live_over(alloc, input, given)?;
    made_aggs(alloc, vars.as_slice(), made)
}

#[cycle(nested_of)]
fn boxed_of(alloc: Global, given: &[Var], p: &Plan) -> Result<Boxed<NestedPlan>, NoMemory>
    ensures is { IfOk result (λ n. n ≡ spec.nested_of given.now p.now) }
    ensures values { IfOk result (λ n. AreValues (n_literals n)) }
{
    Boxed::new(alloc, nested_of(alloc, given, p)?)
}

/// A nested plan over columns, where `nested` has rows of these variables.
#[cycle(nested_of)]
#[tactic(auto, using(crate::proofs::Literals::both_values), unfolding(crate::specs::Columns::nested_of, crate::specs::Opens::plan_shape, crate::specs::Opens::plan_hidden, crate::specs::Opens::nested_shape, crate::specs::Opens::nested_hidden, crate::specs::Opens::row_hidden))]
pub fn nested_of(alloc: Global, given: &[Var], p: &Plan) -> Result<NestedPlan, NoMemory>
    ensures is { IfOk result (λ n. n ≡ spec.nested_of given.now p.now) }
    ensures values { IfOk result (λ n. AreValues (n_literals n)) }
{
    match p {
        Plan::Assign { made, input } => Ok(NestedPlan::Assign {
            made: rexes_over(alloc, given, input.get(), made.as_slice())?,
            input: boxed_of(alloc, given, input.get())?,
        }),
        Plan::Select { cond, input } => Ok(NestedPlan::Select {
            cond: rex_over(alloc, given, input.get(), cond)?,
            input: boxed_of(alloc, given, input.get())?,
        }),
        Plan::Project { vars: kept, input } => Ok(NestedPlan::Project {
            columns: columns_over(alloc, given, input.get(), kept.as_slice())?,
            input: boxed_of(alloc, given, input.get())?,
        }),
        Plan::Unnest { items, input, .. } => Ok(NestedPlan::Unnest {
            items: items_over(alloc, given, input.get(), items)?,
            input: boxed_of(alloc, given, input.get())?,
        }),
        Plan::Order { keys, input } => Ok(NestedPlan::Order {
            keys: keys_over(alloc, given, input.get(), keys.as_slice())?,
            input: boxed_of(alloc, given, input.get())?,
        }),
        Plan::Distinct { input } => Ok(NestedPlan::Distinct {
            input: boxed_of(alloc, given, input.get())?,
        }),
        Plan::Limit { n, k, input } => Ok(NestedPlan::Limit {
            n: *n,
            k: *k,
            input: boxed_of(alloc, given, input.get())?,
        }),
        Plan::Aggregate { made, input } => Ok(NestedPlan::Aggregate {
            made: aggs_over(alloc, given, input.get(), made.as_slice())?,
            input: boxed_of(alloc, given, input.get())?,
        }),
        _ => Ok(NestedPlan::Nested),
    }
}

/// The aggregates of a nested plan.
#[tactic(auto, unfolding(crate::specs::Opens::plan_shape, crate::specs::Opens::plan_hidden, crate::specs::Opens::row_hidden))]
pub fn aggs_of(alloc: Global, p: &Plan) -> Result<List<Agg>, NoMemory>
    ensures { IfOk result (λ aggs. aggs ≡ spec.aggs_of p.now) }
{
    match p {
        Plan::Aggregate { made, .. } => agg_kinds(alloc, made.as_slice()),
        _ => Ok(List::new(alloc)),
    }
}

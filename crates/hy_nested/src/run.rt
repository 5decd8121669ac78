ghost use Rattle.std.specs.Prelude.{◌≡◌, ◌∷◌, [], true, IfOk, take, drop};
ghost use Rattle.hy_job.specs.Columns.{agg_row as row_of_aggs};
ghost use Rattle.hy_job.specs.Nested.{NAllows, chain_rows};
ghost use Rattle.hy_job.specs.Nested as spec;
ghost use Rattle.hy_nested.specs.Fitting.{AggregatesFit, Fits, FitsNested};

use crate::distinct::distinct_rows;
use crate::shape::is_chain;
use al_value::{List, NoMemory, Row, copy_rows};
use hy_job::{
    AggRex, NestedPlan, add_rows, agg_row, assign_rows, cut_rows, expand_rows, finish_states,
    run_chain, select_rows, sort_rows, start_states,
};
use std::alloc::Global;

/// What is left when `k` rows are taken off the front, of which the first `n`.
fn limit_rows(alloc: Global, n: u64, k: u64, rows: &[Row]) -> Result<List<Row>, NoMemory>
    ensures { IfOk result (λ left. left ≡ take n (drop k rows.now)) }
{
    let from = (k as usize).min(rows.len());
    let rest = &rows[from..];
    let until = (n as usize).min(rest.len());
    copy_rows(alloc, &rest[..until])
}

/// The row in a list of its own.
fn alone(alloc: Global, row: Row) -> Result<List<Row>, NoMemory>
    ensures { IfOk result (λ rows. rows ≡ row ∷ []) }
{
    let mut rows = List::new(alloc);
    rows.push(row)?;
    Ok(rows)
}

/// One list of rows that the plan allows over the outer rows.
#[tactic(auto, unfolding(crate::specs::Opens::nested_shape, crate::specs::Opens::nested_hidden, crate::specs::Opens::row_hidden))]
fn run(alloc: Global, plan: &NestedPlan, outer: &[Row]) -> Result<List<Row>, NoMemory>
    requires { Fits plan.now outer.now }
    ensures { IfOk result (λ rows. NAllows plan.now outer.now rows) }
{
    match plan {
        NestedPlan::Nested => copy_rows(alloc, outer),
        NestedPlan::Assign { made, input } => {
            let rows = run(alloc, input.get(), outer)?;
            assign_rows(alloc, made.as_slice(), rows)
        }
        NestedPlan::Select { cond, input } => {
            let rows = run(alloc, input.get(), outer)?;
            select_rows(alloc, cond, rows)
        }
        NestedPlan::Project { columns, input } => {
            let rows = run(alloc, input.get(), outer)?;
            cut_rows(alloc, columns.as_slice(), rows.as_slice())
        }
        NestedPlan::Unnest { items, input } => {
            let rows = run(alloc, input.get(), outer)?;
            expand_rows(alloc, items, rows.as_slice())
        }
        NestedPlan::Order { keys, input } => {
            let rows = run(alloc, input.get(), outer)?;
            sort_rows(keys.as_slice(), rows)
        }
        NestedPlan::Distinct { input } => {
            let rows = run(alloc, input.get(), outer)?;
            distinct_rows(rows)
        }
        NestedPlan::Limit { n, k, input } => {
            let rows = run(alloc, input.get(), outer)?;
            limit_rows(alloc, *n, *k, rows.as_slice())
        }
        NestedPlan::Aggregate { made, input } => {
            let rows = run(alloc, input.get(), outer)?;
            alone(alloc, agg_row(alloc, made.as_slice(), rows.as_slice())?)
        }
    }
}

/// The row of the aggregates over what a chain makes of the outer rows. No more rows are kept at a
/// time than the chain makes of one.
fn over_chain(
    alloc: Global,
    made: &[AggRex],
    chain: &NestedPlan,
    outer: &[Row],
) -> Result<Row, NoMemory>
    requires chain { spec.is_chain chain.now ≡ true }
    requires fits { AggregatesFit made.now chain.now outer.now }
    ensures { IfOk result (λ row. row ≡ row_of_aggs made.now (chain_rows chain.now outer.now)) }
{
    let mut states = start_states(alloc, made)?;
    for row in outer {
        let rows = run_chain(alloc, chain, row)?;
        add_rows(alloc, &mut states, made, rows.as_slice())?;
    }
    finish_states(alloc, states)
}

/// The row of the aggregates over a list of rows that the plan allows.
fn aggregate(
    alloc: Global,
    made: &[AggRex],
    input: &NestedPlan,
    outer: &[Row],
) -> Result<Row, NoMemory>
    requires { AggregatesFit made.now input.now outer.now }
    ensures { IfOk result (λ row. spec.Over (NAllows input.now) outer.now (λ rows. row ≡ row_of_aggs made.now rows)) }
{
    if is_chain(input) {
        return over_chain(alloc, made, input, outer);
    }
    let rows = run(alloc, input, outer)?;
    agg_row(alloc, made, rows.as_slice())
}

/// One row that the nested plan allows over the outer rows, which all have one number of values,
/// for which the plan is sound. Where the plan is row-wise, the rows are worked on one by one.
#[tactic(auto, unfolding(crate::specs::Opens::nested_shape, crate::specs::Opens::nested_hidden, crate::specs::Opens::row_hidden))]
pub fn run_nested(alloc: Global, plan: &NestedPlan, rows: &[Row]) -> Result<Row, NoMemory>
    requires { FitsNested plan.now rows.now }
    ensures { IfOk result (λ row. NAllows plan.now rows.now (row ∷ [])) }
{
    match plan {
        NestedPlan::Aggregate { made, input } => {
            aggregate(alloc, made.as_slice(), input.get(), rows)
        }
        _ => unreachable!(),
    }
}

ghost use Rattle.std.specs.Prelude.{◌≡◌, ◌∷◌, [], true, IfOk, length};
ghost use Rattle.hy_job.specs.Chains.{ChainsAreAllowed, ChainsWorkByRow};
ghost use Rattle.hy_job.specs.Nested as spec;
ghost use Rattle.hy_job.specs.Sound.{NSound};

use crate::nested::NestedPlan;
use crate::rows::{assign_rows, cut_rows, expand_rows, select_rows};
use al_value::{List, NoMemory, Row};
use std::alloc::Global;

/// The row alone, in a list.
fn alone(alloc: Global, row: &Row) -> Result<List<Row>, NoMemory>
    ensures { IfOk result (λ rows. rows ≡ row.now ∷ []) }
{
    let mut rows = List::new(alloc);
    rows.push(row.copy(alloc)?)?;
    Ok(rows)
}

/// What a chain makes of one outer row. Over more rows it makes the same of each of them, one
/// after the other.
#[tactic(auto, unfolding(crate::specs::Opens::nested_shape, crate::specs::Opens::nested_hidden, crate::specs::Opens::row_hidden))]
pub fn run_chain(alloc: Global, plan: &NestedPlan, row: &Row) -> Result<List<Row>, NoMemory>
    requires chain { spec.is_chain plan.now ≡ true }
    requires sound { NSound plan.now (length row.now) }
    ensures { IfOk result (λ rows. rows ≡ spec.chain_rows plan.now (row.now ∷ [])) }
{
    match plan {
        NestedPlan::Assign { made, input } => {
            let rows = run_chain(alloc, input.get(), row)?;
            assign_rows(alloc, made.as_slice(), rows)
        }
        NestedPlan::Select { cond, input } => {
            let rows = run_chain(alloc, input.get(), row)?;
            select_rows(alloc, cond, rows)
        }
        NestedPlan::Project { columns, input } => {
            let rows = run_chain(alloc, input.get(), row)?;
            cut_rows(alloc, columns.as_slice(), rows.as_slice())
        }
        NestedPlan::Unnest { items, input } => {
            let rows = run_chain(alloc, input.get(), row)?;
            expand_rows(alloc, items, rows.as_slice())
        }
        NestedPlan::Nested => alone(alloc, row),
        NestedPlan::Order { .. }
        | NestedPlan::Distinct { .. }
        | NestedPlan::Limit { .. }
        | NestedPlan::Aggregate { .. } => unreachable!(),
    }
}

/// A chain makes of many rows what it makes of each of them, one after the other, and that is
/// allowed. It does nothing: its clauses speak of every chain.
pub fn chain_laws()
    ensures by_row { ChainsWorkByRow }
    ensures allowed { ChainsAreAllowed }
{}

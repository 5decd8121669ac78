//! Copies of nested plans.

ghost use Rattle.std.specs.Prelude.{◌≡◌, IfOk};
ghost use Rattle.hy_job.specs.declared.nested.NestedPlan.TheVariants as N;

use crate::copies::{copy_calls, copy_columns, copy_exprs, copy_items, copy_keys};
use al_func::Rex;
use al_value::{Boxed, NoMemory, SortKey};
use hy_job::{AggRex, GenRex, NestedPlan};
use std::alloc::Global;

fn assign_of(
    alloc: Global,
    made: &[Rex],
    input: Boxed<NestedPlan>,
) -> Result<Boxed<NestedPlan>, NoMemory>
    ensures { IfOk result (λ p. p ≡ N.Assign made.now input) }
{
    let made = copy_exprs(alloc, made)?;
    Boxed::new(alloc, NestedPlan::Assign { made, input })
}

fn select_of(
    alloc: Global,
    cond: &Rex,
    input: Boxed<NestedPlan>,
) -> Result<Boxed<NestedPlan>, NoMemory>
    ensures { IfOk result (λ p. p ≡ N.Select cond.now input) }
{
    let cond = cond.copy(alloc)?;
    Boxed::new(alloc, NestedPlan::Select { cond, input })
}

fn project_of(
    alloc: Global,
    columns: &[u32],
    input: Boxed<NestedPlan>,
) -> Result<Boxed<NestedPlan>, NoMemory>
    ensures { IfOk result (λ p. p ≡ N.Project columns.now input) }
{
    let columns = copy_columns(alloc, columns)?;
    Boxed::new(alloc, NestedPlan::Project { columns, input })
}

fn unnest_of(
    alloc: Global,
    items: &GenRex,
    input: Boxed<NestedPlan>,
) -> Result<Boxed<NestedPlan>, NoMemory>
    ensures { IfOk result (λ p. p ≡ N.Unnest items.now input) }
{
    let items = copy_items(alloc, items)?;
    Boxed::new(alloc, NestedPlan::Unnest { items, input })
}

fn order_of(
    alloc: Global,
    keys: &[SortKey],
    input: Boxed<NestedPlan>,
) -> Result<Boxed<NestedPlan>, NoMemory>
    ensures { IfOk result (λ p. p ≡ N.Order keys.now input) }
{
    let keys = copy_keys(alloc, keys)?;
    Boxed::new(alloc, NestedPlan::Order { keys, input })
}

fn aggregate_of(
    alloc: Global,
    made: &[AggRex],
    input: Boxed<NestedPlan>,
) -> Result<Boxed<NestedPlan>, NoMemory>
    ensures { IfOk result (λ p. p ≡ N.Aggregate made.now input) }
{
    let made = copy_calls(alloc, made)?;
    Boxed::new(alloc, NestedPlan::Aggregate { made, input })
}

/// In a box, since a plan that an error drops is proved variant by variant.
fn copy_boxed(alloc: Global, plan: &NestedPlan) -> Result<Boxed<NestedPlan>, NoMemory>
    ensures { IfOk result (λ copy. copy ≡ plan.now) }
{
    match plan {
        NestedPlan::Nested => Boxed::new(alloc, NestedPlan::Nested),
        NestedPlan::Assign { made, input } => {
            let input = copy_boxed(alloc, input.get())?;
            assign_of(alloc, made.as_slice(), input)
        }
        NestedPlan::Select { cond, input } => {
            let input = copy_boxed(alloc, input.get())?;
            select_of(alloc, cond, input)
        }
        NestedPlan::Project { columns, input } => {
            let input = copy_boxed(alloc, input.get())?;
            project_of(alloc, columns.as_slice(), input)
        }
        NestedPlan::Unnest { items, input } => {
            let input = copy_boxed(alloc, input.get())?;
            unnest_of(alloc, items, input)
        }
        NestedPlan::Order { keys, input } => {
            let input = copy_boxed(alloc, input.get())?;
            order_of(alloc, keys.as_slice(), input)
        }
        NestedPlan::Distinct { input } => {
            let input = copy_boxed(alloc, input.get())?;
            Boxed::new(alloc, NestedPlan::Distinct { input })
        }
        NestedPlan::Limit { n, k, input } => {
            let input = copy_boxed(alloc, input.get())?;
            Boxed::new(
                alloc,
                NestedPlan::Limit {
                    n: *n,
                    k: *k,
                    input,
                },
            )
        }
        NestedPlan::Aggregate { made, input } => {
            let input = copy_boxed(alloc, input.get())?;
            aggregate_of(alloc, made.as_slice(), input)
        }
    }
}

/// An equal plan.
pub(crate) fn copy_nested(alloc: Global, plan: &NestedPlan) -> Result<NestedPlan, NoMemory>
    ensures { IfOk result (λ copy. copy ≡ plan.now) }
{
    match copy_boxed(alloc, plan) {
        Ok(copy) => Ok(copy.into_inner()),
        Err(fault) => Err(fault),
    }
}

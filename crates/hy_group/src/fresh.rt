//! Rows that are added to a group as they come.

ghost use Rattle.std.specs.Prelude.{◌≡◌, [], length, true, IfOk, OnOk};
ghost use Rattle.hy_job.specs.Nested as spec;
ghost use Rattle.hy_job.specs.Nested.{chain_rows, n_width, root_aggs};
ghost use Rattle.hy_job.specs.Sound.{AreSoundAggs, NSound};
ghost use Rattle.hy_job.specs.States.{AreStates};
ghost use Rattle.hy_group.specs.Fresh.{chain_of};
ghost use Rattle.hy_group.specs.Groups.{SeenMore};

use crate::folding::Folding;
use al_agg::Part;
use al_value::{NoMemory, Row};
use hy_job::{AggRex, GroupArg, NestedPlan, add_rows, run_chain, start_states};
use std::alloc::Global;

/// Adds rows through the nested plan of a group: what its chain makes of a row is seen by the
/// states. Different rows have no states.
#[derive(Drop)]
pub(crate) struct FreshRows<'a> {
    pub arg: &'a GroupArg,
}

impl<'a> Folding for FreshRows<'a> {
    ghost use Rattle.hy_group.specs.Fresh.{ReadsNested, aggs_of, row_sees};

    ghost sees = { λ f. row_sees f.arg.now.nested };

    ghost right = { λ f states. length states ≡ length (aggs_of f.arg.now.nested) };

    ghost fits = { λ f. ReadsNested f.arg.now.nested };

    fn start(&self, alloc: Global) -> Result<Vec<Part>, NoMemory> {
        match &self.arg.nested {
            Some(plan) => start_nested(alloc, plan),
            None => Ok(Vec::new(alloc)),
        }
    }

    fn add(&self, alloc: Global, states: &mut Vec<Part>, row: &Row) -> Result<(), NoMemory> {
        match &self.arg.nested {
            Some(plan) => add_nested(alloc, plan, states, row),
            None => Ok(()),
        }
    }
}

/// The states of the aggregates of a nested plan, which have seen no row.
#[tactic(auto, unfolding(crate::specs::Opens::nested_shape, crate::specs::Opens::nested_hidden, crate::specs::Opens::row_hidden))]
fn start_nested(alloc: Global, plan: &NestedPlan) -> Result<Vec<Part>, NoMemory>
    ensures seen { IfOk result (λ states. AreStates (root_aggs plan.now) (chain_of plan.now []) states.items) }
    ensures each { IfOk result (λ states. length states.items ≡ length (root_aggs plan.now)) }
{
    match plan {
        NestedPlan::Aggregate { made, input } => start_over(alloc, made.as_slice(), input.get()),
        _ => Ok(Vec::new(alloc)),
    }
}

/// The states of aggregates, which have seen no row of a chain.
#[tactic(auto, using(crate::proofs::FreshLaws::fresh_laws))]
fn start_over(alloc: Global, made: &[AggRex], _chain: &NestedPlan) -> Result<Vec<Part>, NoMemory>
    ensures seen { IfOk result (λ states. AreStates made.now (chain_rows _chain.now []) states.items) }
    ensures each { IfOk result (λ states. length states.items ≡ length made.now) }
{
    start_states(alloc, made)
}

/// Adds to the states of a nested plan's aggregates what its chain makes of a row.
#[tactic(auto, unfolding(crate::specs::Opens::nested_shape, crate::specs::Opens::nested_hidden, crate::specs::Opens::row_hidden))]
fn add_nested(
    alloc: Global,
    plan: &NestedPlan,
    states: &mut Vec<Part>,
    row: &Row,
) -> Result<(), NoMemory>
    requires row_wise { spec.is_row_wise plan.now ≡ true }
    requires reads { NSound plan.now (length row.now) }
    requires each { length states.old.items ≡ length (root_aggs plan.now) }
    ensures { OnOk result (SeenMore (λ rows. AreStates (root_aggs plan.now) (chain_of plan.now rows)) (λ states. length states ≡ length (root_aggs plan.now)) row.now states.old.items states.new.items) }
{
    match plan {
        NestedPlan::Aggregate { made, input } => {
            add_over(alloc, made.as_slice(), input.get(), states, row)
        }
        _ => unreachable!(),
    }
}

/// Adds to the states of aggregates what a chain makes of a row.
#[tactic(auto, using(crate::proofs::FreshLaws::fresh_laws))]
fn add_over(
    alloc: Global,
    made: &[AggRex],
    chain: &NestedPlan,
    states: &mut Vec<Part>,
    row: &Row,
) -> Result<(), NoMemory>
    requires chain { spec.is_chain chain.now ≡ true }
    requires sound { NSound chain.now (length row.now) }
    requires reads { AreSoundAggs (n_width chain.now (length row.now)) made.now }
    requires each { length states.old.items ≡ length made.now }
    ensures { OnOk result (SeenMore (λ rows. AreStates made.now (chain_rows chain.now rows)) (λ states. length states ≡ length made.now) row.now states.old.items states.new.items) }
{
    let rows = run_chain(alloc, chain, row)?;
    add_rows(alloc, states, made, rows.as_slice())
}

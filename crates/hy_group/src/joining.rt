//! Rows that were handed on, whose states are joined.

ghost use Rattle.std.specs.Prelude.{◌≡◌, List, [], ◌∷◌, ◌++◌, map, drop, IfOk, OnOk};
ghost use Rattle.al_value.specs.declared.value.Value.{Value as Cell};
ghost use Rattle.al_agg.specs.Part as part;
ghost use Rattle.hy_job.specs.Columns as spec;
ghost use Rattle.hy_job.specs.Nested.{root_aggs};
ghost use Rattle.hy_group.specs.Joining.{HasJoined, HaveJoined, kinds};

use crate::folding::Folding;
use al_agg::{Agg, Part, PartFault, get_part, join, width};
use al_value::{NoMemory, Row, Value};
use hy_job::{AggRex, GroupArg, NestedPlan, agg_of, start_states};
use std::alloc::Global;

/// Joins the states whose fields stand behind the key in the rows that are handed on. Fields of no
/// state are those of a state that has seen no value.
#[derive(Drop)]
pub(crate) struct HandedRows<'a> {
    pub arg: &'a GroupArg,
}

impl<'a> Folding for HandedRows<'a> {
    ghost use Rattle.hy_group.specs.Joining.{handed_sees, kinds_of};

    ghost sees = { λ f. handed_sees f.arg.now };

    ghost right = { λ f states. kinds states ≡ kinds_of f.arg.now };

    ghost fits = { λ f width. Unit {0} };

    fn start(&self, alloc: Global) -> Result<Vec<Part>, NoMemory> {
        match &self.arg.nested {
            Some(plan) => start_plan(alloc, plan),
            None => Ok(Vec::new(alloc)),
        }
    }

    fn add(&self, alloc: Global, states: &mut Vec<Part>, row: &Row) -> Result<(), NoMemory> {
        let fields = behind(row.as_slice(), self.arg.keys.len());
        match &self.arg.nested {
            Some(plan) => join_plan(alloc, plan, states, fields),
            None => Ok(()),
        }
    }
}

/// What is left of a list behind so many items.
fn behind(items: &[Value], n: usize) -> &[Value]
    ensures { result.now ≡ drop n items.now }
{
    &items[n.min(items.len())..]
}

/// The aggregates of a nested plan's root, each without a value.
#[tactic(auto, unfolding(crate::specs::Opens::nested_shape, crate::specs::Opens::nested_hidden, crate::specs::Opens::row_hidden))]
fn start_plan(alloc: Global, plan: &NestedPlan) -> Result<Vec<Part>, NoMemory>
    ensures seen { IfOk result (λ states. HaveJoined (map spec.agg_of (root_aggs plan.now)) [] states.items) }
    ensures right { IfOk result (λ states. kinds states.items ≡ map spec.agg_of (root_aggs plan.now)) }
{
    match plan {
        NestedPlan::Aggregate { made, .. } => start_joined(alloc, made.as_slice()),
        _ => Ok(Vec::new(alloc)),
    }
}

/// A state for each aggregate, without a value.
#[tactic(auto, using(crate::proofs::JoinLaws::join_laws))]
fn start_joined(alloc: Global, made: &[AggRex]) -> Result<Vec<Part>, NoMemory>
    ensures seen { IfOk result (λ states. HaveJoined (map spec.agg_of made.now) [] states.items) }
    ensures right { IfOk result (λ states. kinds states.items ≡ map spec.agg_of made.now) }
{
    start_states(alloc, made)
}

/// Joins the fields of a row to the states of a nested plan's aggregates.
#[tactic(auto, unfolding(crate::specs::Opens::nested_shape, crate::specs::Opens::nested_hidden, crate::specs::Opens::row_hidden))]
fn join_plan(
    alloc: Global,
    plan: &NestedPlan,
    states: &mut Vec<Part>,
    fields: &[Value],
) -> Result<(), NoMemory>
    requires { kinds states.old.items ≡ map spec.agg_of (root_aggs plan.now) }
    ensures right { OnOk result (kinds states.new.items ≡ map spec.agg_of (root_aggs plan.now)) }
    ensures seen { OnOk result ((rows : List (List Cell)) → HaveJoined (map spec.agg_of (root_aggs plan.now)) rows states.old.items → HaveJoined (map spec.agg_of (root_aggs plan.now)) (rows ++ fields.now ∷ []) states.new.items) }
{
    match plan {
        NestedPlan::Aggregate { made, .. } => join_fields(alloc, made.as_slice(), states, fields),
        _ => Ok(()),
    }
}

/// Joins fields to the state of each aggregate, those of one behind those of the other. Where memory
/// runs out, some states are joined.
#[tactic(auto, using(crate::proofs::JoinLaws::join_laws))]
fn join_fields(
    alloc: Global,
    made: &[AggRex],
    states: &mut Vec<Part>,
    fields: &[Value],
) -> Result<(), NoMemory>
    requires { kinds states.old.items ≡ map spec.agg_of made.now }
    ensures right { OnOk result (kinds states.new.items ≡ map spec.agg_of made.now) }
    ensures seen { OnOk result ((rows : List (List Cell)) → HaveJoined (map spec.agg_of made.now) rows states.old.items → HaveJoined (map spec.agg_of made.now) (rows ++ fields.now ∷ []) states.new.items) }
{
    let mut left = fields;
    for j in 0..made.len() {
        let a = agg_of(&made[j]);
        let (own, more) = left.split_at((width(a) as usize).min(left.len()));
        join_part(alloc, a, &mut states[j], own)?;
        left = more;
    }
    Ok(())
}

/// Joins the state that has these fields. Fields of no state add nothing.
fn join_part(alloc: Global, a: Agg, p: &mut Part, fields: &[Value]) -> Result<(), NoMemory>
    requires { part.agg_of p.old ≡ a }
    ensures kind { part.agg_of p.new ≡ a }
    ensures joined { OnOk result ((before : List (List Cell)) → HasJoined a before p.old → HasJoined a (before ++ fields.now ∷ []) p.new) }
{
    match get_part(alloc, a, fields) {
        Ok(other) => {
            join(p, other);
            Ok(())
        }
        Err(PartFault::NotPart) => Ok(()),
        Err(PartFault::NoMemory) => Err(NoMemory),
    }
}

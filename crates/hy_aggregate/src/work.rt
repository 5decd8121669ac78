//! What aggregates without keys do with rows.

ghost use Rattle.std.specs.Prelude.{◌≡◌, ◌≤◌, ◌++◌, ◌∷◌, [], List, length, map, true, IfOk, OnOk};
ghost use Rattle.std.specs.List.{AllZip, flat_map, sum_by};
ghost use Rattle.al_value.specs.declared.value.Value.{Value as Cell};
ghost use Rattle.al_value.specs.Value.{IsValue};
ghost use Rattle.al_agg.specs.Agg.{agg};
ghost use Rattle.al_agg.specs.Part as spec;
ghost use Rattle.hy_driver.specs.Rows.{AreValues};
ghost use Rattle.hy_frame.specs.Row.{Fields};
ghost use Rattle.hy_job.specs.Drivers.{has_last};
ghost use Rattle.hy_job.specs.Runs.{StandFor};
ghost use Rattle.hy_store.specs.Fields.{fields_of};
ghost use Rattle.hy_aggregate.specs.Joined.{HaveJoined};
ghost use Rattle.hy_aggregate.specs.Work.{HaveTaken, IsLast, IsReached, Reads, arity_of, kind_of};

use al_agg::{Agg, Part, PartFault, finish, get_part, join, put_part, start, width};
use al_value::{List, NoMemory, Row, Value};
use hy_frame::{MAX_FIELDS, RowBuf};
use hy_job::{AggRex, add_row, start_states};
use hy_rows::put_row;
use std::alloc::Global;

/// What aggregates without keys are worked out of, by their activity's kind.
#[derive(Drop)]
pub enum AggWork {
    /// The fields of their partial states over the rows that come.
    Part { made: List<AggRex> },
    /// Their values over what rows of such fields stand for.
    Final { made: List<Agg> },
}

impl AggWork {
    /// Whether a row comes of it in a partition.
    pub(crate) fn gives(&self, partition: u32) -> bool
        ensures { result ≡ has_last (kind_of self.now) partition }
    {
        match self {
            AggWork::Part { .. } => true,
            AggWork::Final { .. } => partition == 0,
        }
    }

    /// The states that have taken no row.
    pub(crate) fn start(&self, alloc: Global) -> Result<Vec<Part>, NoMemory>
        ensures { IfOk result (λ states. HaveTaken self.now [] states.items) }
    {
        match self {
            AggWork::Part { made } => start_states(alloc, made.as_slice()),
            AggWork::Final { made } => start_joined(alloc, made.as_slice()),
        }
    }

    /// Takes a row. Where memory runs out, some of the states have taken it.
    #[tactic(auto, using(crate::proofs::Lasting::kinds_reached, crate::proofs::Lasting::as_many_reached))]
    pub(crate) fn take_row(
        &self,
        alloc: Global,
        states: &mut Vec<Part>,
        row: &[Value],
    ) -> Result<(), NoMemory>
        requires reads { Reads self.now (length row.now) }
        requires reached { IsReached self.now true states.old.items }
        ensures { OnOk result ((rows : List (List Cell)) → HaveTaken self.now rows states.old.items
            → HaveTaken self.now (rows ++ row.now ∷ []) states.new.items) }
    {
        match self {
            AggWork::Part { made } => add_row(alloc, states, made.as_slice(), row),
            AggWork::Final { made } => {
                are_values(row);
                join_row(alloc, states, made.as_slice(), row)
            }
        }
    }

    /// The row that comes of the rows that the states have taken.
    #[tactic(auto, using(crate::proofs::Lasting::last_laws))]
    pub(crate) fn last_row(&self, alloc: Global, states: Vec<Part>) -> Result<Row, NoMemory>
        requires reached { IsReached self.now true states.items }
        ensures last { IfOk result (λ row. (rows : List (List Cell)) → HaveTaken self.now rows states.items → IsLast self.now rows row) }
        ensures wide { IfOk result (λ row. length row ≡ arity_of self.now) }
    {
        match self {
            AggWork::Part { .. } => state_fields(alloc, states.as_slice()),
            AggWork::Final { .. } => agg_values(alloc, states),
        }
    }
}

/// Tells that a row is of values, as each is. It does nothing.
fn are_values(row: &[Value])
    ensures { AreValues row.now }
{
    for v in row {
        is_value(v);
    }
}

/// Tells that a value is one, as each is. It does nothing.
fn is_value(v: &Value)
    ensures { IsValue v.now }
{
    match v {
        Value::Null | Value::Bool(_) => {}
        Value::Int(n) => {
            let _number = *n;
        }
        Value::Text(text) => {
            text.as_str();
        }
    }
}

/// A state for each aggregate, which stands for no row of states.
fn start_joined(alloc: Global, made: &[Agg]) -> Result<Vec<Part>, NoMemory>
    ensures { IfOk result (λ states. HaveJoined made.now [] states.items) }
{
    let mut states = Vec::new(alloc);
    for a in made {
        states.push(start(*a))?;
    }
    Ok(states)
}

/// The state with these fields, and for fields of no state the one that has seen no value.
fn part_of(alloc: Global, a: Agg, fields: &[Value]) -> Result<Part, NoMemory>
    requires values { AreValues fields.now }
    ensures aggregate { IfOk result (λ p. spec.agg_of p ≡ a) }
    ensures some { IfOk result (λ p. (vs : List Cell) × StandFor a fields.now vs) }
    ensures each { IfOk result (λ p. (vs : List Cell) → StandFor a fields.now vs → spec.Stands p vs) }
{
    match get_part(alloc, a, fields) {
        Ok(p) => Ok(p),
        Err(PartFault::NotPart) => Ok(start(a)),
        Err(PartFault::NoMemory) => Err(NoMemory),
    }
}

/// Joins to each state the one whose fields stand in the row. Where memory runs out, some of them
/// are joined.
fn join_row(
    alloc: Global,
    states: &mut Vec<Part>,
    made: &[Agg],
    row: &[Value],
) -> Result<(), NoMemory>
    requires kinds { map spec.agg_of states.old.items ≡ made.now }
    requires values { AreValues row.now }
    requires wide { length row.now ≡ sum_by spec.width made.now }
    ensures { OnOk result ((rows : List (List Cell)) → HaveJoined made.now rows states.old.items
        → HaveJoined made.now (rows ++ row.now ∷ []) states.new.items) }
{
    let mut at = 0;
    for j in 0..made.len() {
        let end = at + width(made[j]) as usize;
        let part = part_of(alloc, made[j], &row[at..end])?;
        join(&mut states[j], part);
        at = end;
    }
    Ok(())
}

/// The fields of the states, one state after the other.
fn state_fields(alloc: Global, states: &[Part]) -> Result<Row, NoMemory>
    ensures { IfOk result (λ row. row ≡ flat_map spec.part_fields states.now) }
{
    let mut row = Row::new(alloc);
    for part in states {
        put_part(alloc, part, &mut row)?;
    }
    Ok(row)
}

/// The aggregates over the values that the states have seen.
fn agg_values(alloc: Global, states: Vec<Part>) -> Result<Row, NoMemory>
    ensures { IfOk result (AllZip (λ p v. (vs : List Cell) → spec.Stands p vs → v ≡ agg (spec.agg_of p) vs) states.items) }
{
    let mut row = Row::new(alloc);
    for part in states {
        row.push(finish(part))?;
    }
    Ok(row)
}

/// Puts a row in place of what is there.
pub(crate) fn give_row(alloc: Global, row: &[Value], out: &mut RowBuf) -> Result<(), NoMemory>
    requires few { length row.now ≤ MAX_FIELDS }
    ensures values { OnOk result (AreValues row.now) }
    ensures fields { OnOk result (fields_of row.now ≡ out.new) }
{
    put_row(alloc, row, out)?;
    // What is read again shows that these are fields of values.
    let _fields = out.as_row();
    Ok(())
}

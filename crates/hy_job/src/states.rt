ghost use Rattle.std.specs.Prelude.{◌≡◌, ◌∷◌, [], ◌++◌, List, IfOk, OnOk, length};
ghost use Rattle.std.specs.List.{All};
ghost use Rattle.al_value.specs.declared.value.Value.{Value as Cell};
ghost use Rattle.hy_job.specs.Columns as spec;
ghost use Rattle.hy_job.specs.Sound.{AreSound, AreSoundAggs, agg_exprs};
ghost use Rattle.hy_job.specs.StateCases.{BothAreSeen, EachHasState, NullIsPassedOver, StatesStandInOrder};
ghost use Rattle.hy_job.specs.States.{AreStates, agg_input};

use crate::nested::AggRex;
use al_agg::{Agg, Part, add, finish, put_part, start};
use al_func::eval_rex;
use al_value::{NoMemory, Row, Value};
use std::alloc::Global;

/// Which aggregate a call is of.
pub fn agg_of(call: &AggRex) -> Agg
    ensures { result ≡ spec.agg_of call.now }
{
    match call {
        AggRex::CountAll => Agg::CountAll,
        AggRex::Count(_) => Agg::Count,
        AggRex::Sum(_) => Agg::Sum,
        AggRex::Min(_) => Agg::Min,
        AggRex::Max(_) => Agg::Max,
    }
}

/// The value of a row over which an aggregate is taken. Counting all rows looks at none.
fn agg_input(alloc: Global, call: &AggRex, row: &[Value]) -> Result<Value, NoMemory>
    requires { AreSound (length row.now) (agg_exprs call.now) }
    ensures { IfOk result (λ v. v ≡ agg_input call.now row.now) }
{
    match call {
        AggRex::CountAll => Ok(Value::Null),
        AggRex::Count(e) | AggRex::Sum(e) | AggRex::Min(e) | AggRex::Max(e) => {
            eval_rex(alloc, e, row)
        }
    }
}

/// A state for each aggregate, which has seen no row.
pub fn start_states(alloc: Global, made: &[AggRex]) -> Result<Vec<Part>, NoMemory>
    ensures { IfOk result (λ states. AreStates made.now [] states.items) }
{
    let mut states = Vec::new(alloc);
    for call in made {
        states.push(start(agg_of(call)))?;
    }
    Ok(states)
}

/// Adds a row to each state. Where memory runs out, some states have seen it.
pub fn add_row(
    alloc: Global,
    states: &mut Vec<Part>,
    made: &[AggRex],
    row: &[Value],
) -> Result<(), NoMemory>
    requires sound { AreSoundAggs (length row.now) made.now }
    requires each { length states.old.items ≡ length made.now }
    ensures each { length states.new.items ≡ length made.now }
    ensures added { OnOk result ((rows : List (List Cell)) → AreStates made.now rows states.old.items
        → AreStates made.now (rows ++ row.now ∷ []) states.new.items) }
{
    for j in 0..made.len() {
        let v = agg_input(alloc, &made[j], row)?;
        add(alloc, &mut states[j], &v)?;
    }
    Ok(())
}

/// Adds each of the rows. Where memory runs out, some states have seen some of them.
pub fn add_rows(
    alloc: Global,
    states: &mut Vec<Part>,
    made: &[AggRex],
    more: &[Row],
) -> Result<(), NoMemory>
    requires sound { All (λ row. AreSoundAggs (length row) made.now) more.now }
    requires each { length states.old.items ≡ length made.now }
    ensures each { length states.new.items ≡ length made.now }
    ensures added { OnOk result ((rows : List (List Cell)) → AreStates made.now rows states.old.items
        → AreStates made.now (rows ++ more.now) states.new.items) }
{
    for row in more {
        add_row(alloc, states, made, row.as_slice())?;
    }
    Ok(())
}

/// Puts the fields of the states behind a row. Where memory runs out, some of them are there.
pub fn put_states(alloc: Global, states: &[Part], out: &mut Row) -> Result<(), NoMemory>
    ensures { OnOk result ((made : List AggRex) (rows : List (List Cell))
        → AreStates made rows states.now → out.new ≡ out.old ++ spec.state_row made rows) }
{
    for part in states {
        put_part(alloc, part, out)?;
    }
    Ok(())
}

/// The row of the aggregates' values over the rows that the states have seen.
pub fn finish_states(alloc: Global, states: Vec<Part>) -> Result<Row, NoMemory>
    ensures { IfOk result (λ row. (made : List AggRex) (rows : List (List Cell))
        → AreStates made rows states.items → row ≡ spec.agg_row made rows) }
{
    let mut row = Row::new(alloc);
    for part in states {
        row.push(finish(part))?;
    }
    Ok(row)
}

/// The row of the aggregates' values over the rows.
pub fn agg_row(alloc: Global, made: &[AggRex], rows: &[Row]) -> Result<Row, NoMemory>
    requires { All (λ row. AreSoundAggs (length row) made.now) rows.now }
    ensures { IfOk result (λ row. row ≡ spec.agg_row made.now rows.now) }
{
    let mut states = start_states(alloc, made)?;
    add_rows(alloc, &mut states, made, rows)?;
    finish_states(alloc, states)
}

/// Which states have seen which rows. It does nothing: its clauses are worked cases.
pub fn state_cases()
    ensures seen { BothAreSeen }
    ensures null { NullIsPassedOver }
    ensures in_order { StatesStandInOrder }
    ensures each { EachHasState }
{}

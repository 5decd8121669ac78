ghost use Rattle.std.specs.Prelude.{◌≡◌, ◌↔◌, ◌∷◌, [], ◌++◌, List, length, All, IfOk, OnOk, OnErr, IsErrOf, IfSome, IsTrue, FitsSigned, pos};
ghost use Rattle.std.specs.Int.{w128};
ghost use Rattle.al_value.specs.declared.value.Value.{Value as Cell};
ghost use Rattle.al_value.specs.declared.value.Value.TheVariants as V;
ghost use Rattle.al_value.specs.Value.{IsValue};
ghost use Rattle.al_agg.specs.Agg.{agg};
ghost use Rattle.al_agg.specs.Part as spec;

use crate::agg::Agg;
use crate::extreme::{join_greater, join_lesser, keep_greater, keep_lesser};
use crate::number::{
    add_to_count, add_to_sum, from_halves, high_half, int_or_null, joined_sums, low_half, next,
    wrapping_sum,
};
use crate::state::State;
use al_value::{NoMemory, Row, Value};
use std::alloc::Global;

/// Why fields are not read as a partial state.
#[derive(Clone, Copy, Debug, PartialEq, Eq)]
pub enum PartFault {
    NotPart,
    NoMemory,
}

impl From<NoMemory> for PartFault {
    ghost use Rattle.al_agg.specs.declared.part.PartFault.TheVariants as fault;

    ghost from_gives = { λ _ e. e ≡ fault.NoMemory };

    fn from(_e: NoMemory) -> PartFault {
        PartFault::NoMemory
    }
}

/// A partial state of an aggregate. It keeps which aggregate it is of.
#[derive(Debug, Drop)]
pub struct Part {
    state: State,
}

/// The state of an aggregate that has seen no value.
#[tactic(auto, unfolding(crate::specs::Part::Stands, crate::specs::Part::agg_of))]
pub fn start(a: Agg) -> Part
    ensures aggregate { spec.agg_of result ≡ a }
    ensures none { spec.Stands result [] }
{
    let state = match a {
        Agg::CountAll => State::CountAll(0),
        Agg::Count => State::Count(0),
        Agg::Sum => State::Sum(None),
        Agg::Min => State::Min(Value::Null),
        Agg::Max => State::Max(Value::Null),
    };
    Part { state }
}

/// Adds one value.
#[tactic(auto, using(crate::proofs::PartLaws::add_laws), unfolding(crate::specs::Part::Stands, crate::specs::Part::agg_of))]
pub fn add(alloc: Global, p: &mut Part, v: &Value) -> Result<(), NoMemory>
    ensures aggregate { spec.agg_of p.new ≡ spec.agg_of p.old }
    ensures ok { OnOk result ((vs : List Cell) → spec.Stands p.old vs → spec.Stands p.new (vs ++ v.now ∷ [])) }
    ensures err { OnErr result (p.new ≡ p.old) }
{
    match &mut p.state {
        State::CountAll(n) => *n = next(*n),
        State::Count(n) => add_to_count(n, v),
        State::Sum(sum) => add_to_sum(sum, v),
        State::Min(least) => keep_lesser(alloc, least, v)?,
        State::Max(greatest) => keep_greater(alloc, greatest, v)?,
    }
    Ok(())
}

/// Adds the values of another state of the same aggregate.
#[tactic(auto, using(crate::proofs::PartLaws::join_laws), unfolding(crate::specs::Part::Stands, crate::specs::Part::agg_of))]
pub fn join(p: &mut Part, q: Part)
    requires { spec.agg_of p.old ≡ spec.agg_of q }
    ensures aggregate { spec.agg_of p.new ≡ spec.agg_of p.old }
    ensures both { (vs ws : List Cell) → spec.Stands p.old vs → spec.Stands q ws → spec.Stands p.new (vs ++ ws) }
{
    match (&mut p.state, q.state) {
        (State::CountAll(n), State::CountAll(more)) => *n = wrapping_sum(*n, more),
        (State::Count(n), State::Count(more)) => *n = wrapping_sum(*n, more),
        (State::Sum(sum), State::Sum(other)) => *sum = joined_sums(*sum, other),
        (State::Min(least), State::Min(other)) => join_lesser(least, other),
        (State::Max(greatest), State::Max(other)) => join_greater(greatest, other),
        _ => unreachable!(),
    }
}

/// The aggregate over the values that the state has seen.
#[tactic(auto, unfolding(crate::specs::Part::Stands, crate::specs::Part::agg_of, crate::specs::Agg::agg))]
pub fn finish(p: Part) -> Value
    ensures { (vs : List Cell) → spec.Stands p vs → result ≡ agg (spec.agg_of p) vs }
{
    match p.state {
        State::CountAll(n) | State::Count(n) | State::Sum(Some(n)) => int_or_null(n),
        State::Sum(None) => Value::Null,
        State::Min(v) | State::Max(v) => v,
    }
}

/// The number of fields that a state of this aggregate has in a row.
#[tactic(auto, unfolding(crate::specs::Part::state_fields))]
pub fn width(a: Agg) -> u32
    ensures table { result ≡ spec.width a }
    ensures fields { (vs : List Cell) → length (spec.state_fields a vs) ≡ result }
    ensures state { (vs : List Cell) → All IsValue vs → spec.IsState a (spec.state_fields a vs) }
{
    match a {
        Agg::CountAll | Agg::Count => 2,
        Agg::Sum => 3,
        Agg::Min | Agg::Max => 1,
    }
}

/// Appends the fields of a state. Where memory runs out, the row holds some of them.
#[tactic(auto, using(crate::proofs::FieldLaws::part_width), unfolding(crate::specs::Part::part_fields))]
pub fn put_part(alloc: Global, p: &Part, out: &mut Row) -> Result<(), NoMemory>
    ensures ok { OnOk result (out.new ≡ out.old ++ spec.part_fields p.now) }
    ensures err { OnErr result (spec.GainsSome out.old out.new (spec.part_fields p.now)) }

    ensures lists { spec.StandsByFields (spec.agg_of p.now) (spec.part_fields p.now) p.now }
    ensures width { length (spec.part_fields p.now) ≡ spec.width (spec.agg_of p.now) }
    ensures state { spec.IsState (spec.agg_of p.now) (spec.part_fields p.now) }
{
    match &p.state {
        State::CountAll(n) | State::Count(n) => put_number(*n, out),
        State::Sum(sum) => put_sum(*sum, out),
        State::Min(v) | State::Max(v) => out.push(v.copy(alloc)?),
    }
}

/// Appends the two halves of a number.
fn put_number(n: i128, out: &mut Row) -> Result<(), NoMemory>
    ensures ok { OnOk result (out.new ≡ out.old ++ spec.halves n) }
    ensures err { OnErr result (spec.GainsSome out.old out.new (spec.halves n)) }
    ensures fits { FitsSigned w128 n }
{
    out.push(Value::Int(high_half(n)))?;
    out.push(Value::Int(low_half(n)))
}

/// Appends whether there was an int, and the two halves of the sum.
fn put_sum(sum: Option<i128>, out: &mut Row) -> Result<(), NoMemory>
    ensures ok { OnOk result (out.new ≡ out.old ++ spec.sum_fields sum) }
    ensures err { OnErr result (spec.GainsSome out.old out.new (spec.sum_fields sum)) }
    ensures fits { IfSome sum (FitsSigned w128) }
{
    out.push(Value::Bool(sum.is_some()))?;
    put_number(sum.unwrap_or(0), out)
}

/// Reads a state of the aggregate from its fields.
#[tactic(auto, unfolding(crate::specs::Part::part_fields, crate::specs::Part::agg_of, crate::specs::Part::IsState))]
pub fn get_part(alloc: Global, a: Agg, fields: &[Value]) -> Result<Part, PartFault>
    ensures aggregate { IfOk result (λ p. spec.agg_of p ≡ a) }
    ensures fields { IfOk result (λ p. spec.part_fields p ≡ fields.now) }
    ensures lists { IfOk result (spec.StandsByFields a fields.now) }
    ensures state { OnOk result (spec.IsState a fields.now) }
    ensures not_part { IsErrOf result PartFault.NotPart ↔ ¬ spec.IsState a fields.now }
{
    let state = match a {
        Agg::CountAll => State::CountAll(get_number(fields)?),
        Agg::Count => State::Count(get_number(fields)?),
        Agg::Sum => State::Sum(get_sum(fields)?),
        Agg::Min => State::Min(get_value(alloc, fields)?),
        Agg::Max => State::Max(get_value(alloc, fields)?),
    };
    Ok(Part { state })
}

/// Reads a number from its two halves.
fn get_number(fields: &[Value]) -> Result<i128, PartFault>
    ensures number { IfOk result (λ n. spec.halves n ≡ fields.now) }
    ensures fits { IfOk result (λ n. FitsSigned w128 n) }
    ensures state { OnOk result (spec.AreHalves fields.now) }
    ensures not_part { IsErrOf result PartFault.NotPart ↔ ¬ spec.AreHalves fields.now }
{
    match fields {
        [Value::Int(high), Value::Int(low)] => Ok(from_halves(*high, *low)),
        _ => Err(PartFault::NotPart),
    }
}

/// Whether the fields are the two halves of 0.
fn are_zero(fields: &[Value]) -> bool
    ensures { IsTrue result ↔ (fields.now ≡ V.Int (pos 0) ∷ V.Int (pos 0) ∷ []) }
{
    matches!(fields, [Value::Int(0), Value::Int(0)])
}

/// Reads the sum of ints, if there were any.
#[tactic(auto, using(crate::proofs::HalfLaws::zero_laws))]
fn get_sum(fields: &[Value]) -> Result<Option<i128>, PartFault>
    ensures sum { IfOk result (λ sum. spec.sum_fields sum ≡ fields.now) }
    ensures fits { IfOk result (λ sum. IfSome sum (FitsSigned w128)) }
    ensures state { OnOk result (spec.IsSumState fields.now) }
    ensures not_part { IsErrOf result PartFault.NotPart ↔ ¬ spec.IsSumState fields.now }
{
    match fields {
        [Value::Bool(true), halves @ ..] => Ok(Some(get_number(halves)?)),
        [Value::Bool(false), halves @ ..] if are_zero(halves) => Ok(None),
        _ => Err(PartFault::NotPart),
    }
}

/// Reads the one field that is a value.
fn get_value(alloc: Global, fields: &[Value]) -> Result<Value, PartFault>
    ensures value { IfOk result (λ v. v ∷ [] ≡ fields.now) }
    ensures valid { IfOk result (λ v. IsValue v) }
    ensures state { OnOk result (spec.IsOneValue fields.now) }
    ensures not_part { IsErrOf result PartFault.NotPart ↔ ¬ spec.IsOneValue fields.now }
{
    match fields {
        [v] => Ok(v.copy(alloc)?),
        _ => Err(PartFault::NotPart),
    }
}

ghost use Rattle.std.specs.Prelude.{◌≡◌, IfOk, pos, ◌-ℤ◌, map, ◌≤◌, length, ◌<◌};
ghost use Rattle.al_value.specs.Text.{IsText};
ghost use Rattle.al_func.specs.Items as spec;

use crate::texts::text_or_null;
use al_value::{List, NoMemory, Value};
use std::alloc::Global;

/// The most items of a range.
const MAX_RANGE: i64 = 10000;

/// How many ints there are from `a` to `b`, and 0 where that is more than `MAX_RANGE`.
fn range_count(a: i64, b: i64) -> u32
    ensures { result ≡ spec.span (b -ℤ a) }
{
    match b.checked_sub(a) {
        Some(distance) if 0 <= distance && distance < MAX_RANGE => distance as u32 + 1,
        _ => 0,
    }
}

fn ints_between(alloc: Global, a: i64, b: i64) -> Result<List<Value>, NoMemory>
    ensures { IfOk result (λ items. items ≡ spec.ints_from a (spec.span (b -ℤ a))) }
{
    let mut items = List::new(alloc);
    for k in 0..range_count(a, b) {
        items.push(Value::Int(a + i64::from(k)))?;
    }
    Ok(items)
}

/// The ints from `a` to `b`: none where one is no int, where `a` is above `b`, or where there are
/// more than 10,000.
pub fn range_items(alloc: Global, a: &Value, b: &Value) -> Result<List<Value>, NoMemory>
    ensures { IfOk result (λ items. items ≡ spec.range a.now b.now) }
{
    match (a, b) {
        (Value::Int(a), Value::Int(b)) => ints_between(alloc, *a, *b),
        _ => Ok(List::new(alloc)),
    }
}

fn split_text(alloc: Global, text: &str, separator: &str) -> Result<List<Value>, NoMemory>
    requires text { IsText text.now }
    requires separator { 0 < length separator.now }
    ensures { IfOk result (λ items. items ≡ map Value.Text (spec.pieces separator.now 0 text.now)) }
{
    let mut items = List::new(alloc);
    let mut rest = text;
    while let Some((piece, tail)) = rest.split_once(separator) {
        items.push(text_or_null(alloc, piece)?)?;
        rest = tail;
    }
    items.push(text_or_null(alloc, rest)?)?;
    Ok(items)
}

/// The pieces of a text between the occurrences of another, which are found from the left.
pub fn split_items(alloc: Global, t: &Value, s: &Value) -> Result<List<Value>, NoMemory>
    ensures { IfOk result (λ items. items ≡ spec.split t.now s.now) }
{
    match (t, s) {
        (Value::Text(text), Value::Text(separator)) => {
            if separator.as_str().is_empty() {
                let mut items = List::new(alloc);
                items.push(t.copy(alloc)?)?;
                return Ok(items);
            }
            split_text(alloc, text.as_str(), separator.as_str())
        }
        _ => Ok(List::new(alloc)),
    }
}

ghost use Rattle.std.specs.Prelude.{◌≡◌, ◌↔◌, IfOk, IsTrue, Bool, true};
ghost use Rattle.al_func.specs.Func as spec;

use al_value::{NoMemory, Value, cmp_values, eq3};
use std::alloc::Global;
use std::cmp::Ordering;

fn truth(answer: Option<bool>) -> Value
    ensures { result ≡ spec.truth answer }
{
    match answer {
        Some(b) => Value::Bool(b),
        None => Value::Null,
    }
}

/// The order of two values of one kind that are not NULL.
fn order3(a: &Value, b: &Value) -> Option<Ordering>
    ensures { result ≡ spec.order3 a.now b.now }
{
    match (a, b) {
        (Value::Bool(_), Value::Bool(_)) => Some(cmp_values(a, b)),
        (Value::Int(_), Value::Int(_)) => Some(cmp_values(a, b)),
        (Value::Text(_), Value::Text(_)) => Some(cmp_values(a, b)),
        _ => None,
    }
}

pub fn equal(a: &Value, b: &Value) -> Value
    ensures { result ≡ spec.equal a.now b.now }
{
    truth(eq3(a, b))
}

pub fn less(a: &Value, b: &Value) -> Value
    ensures { result ≡ spec.less a.now b.now }
{
    match order3(a, b) {
        Some(order) => Value::Bool(order == Ordering::Less),
        None => Value::Null,
    }
}

pub fn at_most(a: &Value, b: &Value) -> Value
    ensures { result ≡ spec.at_most a.now b.now }
{
    match order3(a, b) {
        Some(order) => Value::Bool(order != Ordering::Greater),
        None => Value::Null,
    }
}

pub fn and(a: &Value, b: &Value) -> Value
    ensures { result ≡ spec.and3 a.now b.now }
{
    match (a, b) {
        (Value::Bool(false), _) | (_, Value::Bool(false)) => Value::Bool(false),
        (Value::Bool(true), Value::Bool(true)) => Value::Bool(true),
        _ => Value::Null,
    }
}

pub fn or(a: &Value, b: &Value) -> Value
    ensures { result ≡ spec.or3 a.now b.now }
{
    match (a, b) {
        (Value::Bool(true), _) | (_, Value::Bool(true)) => Value::Bool(true),
        (Value::Bool(false), Value::Bool(false)) => Value::Bool(false),
        _ => Value::Null,
    }
}

pub fn not(a: &Value) -> Value
    ensures { result ≡ spec.not3 a.now }
{
    match a {
        Value::Bool(b) => Value::Bool(!*b),
        _ => Value::Null,
    }
}

pub fn is_null(a: &Value) -> Value
    ensures { result ≡ Value.Bool (spec.is_null a.now) }
{
    match a {
        Value::Null => Value::Bool(true),
        _ => Value::Bool(false),
    }
}

/// A copy of `a` where the condition is TRUE, else of `b`.
pub fn choose(alloc: Global, condition: &Value, a: &Value, b: &Value) -> Result<Value, NoMemory>
    ensures { IfOk result (λ v. v ≡ spec.chosen condition.now a.now b.now) }
{
    match condition {
        Value::Bool(true) => a.copy(alloc),
        _ => b.copy(alloc),
    }
}

/// A copy of `a` unless it is NULL, else of `b`.
pub fn coalesce(alloc: Global, a: &Value, b: &Value) -> Result<Value, NoMemory>
    ensures { IfOk result (λ v. v ≡ spec.coalesce a.now b.now) }
{
    match a {
        Value::Null => b.copy(alloc),
        _ => a.copy(alloc),
    }
}

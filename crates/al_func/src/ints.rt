ghost use Rattle.std.specs.Prelude.{◌≡◌, MatchOption};
ghost use Rattle.al_func.specs.Func as spec;

use al_value::Value;

fn int_or_null(n: Option<i64>) -> Value
    ensures { MatchOption n (result ≡ Value.Null) (λ z. result ≡ Value.Int z) }
{
    match n {
        Some(n) => Value::Int(n),
        None => Value::Null,
    }
}

pub fn add(a: &Value, b: &Value) -> Value
    ensures { result ≡ spec.add a.now b.now }
{
    match (a, b) {
        (Value::Int(a), Value::Int(b)) => int_or_null(a.checked_add(*b)),
        _ => Value::Null,
    }
}

pub fn sub(a: &Value, b: &Value) -> Value
    ensures { result ≡ spec.sub a.now b.now }
{
    match (a, b) {
        (Value::Int(a), Value::Int(b)) => int_or_null(a.checked_sub(*b)),
        _ => Value::Null,
    }
}

pub fn mul(a: &Value, b: &Value) -> Value
    ensures { result ≡ spec.mul a.now b.now }
{
    match (a, b) {
        (Value::Int(a), Value::Int(b)) => int_or_null(a.checked_mul(*b)),
        _ => Value::Null,
    }
}

pub fn div(a: &Value, b: &Value) -> Value
    ensures { result ≡ spec.div a.now b.now }
{
    match (a, b) {
        (Value::Int(a), Value::Int(b)) => int_or_null(a.checked_div(*b)),
        _ => Value::Null,
    }
}

pub fn modulo(a: &Value, b: &Value) -> Value
    ensures { result ≡ spec.modulo a.now b.now }
{
    match (a, b) {
        (Value::Int(a), Value::Int(b)) => int_or_null(a.checked_rem(*b)),
        _ => Value::Null,
    }
}

pub fn neg(a: &Value) -> Value
    ensures { result ≡ spec.neg a.now }
{
    match a {
        Value::Int(a) => int_or_null(a.checked_neg()),
        _ => Value::Null,
    }
}

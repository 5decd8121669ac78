ghost use Rattle.std.specs.Prelude.{◌≡◌, ◌≤◌, IfOk, length, string_bytes};
ghost use Rattle.std.specs.Str.{chars};
ghost use Rattle.al_value.specs.Text.{IsText};
ghost use Rattle.al_func.specs.Func as spec;

use al_value::{NoMemory, Text, TextFault, Value};
use std::alloc::Global;

/// A text as a value, or NULL where it is too long.
pub fn text_or_null(alloc: Global, s: &str) -> Result<Value, NoMemory>
    ensures { IfOk result (λ v. v ≡ spec.fitted_text s.now) }
{
    match Text::new(alloc, s) {
        Ok(text) => Ok(Value::Text(text)),
        Err(TextFault::TooLong) => Ok(Value::Null),
        Err(TextFault::NoMemory) => Err(NoMemory),
    }
}

pub fn concat(alloc: Global, a: &Value, b: &Value) -> Result<Value, NoMemory>
    ensures { IfOk result (λ v. v ≡ spec.concat a.now b.now) }
{
    match (a, b) {
        (Value::Text(a), Value::Text(b)) => {
            let mut joined = String::from_str(alloc, a.as_str())?;
            joined.push_str(b.as_str())?;
            text_or_null(alloc, joined.as_str())
        }
        _ => Ok(Value::Null),
    }
}

fn count_chars(s: &str) -> usize
    ensures count { result ≡ length (chars s.now) }
    ensures bound { result ≤ length s.now }
{
    s.chars().count()
}

pub fn length(a: &Value) -> Value
    ensures { result ≡ spec.length_of a.now }
{
    match a {
        Value::Text(t) => Value::Int(count_chars(t.as_str()) as i64),
        _ => Value::Null,
    }
}

/// The `count` characters of a text from the place `start` on, or fewer where the text ends.
fn piece(alloc: Global, s: &str, start: usize, count: usize) -> Result<String, NoMemory>
    ensures { IfOk result (λ t. string_bytes t ≡ spec.piece s.now start count) }
{
    let cut: String = s.chars().skip(start).take(count).collect(alloc)?;
    Ok(cut)
}

#[tactic(auto, using(crate::proofs::TextLaws::fitted_pieces))]
fn cut(alloc: Global, s: &str, start: usize, count: usize) -> Result<Value, NoMemory>
    requires { IsText s.now }
    ensures { IfOk result (λ v. v ≡ Value.Text (spec.piece s.now start count)) }
{
    let piece = piece(alloc, s, start, count)?;
    text_or_null(alloc, piece.as_str())
}

pub fn substr(alloc: Global, text: &Value, start: &Value, count: &Value) -> Result<Value, NoMemory>
    ensures { IfOk result (λ v. v ≡ spec.substr text.now start.now count.now) }
{
    match (text, start, count) {
        (Value::Text(text), Value::Int(start), Value::Int(count)) if *start >= 0 && *count >= 0 => {
            cut(alloc, text.as_str(), *start as usize, *count as usize)
        }
        _ => Ok(Value::Null),
    }
}

pub fn lower_ascii(alloc: Global, a: &Value) -> Result<Value, NoMemory>
    ensures { IfOk result (λ v. v ≡ spec.lower_ascii a.now) }
{
    match a {
        Value::Text(t) => {
            let lower = t.as_str().to_ascii_lowercase(alloc)?;
            text_or_null(alloc, lower.as_str())
        }
        _ => Ok(Value::Null),
    }
}

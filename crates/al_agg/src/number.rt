ghost use Rattle.std.specs.Prelude.{◌≡◌, pos, ◌+ℤ◌, ◌∷◌, [], if◌then◌else◌};
ghost use Rattle.al_agg.specs.Agg.{fitted, ints_of, is_null, wrapped};
ghost use Rattle.al_agg.specs.Part as spec;

use al_value::Value;

/// How many numbers of 64 bits there are.
const HALF: u128 = 1 << 64;

/// The number behind this one.
pub fn next(n: i128) -> i128
    ensures { result ≡ wrapped (n +ℤ pos 1) }
{
    wrapping_sum(n, 1)
}

/// Counts a value that is not NULL.
pub fn add_to_count(n: &mut i128, v: &Value)
    ensures { n.new ≡ (if is_null v.now then n.old else wrapped (n.old +ℤ pos 1)) }
{
    match v {
        Value::Null => {}
        _ => *n = next(*n),
    }
}

/// Adds an int, and passes over every other value.
pub fn add_to_sum(sum: &mut Option<i128>, v: &Value)
    ensures { sum.new ≡ spec.joined_sums sum.old (spec.some_sum (ints_of (v.now ∷ []))) }
{
    if let Value::Int(n) = v {
        *sum = joined_sums(*sum, Some(i128::from(*n)));
    }
}

/// The number as a value.
pub fn int_or_null(n: i128) -> Value
    ensures { result ≡ fitted n }
{
    match i64::try_from(n) {
        Ok(n) => Value::Int(n),
        Err(_) => Value::Null,
    }
}

/// The upper 64 bits of a number.
pub fn high_half(n: i128) -> i64
    ensures { result ≡ spec.high_half n }
{
    ((n.cast_unsigned() / HALF) as u64).cast_signed()
}

/// The lower 64 bits of a number.
pub fn low_half(n: i128) -> i64
    ensures { result ≡ spec.low_half n }
{
    ((n.cast_unsigned() % HALF) as u64).cast_signed()
}

/// The number that has these halves.
pub fn from_halves(high: i64, low: i64) -> i128
    ensures high { spec.high_half result ≡ high }
    ensures low { spec.low_half result ≡ low }
{
    let bits = u128::from(high.cast_unsigned()) * HALF + u128::from(low.cast_unsigned());
    bits.cast_signed()
}

/// The sum of two numbers modulo 2^128.
pub fn wrapping_sum(a: i128, b: i128) -> i128
    ensures { result ≡ wrapped (a +ℤ b) }
{
    a.wrapping_add(b)
}

/// The sum of all the ints of two sums.
pub fn joined_sums(a: Option<i128>, b: Option<i128>) -> Option<i128>
    ensures { result ≡ spec.joined_sums a b }
{
    match (a, b) {
        (Some(a), Some(b)) => Some(wrapping_sum(a, b)),
        (a, b) => a.or(b),
    }
}

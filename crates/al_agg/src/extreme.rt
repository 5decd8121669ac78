ghost use Rattle.std.specs.Prelude.{◌≡◌, OnOk, OnErr, if◌then◌else◌};
ghost use Rattle.al_agg.specs.Agg.{lesser, greater};

use al_value::{NoMemory, Value, cmp_values};
use std::alloc::Global;

/// Whether a value takes the place of the least one so far, where NULL is none.
fn is_lesser(v: &Value, least: &Value) -> bool
    ensures { (if result then v.now else least.now) ≡ lesser least.now v.now }
{
    match (v, least) {
        (Value::Null, _) => false,
        (_, Value::Null) => true,
        (v, least) => cmp_values(v, least).is_lt(),
    }
}

/// Whether a value takes the place of the greatest one so far, where NULL is none.
fn is_greater(v: &Value, greatest: &Value) -> bool
    ensures { (if result then v.now else greatest.now) ≡ greater greatest.now v.now }
{
    cmp_values(greatest, v).is_lt()
}

/// Keeps the lesser of two values.
pub fn keep_lesser(alloc: Global, least: &mut Value, v: &Value) -> Result<(), NoMemory>
    ensures ok { OnOk result (least.new ≡ lesser least.old v.now) }
    ensures err { OnErr result (least.new ≡ least.old) }
{
    if is_lesser(v, least) {
        *least = v.copy(alloc)?;
    }
    Ok(())
}

/// Keeps the greater of two values.
pub fn keep_greater(alloc: Global, greatest: &mut Value, v: &Value) -> Result<(), NoMemory>
    ensures ok { OnOk result (greatest.new ≡ greater greatest.old v.now) }
    ensures err { OnErr result (greatest.new ≡ greatest.old) }
{
    if is_greater(v, greatest) {
        *greatest = v.copy(alloc)?;
    }
    Ok(())
}

/// Keeps the lesser of two values.
pub fn join_lesser(least: &mut Value, other: Value)
    ensures { least.new ≡ lesser least.old other }
{
    if is_lesser(&other, least) {
        *least = other;
    }
}

/// Keeps the greater of two values.
pub fn join_greater(greatest: &mut Value, other: Value)
    ensures { greatest.new ≡ greater greatest.old other }
{
    if is_greater(&other, greatest) {
        *greatest = other;
    }
}

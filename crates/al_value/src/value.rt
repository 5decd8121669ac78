ghost use Rattle.std.specs.Prelude.{◌≡◌, IfOk};
ghost use Rattle.al_value.specs.Value as spec;

use crate::fault::NoMemory;
use crate::text::Text;
use std::alloc::Global;
use std::cmp::Ordering;

/// One value of a row. The order of the variants is the order of the kinds.
#[derive(Debug, PartialEq, Eq, PartialOrd, Ord, Hash, Drop)]
pub enum Value {
    Null,
    Bool(bool),
    Int(i64),
    Text(Text),
}

impl Value {
    pub fn copy(&self, alloc: Global) -> Result<Value, NoMemory>
        ensures copy { IfOk result (λ v. v ≡ self.now) }
        ensures valid { spec.IsValue self.now }
    {
        match self {
            Value::Null => Ok(Value::Null),
            Value::Bool(b) => Ok(Value::Bool(*b)),
            Value::Int(n) => Ok(Value::Int(*n)),
            Value::Text(t) => Ok(Value::Text(t.copy(alloc)?)),
        }
    }
}

/// The order of two values: NULL, false, true, the ints by number, the texts by bytes.
pub fn cmp_values(a: &Value, b: &Value) -> Ordering
    ensures { result ≡ spec.value_cmp a.now b.now }
{
    a.cmp(b)
}

/// Whether two values are the same, where both have one kind and neither is NULL.
pub fn eq3(a: &Value, b: &Value) -> Option<bool>
    ensures { result ≡ spec.eq3 a.now b.now }
{
    match (a, b) {
        (Value::Bool(x), Value::Bool(y)) => Some(x == y),
        (Value::Int(x), Value::Int(y)) => Some(x == y),
        (Value::Text(x), Value::Text(y)) => Some(x == y),
        _ => None,
    }
}

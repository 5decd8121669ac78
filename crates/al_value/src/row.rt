ghost use Rattle.std.specs.Prelude.{◌≡◌, IfOk, OnOk, OnErr, ◌∷◌, [], ◌++◌, length, slice_get};
ghost use Rattle.std.specs.Option.{option_copied};

use crate::fault::NoMemory;
use crate::list::List;
use crate::value::Value;
use std::alloc::Global;
use std::marker::Model;

/// One row, which contracts see as the list of its values.
#[derive(Debug, Drop)]
pub struct Row {
    values: List<Value>,
}

impl Model for Row {
    ghost use Rattle.std.specs.Prelude.{List};
    ghost use Rattle.al_value.specs.declared.value.Value.{Value as Cell};

    ghost Value = { List Cell };

    ghost view = { λ r. r.values };
}

impl Row {
    pub fn new(alloc: Global) -> Row
        ensures { result ≡ [] }
    {
        Row {
            values: List::new(alloc),
        }
    }

    pub fn from_list(values: List<Value>) -> Row
        ensures { result ≡ values }
    {
        Row { values }
    }

    pub fn push(&mut self, v: Value) -> Result<(), NoMemory>
        ensures ok { OnOk result (self.new ≡ self.old ++ v ∷ []) }
        ensures err { OnErr result (self.new ≡ self.old) }
    {
        self.values.push(v)
    }

    pub fn get(&self, j: usize) -> Option<&Value>
        ensures { option_copied result ≡ slice_get self.now j }
    {
        self.values.as_slice().get(j)
    }

    pub fn len(&self) -> usize
        ensures { result ≡ length self.now }
    {
        self.values.len()
    }

    pub fn as_slice(&self) -> &[Value]
        ensures { result.now ≡ self.now }
    {
        self.values.as_slice()
    }

    pub fn copy(&self, alloc: Global) -> Result<Row, NoMemory>
        ensures { IfOk result (λ r. r ≡ self.now) }
    {
        let mut values = List::new(alloc);
        for v in self.as_slice() {
            values.push(v.copy(alloc)?)?;
        }
        Ok(Row { values })
    }
}

/// A copy of each row, in order.
pub fn copy_rows(alloc: Global, rows: &[Row]) -> Result<List<Row>, NoMemory>
    ensures { IfOk result (λ copies. copies ≡ rows.now) }
{
    let mut copies = List::new(alloc);
    for row in rows {
        copies.push(row.copy(alloc)?)?;
    }
    Ok(copies)
}

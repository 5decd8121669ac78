ghost use Rattle.std.specs.Prelude.{◌≡◌, ◌<◌, IfOk, IsTrue, length, map, slice_index_or};
ghost use Rattle.std.specs.List.{list_all};
ghost use Rattle.al_func.specs.Rex as spec;

use crate::call::apply;
use crate::func::Func;
use al_value::{List, NoMemory, Value};
use std::alloc::Global;

/// An expression over the columns of a row, from 0.
#[derive(Debug, PartialEq, Drop)]
pub enum Rex {
    Col(u32),
    Lit(Value),
    Call(Func, List<Rex>),
}

impl Rex {
    /// An equal expression.
    pub fn copy(&self, alloc: Global) -> Result<Rex, NoMemory>
        ensures { IfOk result (λ e. e ≡ self.now) }
    {
        copy_rex(alloc, self)
    }
}

#[cycle(copy_rex)]
fn copy_args(alloc: Global, args: &[Rex]) -> Result<List<Rex>, NoMemory>
    ensures { IfOk result (λ copies. copies ≡ args.now) }
{
    let mut copies = List::new(alloc);
    for e in args {
        copies.push(copy_rex(alloc, e)?)?;
    }
    Ok(copies)
}

#[cycle(copy_rex)]
fn copy_rex(alloc: Global, e: &Rex) -> Result<Rex, NoMemory>
    ensures { IfOk result (λ c. c ≡ e.now) }
{
    match e {
        Rex::Col(j) => Ok(Rex::Col(*j)),
        Rex::Lit(v) => Ok(Rex::Lit(v.copy(alloc)?)),
        Rex::Call(f, args) => Ok(Rex::Call(*f, copy_args(alloc, args.as_slice())?)),
    }
}

/// A copy of the value of a column.
fn column(alloc: Global, row: &[Value], j: u32) -> Result<Value, NoMemory>
    requires { j < length row.now }
    ensures { IfOk result (λ v. v ≡ slice_index_or row.now j Value.Null) }
{
    row[j as usize].copy(alloc)
}

#[cycle(eval_rex)]
fn eval_args(alloc: Global, args: &[Rex], row: &[Value]) -> Result<List<Value>, NoMemory>
    requires { IsTrue (list_all (spec.is_sound (length row.now)) args.now) }
    ensures { IfOk result (λ vs. vs ≡ map (λ e. spec.eval_rex e row.now) args.now) }
{
    let mut values = List::new(alloc);
    for e in args {
        values.push(eval_rex(alloc, e, row)?)?;
    }
    Ok(values)
}

/// The value of an expression over a row, whose columns and numbers of arguments fit.
#[cycle(eval_rex)]
#[tactic(auto, using(crate::proofs::RexLaws::eval_rex_laws))]
pub fn eval_rex(alloc: Global, e: &Rex, row: &[Value]) -> Result<Value, NoMemory>
    requires { spec.IsSound (length row.now) e.now }
    ensures { IfOk result (λ v. v ≡ spec.eval_rex e.now row.now) }
{
    match e {
        Rex::Col(j) => column(alloc, row, *j),
        Rex::Lit(v) => v.copy(alloc),
        Rex::Call(f, args) => {
            let values = eval_args(alloc, args.as_slice(), row)?;
            apply(alloc, *f, values.as_slice())
        }
    }
}

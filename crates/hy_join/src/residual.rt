//! The rest of a join's condition, over the fields of a row.

ghost use Rattle.std.specs.Prelude.{◌≡◌, ◌<◌, IfOk, IsTrue, length, map};
ghost use Rattle.std.specs.List.{list_all};
ghost use Rattle.al_func.specs.Func.{is_true as spec_true};
ghost use Rattle.al_func.specs.Rex.{IsSound, eval_rex, is_sound};
ghost use Rattle.hy_driver.specs.Rows.{value_of, values_of};
ghost use Rattle.hy_frame.specs.Field.{IsField};
ghost use Rattle.hy_job.specs.Columns as spec;

use al_func::{Rex, apply};
use al_value::{List, NoMemory, Value, get_field};
use hy_frame::RowRef;
use std::alloc::Global;

/// Whether a value is TRUE.
fn is_true(v: &Value) -> bool
    ensures { result ≡ spec_true v.now }
{
    matches!(v, Value::Bool(true))
}

/// The value of a field.
#[tactic(auto, using(hy_rows::proofs::RowLaws::row_laws))]
fn value_in(alloc: Global, field: &[u8]) -> Result<Value, NoMemory>
    requires { IsField field.now }
    ensures { IfOk result (λ v. v ≡ value_of field.now) }
{
    match get_field(alloc, field) {
        Ok(v) => Ok(v),
        Err(_) => Err(NoMemory),
    }
}

/// The value of a column, which alone is decoded.
#[tactic(auto, using(crate::proofs::ResidualLaws::column_read))]
fn column_value(alloc: Global, j: u32, row: &RowRef<'_>) -> Result<Value, NoMemory>
    requires { j < length row.now }
    ensures { IfOk result (λ v. v ≡ spec.column (values_of row.now) j) }
{
    value_in(alloc, row.field(j as usize))
}

/// The values of arguments.
#[cycle(value_over)]
fn args_over(alloc: Global, args: &[Rex], row: &RowRef<'_>) -> Result<List<Value>, NoMemory>
    requires { IsTrue (list_all (is_sound (length row.now)) args.now) }
    ensures { IfOk result (λ values. values ≡ map (λ e. eval_rex e (values_of row.now)) args.now) }
{
    let mut values = List::new(alloc);
    for e in args {
        values.push(value_over(alloc, e, row)?)?;
    }
    Ok(values)
}

/// The value of an expression over the values of a row. Columns that it does not name are not
/// decoded.
#[cycle(value_over)]
#[tactic(auto, using(al_func::proofs::RexLaws::eval_rex_laws))]
fn value_over(alloc: Global, e: &Rex, row: &RowRef<'_>) -> Result<Value, NoMemory>
    requires { IsSound (length row.now) e.now }
    ensures { IfOk result (λ v. v ≡ eval_rex e.now (values_of row.now)) }
{
    match e {
        Rex::Col(j) => column_value(alloc, *j, row),
        Rex::Lit(v) => v.copy(alloc),
        Rex::Call(f, args) => {
            let values = args_over(alloc, args.as_slice(), row)?;
            apply(alloc, *f, values.as_slice())
        }
    }
}

/// Whether a condition is TRUE over a row.
pub(crate) fn rest_holds(alloc: Global, rest: &Rex, row: &RowRef<'_>) -> Result<bool, NoMemory>
    requires { IsSound (length row.now) rest.now }
    ensures { IfOk result (λ b. b ≡ spec.holds rest.now (values_of row.now)) }
{
    let value = value_over(alloc, rest, row)?;
    Ok(is_true(&value))
}

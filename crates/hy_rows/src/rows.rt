//! Rows of values, read out of rows of fields and put into them.

ghost use Rattle.std.specs.Prelude.{◌≡◌, ◌<◌, ◌≤◌, ◌+◌, ◌++◌, ◌∷◌, [], length, IfOk, OnOk};
ghost use Rattle.al_value.specs.Value.{IsValue};
ghost use Rattle.hy_driver.specs.Rows.{value_of, values_of};
ghost use Rattle.hy_frame.specs.Field.{IsField};
ghost use Rattle.hy_job.specs.Columns as spec;

use al_value::{NoMemory, Row, Value, get_field, put_field};
use hy_frame::{MAX_FIELDS, RowBuf, RowRef};
use std::alloc::Global;

/// The field of NULL.
pub(crate) const NULL_FIELD: [u8; 1] = [0];

/// The value of a field.
#[tactic(auto, using(crate::proofs::RowLaws::row_laws))]
fn value_in(alloc: Global, field: &[u8]) -> Result<Value, NoMemory>
    requires { IsField field.now }
    ensures { IfOk result (λ v. v ≡ value_of field.now) }
{
    match get_field(alloc, field) {
        Ok(v) => Ok(v),
        Err(_) => Err(NoMemory),
    }
}

/// The values of a row, in the order of its columns.
#[tactic(auto, using(crate::proofs::RowLaws::row_laws))]
pub fn values_in(alloc: Global, row: &RowRef<'_>) -> Result<Row, NoMemory>
    ensures { IfOk result (λ values. values ≡ values_of row.now) }
{
    let mut values = Row::new(alloc);
    for j in 0..row.len() {
        values.push(value_in(alloc, row.field(j))?)?;
    }
    Ok(values)
}

/// Puts a value behind the fields of a row. The buffer is for its field.
#[tactic(auto, using(crate::proofs::RowLaws::row_laws))]
fn put_value(v: &Value, field: &mut Vec<u8>, out: &mut RowBuf) -> Result<(), NoMemory>
    requires room { length out.old < MAX_FIELDS }
    ensures put { OnOk result (values_of out.new ≡ values_of out.old ++ v.now ∷ []) }
    ensures wide { OnOk result (length out.new ≡ length out.old + 1) }
{
    fits_field(v);
    field.clear();
    put_field(v, field)?;
    push_field(field, out)
}

/// Tells that a value can stand in a field, as each can. It does nothing.
fn fits_field(v: &Value)
    ensures { IsValue v.now }
{
    match v {
        Value::Null | Value::Bool(_) => {}
        Value::Int(n) => {
            let _number = *n;
        }
        Value::Text(text) => {
            text.as_str();
        }
    }
}

/// Puts a field behind others.
#[tactic(auto, using(crate::proofs::RowLaws::row_laws))]
fn push_field(field: &[u8], out: &mut RowBuf) -> Result<(), NoMemory>
    requires is_field { IsField field.now }
    requires room { length out.old < MAX_FIELDS }
    ensures put { OnOk result (values_of out.new ≡ values_of out.old ++ value_of field.now ∷ []) }
    ensures wide { OnOk result (length out.new ≡ length out.old + 1) }
{
    match out.push_field(field) {
        Ok(()) => Ok(()),
        Err(_) => Err(NoMemory),
    }
}

/// Takes the values of a row in place of the fields that are there. Where memory runs out, some of
/// them are there.
#[tactic(auto, using(crate::proofs::RowLaws::row_laws))]
pub fn put_row(alloc: Global, row: &[Value], out: &mut RowBuf) -> Result<(), NoMemory>
    requires few { length row.now ≤ MAX_FIELDS }
    ensures values { OnOk result (values_of out.new ≡ row.now) }
    ensures wide { OnOk result (length out.new ≡ length row.now) }
{
    out.clear();
    let mut field = Vec::new(alloc);
    for v in row {
        put_value(v, &mut field, out)?;
    }
    Ok(())
}

/// Takes the fields of a row in place of those that are there.
pub fn copy_row(row: &RowRef<'_>, out: &mut RowBuf) -> Result<(), NoMemory>
    requires few { length row.now ≤ MAX_FIELDS }
    ensures { OnOk result (out.new ≡ row.now) }
{
    match out.copy_from(row) {
        Ok(()) => Ok(()),
        Err(_) => Err(NoMemory),
    }
}

/// Takes the fields of a row and that of a value behind them in place of those that are there. Where
/// memory runs out, some of them are there.
pub fn put_longer(
    alloc: Global,
    row: &RowRef<'_>,
    v: &Value,
    out: &mut RowBuf,
) -> Result<(), NoMemory>
    requires few { length row.now < MAX_FIELDS }
    ensures values { OnOk result (values_of out.new ≡ values_of row.now ++ v.now ∷ []) }
    ensures wide { OnOk result (length out.new ≡ length row.now + 1) }
{
    copy_row(row, out)?;
    let mut field = Vec::new(alloc);
    put_value(v, &mut field, out)
}

/// Takes the fields of these columns in place of those that are there. Where memory runs out, some
/// of them are there.
#[tactic(auto, using(crate::proofs::RowLaws::row_laws))]
pub fn put_cut(columns: &[u32], row: &RowRef<'_>, out: &mut RowBuf) -> Result<(), NoMemory>
    requires few { length columns.now ≤ MAX_FIELDS }
    ensures cut { OnOk result (values_of out.new ≡ spec.cut columns.now (values_of row.now)) }
    ensures wide { OnOk result (length out.new ≡ length columns.now) }
{
    out.clear();
    for j in columns {
        put_column(*j as usize, row, out)?;
    }
    Ok(())
}

/// Puts the field of a column behind others, that of NULL for a column out of range.
#[tactic(auto, using(crate::proofs::RowLaws::row_laws))]
fn put_column(j: usize, row: &RowRef<'_>, out: &mut RowBuf) -> Result<(), NoMemory>
    requires room { length out.old < MAX_FIELDS }
    ensures put { OnOk result (values_of out.new ≡ values_of out.old ++ spec.column (values_of row.now) j ∷ []) }
    ensures wide { OnOk result (length out.new ≡ length out.old + 1) }
{
    if j < row.len() {
        return push_field(row.field(j), out);
    }
    push_field(&NULL_FIELD, out)
}

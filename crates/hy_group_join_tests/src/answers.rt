//! The rows that the plain evaluator gives, and rows as text.

use crate::texts::accepted;
use al_plain::evaluate;
use al_value::{List, NoMemory, Row, SortKey, Value};
use hy_job::sort_rows;
use std::alloc::Global;
use std::test::Fail;

fn file_of(alloc: Global, plan: &str) -> Result<String, Fail> {
    Ok(format!(in alloc; "(algebricks 1 (dataset none \"none.csv\" (a int)) (result {plan}))")?)
}

/// What the plain evaluator gives for the variables that are listed and a plan without datasets.
pub(crate) fn plain_rows(alloc: Global, plan: &str) -> Result<List<Row>, Fail> {
    let file = accepted(alloc, file_of(alloc, plan)?.as_str())?;
    match evaluate(alloc, &file.get().root, &[]) {
        Ok(rows) => Ok(rows),
        Err(_) => Err(Fail::from("not evaluated")),
    }
}

fn put(alloc: Global, text: &mut String, value: &Value) -> Result<(), Fail> {
    match value {
        Value::Null => text.push_str("-")?,
        Value::Bool(true) => text.push_str("TRUE")?,
        Value::Bool(false) => text.push_str("FALSE")?,
        Value::Int(n) => {
            let digits = format!(in alloc; "{n}")?;
            text.push_str(digits.as_str())?;
        }
        Value::Text(t) => text.push_str(t.as_str())?,
    }
    Ok(())
}

/// Each of the first columns, upwards.
fn by_columns(alloc: Global, width: u32) -> Result<List<SortKey>, NoMemory> {
    let mut keys = List::new(alloc);
    for column in 0..width {
        keys.push(SortKey {
            column,
            descending: false,
        })?;
    }
    Ok(keys)
}

/// Puts a row behind others, its values between commas.
fn put_row(alloc: Global, text: &mut String, row: &[Value]) -> Result<(), Fail> {
    let mut first = true;
    for value in row {
        if !first {
            text.push_str(",")?;
        }
        first = false;
        put(alloc, text, value)?;
    }
    Ok(())
}

/// Rows of so many values as text, in order, NULL first: values between commas, rows between
/// semicolons.
pub(crate) fn shown(alloc: Global, width: u32, rows: List<Row>) -> Result<String, Fail> {
    let keys = by_columns(alloc, width)?;
    let sorted = sort_rows(keys.as_slice(), rows)?;
    let mut text = String::new(alloc);
    for row in sorted.as_slice() {
        if !text.as_str().is_empty() {
            text.push_str(";")?;
        }
        put_row(alloc, &mut text, row.as_slice())?;
    }
    Ok(text)
}

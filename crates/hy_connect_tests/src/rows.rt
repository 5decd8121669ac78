//! Rows of two values, and rows as text.

use al_value::{List, NoMemory, Row, Text, Value};
use hy_frame::{RowBuf, RowRef};
use hy_rows::{put_row, values_in};
use hy_wire_runs::{Sink, WireFault};
use std::alloc::Global;
use std::test::Fail;

/// The key of a row, where it isn't NULL, and its number.
pub(crate) type Pair = (Option<i64>, i64);

/// A row of two values.
pub(crate) fn row_of(alloc: Global, first: Value, second: Value) -> Result<RowBuf, NoMemory> {
    let mut row = RowBuf::new(alloc);
    put_row(alloc, &[first, second], &mut row)?;
    Ok(row)
}

/// Rows of pairs.
pub(crate) fn rows_of(alloc: Global, pairs: &[Pair]) -> Result<Vec<RowBuf>, Fail> {
    let mut rows = Vec::new(alloc);
    for (key, number) in pairs {
        let key = match key {
            Some(n) => Value::Int(*n),
            None => Value::Null,
        };
        rows.push(row_of(alloc, key, Value::Int(*number))?)?;
    }
    Ok(rows)
}

/// The rows that came.
#[derive(Drop)]
pub(crate) struct Came {
    rows: List<Row>,
}

impl Came {
    pub(crate) fn none(alloc: Global) -> Came {
        Came {
            rows: List::new(alloc),
        }
    }
}

impl Sink for Came {
    fn put(&mut self, alloc: Global, row: &RowRef<'_>) -> Result<(), WireFault> {
        self.rows.push(values_in(alloc, row)?)?;
        Ok(())
    }
}

fn put(alloc: Global, text: &mut String, value: &Value) -> Result<(), Fail> {
    match value {
        Value::Null => text.push_str("-")?,
        Value::Bool(true) => text.push_str("TRUE")?,
        Value::Bool(false) => text.push_str("FALSE")?,
        Value::Int(n) => {
            let digits = format!(in alloc; "{n}")?;
            text.push_str(digits.as_str())?;
        }
        Value::Text(t) => text.push_str(t.as_str())?,
    }
    Ok(())
}

/// Puts a row behind others, its values between commas.
fn put_values(alloc: Global, text: &mut String, row: &[Value]) -> Result<(), Fail> {
    let mut first = true;
    for value in row {
        if !first {
            text.push_str(",")?;
        }
        first = false;
        put(alloc, text, value)?;
    }
    Ok(())
}

/// The rows that came, in their order: values between commas, rows between semicolons.
pub(crate) fn shown(alloc: Global, came: &Came) -> Result<String, Fail> {
    let mut text = String::new(alloc);
    for row in came.rows.as_slice() {
        if !text.as_str().is_empty() {
            text.push_str(";")?;
        }
        put_values(alloc, &mut text, row.as_slice())?;
    }
    Ok(text)
}

/// A text of 32,000 bytes.
pub(crate) fn long_text(alloc: Global) -> Result<String, Fail> {
    let mut text = String::new(alloc);
    for _ in 0..4000 {
        text.push_str("abcdefgh")?;
    }
    Ok(text)
}

/// A row with this text.
pub(crate) fn long_row(alloc: Global, key: i64) -> Result<RowBuf, Fail> {
    let Ok(text) = Text::new(alloc, long_text(alloc)?.as_str()) else {
        return Err(Fail::from("no text"));
    };
    Ok(row_of(alloc, Value::Int(key), Value::Text(text))?)
}

ghost use Rattle.std.specs.Prelude.{◌≡◌, IfOk};
ghost use Rattle.std.specs.List.{flat_map};
ghost use Rattle.al_plan.specs.Calls as spec;
ghost use Rattle.al_plan.specs.Eval.{bind};
ghost use Rattle.al_plain.specs.Rows.{before_each, expanded_row, padded_row, pairs_of, pairs_or_padded, rows_or, with_each};

use crate::expr::{eval_expr, holds};
use crate::rows::{append, joined_row};
use al_func::{range_items, split_items};
use al_plan::{Expr, Generator, Var};
use al_value::{List, NoMemory, Row, Value};
use std::alloc::Global;

/// The items of a generator at a row.
#[tactic(auto, unfolding(al_plan::specs::Calls::items))]
fn items(
    alloc: Global,
    generator: &Generator,
    vars: &[Var],
    row: &[Value],
) -> Result<List<Value>, NoMemory>
    ensures { IfOk result (λ xs. xs ≡ spec.items generator.now (bind vars.now row.now)) }
{
    match generator {
        Generator::Range(from, to) => {
            let from = eval_expr(alloc, from, vars, row)?;
            let to = eval_expr(alloc, to, vars, row)?;
            range_items(alloc, &from, &to)
        }
        Generator::Split(text, separator) => {
            let text = eval_expr(alloc, text, vars, row)?;
            let separator = eval_expr(alloc, separator, vars, row)?;
            split_items(alloc, &text, &separator)
        }
    }
}

/// The row with each of the values in turn at its end.
#[tactic(auto, unfolding(crate::specs::Rows::with_each))]
fn with_each(alloc: Global, row: &Row, values: &[Value]) -> Result<List<Row>, NoMemory>
    ensures { IfOk result (λ made. made ≡ with_each row.now values.now) }
{
    let mut made = List::new(alloc);
    for v in values {
        let mut longer = row.copy(alloc)?;
        longer.push(v.copy(alloc)?)?;
        made.push(longer)?;
    }
    Ok(made)
}

/// The rows, each with each item of the generator in turn.
#[tactic(auto, unfolding(crate::specs::Rows::expanded_row))]
pub fn unnest_rows(
    alloc: Global,
    generator: &Generator,
    vars: &[Var],
    rows: &[Row],
) -> Result<List<Row>, NoMemory>
    ensures { IfOk result (λ made. made ≡ flat_map (expanded_row generator.now vars.now) rows.now) }
{
    let mut made = List::new(alloc);
    for row in rows {
        let items = items(alloc, generator, vars, row.as_slice())?;
        append(&mut made, with_each(alloc, row, items.as_slice())?)?;
    }
    Ok(made)
}

/// The row before each of the other rows.
#[tactic(auto, unfolding(crate::specs::Rows::before_each))]
pub fn before_each(alloc: Global, row: &Row, more: &[Row]) -> Result<List<Row>, NoMemory>
    ensures { IfOk result (λ made. made ≡ before_each row.now more.now) }
{
    let mut made = List::new(alloc);
    for other in more {
        made.push(joined_row(alloc, row, other.as_slice())?)?;
    }
    Ok(made)
}

/// The pairs of a left row with the right rows whose condition is TRUE.
#[tactic(auto, unfolding(crate::specs::Rows::pairs_of, crate::specs::Rows::before_each))]
fn pairs_of(
    alloc: Global,
    cond: &Expr,
    both: &[Var],
    left: &Row,
    right: &[Row],
) -> Result<List<Row>, NoMemory>
    ensures { IfOk result (λ pairs. pairs ≡ pairs_of cond.now both.now right.now left.now) }
{
    let mut pairs = List::new(alloc);
    for other in right {
        let row = joined_row(alloc, left, other.as_slice())?;
        if holds(alloc, cond, both, row.as_slice())? {
            pairs.push(row)?;
        }
    }
    Ok(pairs)
}

/// The pairs of left and right rows whose condition is TRUE.
pub fn join_rows(
    alloc: Global,
    cond: &Expr,
    both: &[Var],
    left: &[Row],
    right: &[Row],
) -> Result<List<Row>, NoMemory>
    ensures { IfOk result
        (λ made. made ≡ flat_map (pairs_of cond.now both.now right.now) left.now) }
{
    let mut made = List::new(alloc);
    for row in left {
        append(&mut made, pairs_of(alloc, cond, both, row, right)?)?;
    }
    Ok(made)
}

/// The row with NULL for each of the variables.
#[tactic(auto, unfolding(crate::specs::Rows::padded_row))]
fn padded_row(alloc: Global, vars: &[Var], row: &Row) -> Result<Row, NoMemory>
    ensures { IfOk result (λ longer. longer ≡ padded_row vars.now row.now) }
{
    let mut longer = row.copy(alloc)?;
    for _var in vars {
        longer.push(Value::Null)?;
    }
    Ok(longer)
}

/// The rows, or the one row where there are none.
fn rows_or(alloc: Global, alone: Row, rows: List<Row>) -> Result<List<Row>, NoMemory>
    ensures { IfOk result (λ made. made ≡ rows_or alone rows) }
{
    if !rows.is_empty() {
        return Ok(rows);
    }
    let mut made = List::new(alloc);
    made.push(alone)?;
    Ok(made)
}

/// What `join_rows` gives, and the left rows that are in no pair, with NULL for the right
/// variables.
#[tactic(auto, unfolding(crate::specs::Rows::pairs_or_padded))]
pub fn left_join_rows(
    alloc: Global,
    cond: &Expr,
    both: &[Var],
    right_vars: &[Var],
    left: &[Row],
    right: &[Row],
) -> Result<List<Row>, NoMemory>
    ensures { IfOk result
        (λ made. made ≡ flat_map (pairs_or_padded cond.now both.now right_vars.now right.now) left.now) }
{
    let mut made = List::new(alloc);
    for row in left {
        let alone = padded_row(alloc, right_vars, row)?;
        let pairs = pairs_of(alloc, cond, both, row, right)?;
        append(&mut made, rows_or(alloc, alone, pairs)?)?;
    }
    Ok(made)
}

ghost use Rattle.std.specs.Prelude.{◌≡◌, ◌++◌, IfOk, OnOk, map, filter, take, drop};
ghost use Rattle.std.specs.List.{list_all};
ghost use Rattle.al_plan.specs.Eval as spec;
ghost use Rattle.al_plain.specs.Rows.{values_of, assigned_row};

use crate::expr::{eval_expr, holds, look_up};
use al_plan::{Expr, Var};
use al_value::{List, NoMemory, Row, Value, copy_rows};
use std::alloc::Global;

/// A copy of each variable, in order.
pub fn copy_vars(alloc: Global, vars: &[Var]) -> Result<List<Var>, NoMemory>
    ensures { IfOk result (λ copies. copies ≡ vars.now) }
{
    let mut copies = List::new(alloc);
    for v in vars {
        copies.push(v.copy(alloc)?)?;
    }
    Ok(copies)
}

/// The variables of both, the left ones first.
pub fn both_vars(alloc: Global, left: &[Var], right: &[Var]) -> Result<List<Var>, NoMemory>
    ensures { IfOk result (λ both. both ≡ left.now ++ right.now) }
{
    let mut both = copy_vars(alloc, left)?;
    for v in right {
        both.push(v.copy(alloc)?)?;
    }
    Ok(both)
}

/// The new variable of each pair.
pub fn made_vars<T>(alloc: Global, made: &[(Var, T)]) -> Result<List<Var>, NoMemory>
    ensures { IfOk result (λ vars. vars ≡ map (λ m. m.0) made.now) }
{
    let mut vars = List::new(alloc);
    for (v, _) in made {
        vars.push(v.copy(alloc)?)?;
    }
    Ok(vars)
}

/// Puts the rows at the end.
pub fn append(rows: &mut List<Row>, more: List<Row>) -> Result<(), NoMemory>
    ensures { OnOk result (rows.new ≡ rows.old ++ more) }
{
    for row in more.into_vec() {
        rows.push(row)?;
    }
    Ok(())
}

/// A row and the other row's values behind it.
pub fn joined_row(alloc: Global, left: &Row, right: &[Value]) -> Result<Row, NoMemory>
    ensures { IfOk result (λ row. row ≡ left.now ++ right.now) }
{
    let mut row = left.copy(alloc)?;
    for v in right {
        row.push(v.copy(alloc)?)?;
    }
    Ok(row)
}

/// One row cut to the listed variables.
#[tactic(auto, unfolding(crate::specs::Rows::values_of))]
pub fn cut_row(alloc: Global, out: &[Var], vars: &[Var], row: &[Value]) -> Result<Row, NoMemory>
    ensures { IfOk result (λ cut. cut ≡ values_of out.now vars.now row.now) }
{
    let mut cut = Row::new(alloc);
    for v in out {
        cut.push(look_up(alloc, vars, row, v)?)?;
    }
    Ok(cut)
}

/// The rows cut to the listed variables.
pub fn cut_rows(
    alloc: Global,
    out: &[Var],
    vars: &[Var],
    rows: &[Row],
) -> Result<List<Row>, NoMemory>
    ensures { IfOk result (λ cut. cut ≡ map (values_of out.now vars.now) rows.now) }
{
    let mut cut = List::new(alloc);
    for row in rows {
        cut.push(cut_row(alloc, out, vars, row.as_slice())?)?;
    }
    Ok(cut)
}

/// One row with the new variables.
#[tactic(auto, unfolding(crate::specs::Rows::assigned_row))]
fn assign_row(alloc: Global, made: &[(Var, Expr)], vars: &[Var], row: &Row) -> Result<Row, NoMemory>
    ensures { IfOk result (λ longer. longer ≡ assigned_row made.now vars.now row.now) }
{
    let mut longer = row.copy(alloc)?;
    for (_, e) in made {
        longer.push(eval_expr(alloc, e, vars, row.as_slice())?)?;
    }
    Ok(longer)
}

/// The rows with the new variables.
pub fn assign_rows(
    alloc: Global,
    made: &[(Var, Expr)],
    vars: &[Var],
    rows: &[Row],
) -> Result<List<Row>, NoMemory>
    ensures { IfOk result (λ longer. longer ≡ map (assigned_row made.now vars.now) rows.now) }
{
    let mut longer = List::new(alloc);
    for row in rows {
        longer.push(assign_row(alloc, made, vars, row)?)?;
    }
    Ok(longer)
}

/// The rows whose condition is TRUE, in their order.
pub fn select_rows(
    alloc: Global,
    cond: &Expr,
    vars: &[Var],
    rows: &[Row],
) -> Result<List<Row>, NoMemory>
    ensures { IfOk result
        (λ kept. kept ≡ filter (λ r. spec.holds cond.now (spec.bind vars.now r)) rows.now) }
{
    let mut kept = List::new(alloc);
    for row in rows {
        if holds(alloc, cond, vars, row.as_slice())? {
            kept.push(row.copy(alloc)?)?;
        }
    }
    Ok(kept)
}

/// Whether the condition is TRUE over each row.
pub fn all_hold(alloc: Global, cond: &Expr, vars: &[Var], rows: &[Row]) -> Result<bool, NoMemory>
    ensures { IfOk result
        (λ b. b ≡ list_all (λ r. spec.holds cond.now (spec.bind vars.now r)) rows.now) }
{
    for row in rows {
        if !holds(alloc, cond, vars, row.as_slice())? {
            return Ok(false);
        }
    }
    Ok(true)
}

/// What is left when `k` rows are taken off the front, of which the first `n`.
pub fn limit_rows(alloc: Global, n: u64, k: u64, rows: &[Row]) -> Result<List<Row>, NoMemory>
    ensures { IfOk result (λ left. left ≡ take n (drop k rows.now)) }
{
    let from = (k as usize).min(rows.len());
    let rest = &rows[from..];
    let until = (n as usize).min(rest.len());
    copy_rows(alloc, &rest[..until])
}

ghost use Rattle.std.specs.Prelude.{◌≡◌, IfOk, map};
ghost use Rattle.al_value.specs.declared.value.Value.TheVariants as V;
ghost use Rattle.al_agg.specs.Agg.{agg};
ghost use Rattle.al_plan.specs.Calls as spec;
ghost use Rattle.al_plan.specs.Eval.{bind, eval};

use crate::expr::eval_expr;
use al_agg::{Agg, add, finish, start};
use al_plan::{AggCall, Expr, Var};
use al_value::{List, NoMemory, Row, Value};
use std::alloc::Global;

/// An aggregate over the values.
fn agg_of(alloc: Global, a: Agg, values: &[Value]) -> Result<Value, NoMemory>
    ensures { IfOk result (λ v. v ≡ agg a values.now) }
{
    let mut part = start(a);
    for v in values {
        add(alloc, &mut part, v)?;
    }
    Ok(finish(part))
}

/// NULL for each row.
fn nulls(alloc: Global, rows: &[Row]) -> Result<List<Value>, NoMemory>
    ensures { IfOk result (λ values. values ≡ map (λ r. V.Null) rows.now) }
{
    let mut values = List::new(alloc);
    for _row in rows {
        values.push(Value::Null)?;
    }
    Ok(values)
}

/// The value of the expression at each row.
fn column(alloc: Global, e: &Expr, vars: &[Var], rows: &[Row]) -> Result<List<Value>, NoMemory>
    ensures { IfOk result (λ values. values ≡ map (eval e.now) (map (bind vars.now) rows.now)) }
{
    let mut values = List::new(alloc);
    for row in rows {
        values.push(eval_expr(alloc, e, vars, row.as_slice())?)?;
    }
    Ok(values)
}

/// An aggregate over the values of the expression at each row.
fn agg_over(alloc: Global, a: Agg, e: &Expr, vars: &[Var], rows: &[Row]) -> Result<Value, NoMemory>
    ensures { IfOk result (λ v. v ≡ agg a (map (eval e.now) (map (bind vars.now) rows.now))) }
{
    let values = column(alloc, e, vars, rows)?;
    agg_of(alloc, a, values.as_slice())
}

/// What a call of an aggregate gives over the rows.
#[tactic(auto, unfolding(al_plan::specs::Calls::agg_call))]
fn agg_value(alloc: Global, call: &AggCall, vars: &[Var], rows: &[Row]) -> Result<Value, NoMemory>
    ensures { IfOk result (λ v. v ≡ spec.agg_call call.now (map (bind vars.now) rows.now)) }
{
    match call {
        AggCall::CountAll => agg_of(alloc, Agg::CountAll, nulls(alloc, rows)?.as_slice()),
        AggCall::Count(e) => agg_over(alloc, Agg::Count, e, vars, rows),
        AggCall::Sum(e) => agg_over(alloc, Agg::Sum, e, vars, rows),
        AggCall::Min(e) => agg_over(alloc, Agg::Min, e, vars, rows),
        AggCall::Max(e) => agg_over(alloc, Agg::Max, e, vars, rows),
    }
}

/// The row of the aggregates over the rows.
pub fn agg_row(
    alloc: Global,
    made: &[(Var, AggCall)],
    vars: &[Var],
    rows: &[Row],
) -> Result<Row, NoMemory>
    ensures { IfOk result
        (λ row. row ≡ map (λ m. spec.agg_call m.1 (map (bind vars.now) rows.now)) made.now) }
{
    let mut row = Row::new(alloc);
    for (_, call) in made {
        row.push(agg_value(alloc, call, vars, rows)?)?;
    }
    Ok(row)
}

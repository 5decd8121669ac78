ghost use Rattle.std.specs.Prelude.{◌≡◌, IfOk, map};
ghost use Rattle.al_value.specs.declared.value.Value.TheVariants as V;
ghost use Rattle.al_func.specs.Func as func;
ghost use Rattle.al_plan.specs.Eval as spec;

use al_func::{Func, apply, arity};
use al_plan::{Expr, Var};
use al_value::{List, NoMemory, Value};
use std::alloc::Global;

/// The value of a variable in the row of these variables, and `none` where there is none.
pub fn find<'a>(vars: &[Var], row: &'a [Value], v: &Var, none: &'a Value) -> &'a Value
    requires { none.now ≡ V.Null }
    ensures { result.now ≡ spec.bind vars.now row.now v.now.name }
{
    for i in 0..vars.len() {
        if i >= row.len() {
            return none;
        }
        if vars[i].name == v.name {
            return &row[i];
        }
    }
    none
}

/// A copy of the value of a variable.
pub fn look_up(alloc: Global, vars: &[Var], row: &[Value], v: &Var) -> Result<Value, NoMemory>
    ensures { IfOk result (λ r. r ≡ spec.bind vars.now row.now v.now.name) }
{
    let none = Value::Null;
    find(vars, row, v, &none).copy(alloc)
}

/// A call of a function, which is NULL for another number of arguments than it takes.
fn call(alloc: Global, f: Func, args: &[Value]) -> Result<Value, NoMemory>
    ensures { IfOk result (λ v. v ≡ func.apply f args.now) }
{
    if args.len() == arity(f) as usize {
        apply(alloc, f, args)
    } else {
        Ok(Value::Null)
    }
}

#[cycle(evaluate)]
fn eval_args(
    alloc: Global,
    args: &[Expr],
    vars: &[Var],
    row: &[Value],
) -> Result<List<Value>, NoMemory>
    ensures { IfOk result (λ vs. vs ≡ map (λ e. spec.eval e (spec.bind vars.now row.now)) args.now) }
{
    let mut values = List::new(alloc);
    for e in args {
        values.push(eval_expr(alloc, e, vars, row)?)?;
    }
    Ok(values)
}

/// The value of an expression over a row.
#[cycle(evaluate)]
#[tactic(auto, using(al_plan::proofs::EvalLaws::eval_laws))]
pub fn eval_expr(alloc: Global, e: &Expr, vars: &[Var], row: &[Value]) -> Result<Value, NoMemory>
    ensures { IfOk result (λ v. v ≡ spec.eval e.now (spec.bind vars.now row.now)) }
{
    match e {
        Expr::Var(v) => look_up(alloc, vars, row, v),
        Expr::Lit(v) => v.copy(alloc),
        Expr::Call(f, args) => {
            let values = eval_args(alloc, args.as_slice(), vars, row)?;
            call(alloc, *f, values.as_slice())
        }
    }
}

/// Whether a condition is TRUE over a row.
pub fn holds(alloc: Global, cond: &Expr, vars: &[Var], row: &[Value]) -> Result<bool, NoMemory>
    ensures { IfOk result (λ b. b ≡ spec.holds cond.now (spec.bind vars.now row.now)) }
{
    let v = eval_expr(alloc, cond, vars, row)?;
    Ok(matches!(v, Value::Bool(true)))
}

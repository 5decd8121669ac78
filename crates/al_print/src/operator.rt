//! What operators hold beside their inputs.

ghost use Rattle.std.specs.Prelude.{◌≡◌, [], ◌∷◌, OnOk, map, codes};
ghost use Rattle.std.specs.List.{flat_map};
ghost use Rattle.al_plan.specs.Grammar as grammar;
ghost use Rattle.al_print.specs.Canonical.{after};

use crate::expr::put_expr;
use crate::line::Line;
use al_plan::{AggCall, Expr, Generator, OrderKey, Var};
use al_value::NoMemory;

fn put_var(line: &mut Line, v: &Var) -> Result<(), NoMemory>
    ensures { OnOk result (line.new ≡ after line.old (grammar.variable v.now ∷ [])) }
{
    line.variable(v.name.as_str())
}

fn put_each_var(line: &mut Line, vars: &[Var]) -> Result<(), NoMemory>
    ensures { OnOk result (line.new ≡ after line.old (map grammar.variable vars.now)) }
{
    for v in vars {
        put_var(line, v)?;
    }
    Ok(())
}

#[tactic(auto, using(crate::proofs::LineLaws::line_laws))]
pub fn put_vars(line: &mut Line, vars: &[Var]) -> Result<(), NoMemory>
    ensures { OnOk result (line.new ≡ after line.old (grammar.variables vars.now)) }
{
    line.open()?;
    put_each_var(line, vars)?;
    line.close()
}

/// A name with one expression, in parentheses.
fn put_call(line: &mut Line, name: &str, e: &Expr) -> Result<(), NoMemory>
    ensures { OnOk result (line.new ≡ after line.old (grammar.call_words name.now (e.now ∷ []))) }
{
    line.head(name)?;
    put_expr(line, e)?;
    line.close()
}

/// A name with two expressions, in parentheses.
fn put_pair(line: &mut Line, name: &str, a: &Expr, b: &Expr) -> Result<(), NoMemory>
    ensures { OnOk result (line.new ≡ after line.old (grammar.call_words name.now (a.now ∷ (b.now ∷ [])))) }
{
    line.head(name)?;
    put_expr(line, a)?;
    put_expr(line, b)?;
    line.close()
}

fn put_count_all(line: &mut Line) -> Result<(), NoMemory>
    ensures { OnOk result (line.new ≡ after line.old (grammar.call_words (codes "countall") [])) }
{
    line.head("countall")?;
    line.close()
}

fn put_agg(line: &mut Line, call: &AggCall) -> Result<(), NoMemory>
    ensures { OnOk result (line.new ≡ after line.old (grammar.agg_words call.now)) }
{
    match call {
        AggCall::CountAll => put_count_all(line),
        AggCall::Count(e) => put_call(line, "count", e),
        AggCall::Sum(e) => put_call(line, "sum", e),
        AggCall::Min(e) => put_call(line, "min", e),
        AggCall::Max(e) => put_call(line, "max", e),
    }
}

pub fn put_generator(line: &mut Line, items: &Generator) -> Result<(), NoMemory>
    ensures { OnOk result (line.new ≡ after line.old (grammar.generator_words items.now)) }
{
    match items {
        Generator::Range(a, b) => put_pair(line, "range", a, b),
        Generator::Split(t, s) => put_pair(line, "split", t, s),
    }
}

#[tactic(auto, using(crate::proofs::LineLaws::line_laws))]
fn put_assigned(line: &mut Line, made: &(Var, Expr)) -> Result<(), NoMemory>
    ensures { OnOk result (line.new ≡ after line.old (grammar.assigned_words made.now)) }
{
    let (v, e) = made;
    line.open()?;
    put_var(line, v)?;
    put_expr(line, e)?;
    line.close()
}

fn put_each_assigned(line: &mut Line, made: &[(Var, Expr)]) -> Result<(), NoMemory>
    ensures { OnOk result (line.new ≡ after line.old (flat_map grammar.assigned_words made.now)) }
{
    for m in made {
        put_assigned(line, m)?;
    }
    Ok(())
}

#[tactic(auto, using(crate::proofs::LineLaws::line_laws))]
pub fn put_assignments(line: &mut Line, made: &[(Var, Expr)]) -> Result<(), NoMemory>
    ensures { OnOk result (line.new ≡ after line.old (grammar.enclosed (flat_map grammar.assigned_words made.now))) }
{
    line.open()?;
    put_each_assigned(line, made)?;
    line.close()
}

#[tactic(auto, using(crate::proofs::LineLaws::line_laws))]
fn put_aggregated(line: &mut Line, made: &(Var, AggCall)) -> Result<(), NoMemory>
    ensures { OnOk result (line.new ≡ after line.old (grammar.aggregated_words made.now)) }
{
    let (v, call) = made;
    line.open()?;
    put_var(line, v)?;
    put_agg(line, call)?;
    line.close()
}

fn put_each_aggregated(line: &mut Line, made: &[(Var, AggCall)]) -> Result<(), NoMemory>
    ensures { OnOk result (line.new ≡ after line.old (flat_map grammar.aggregated_words made.now)) }
{
    for m in made {
        put_aggregated(line, m)?;
    }
    Ok(())
}

#[tactic(auto, using(crate::proofs::LineLaws::line_laws))]
pub fn put_aggregates(line: &mut Line, made: &[(Var, AggCall)]) -> Result<(), NoMemory>
    ensures { OnOk result (line.new ≡ after line.old (grammar.enclosed (flat_map grammar.aggregated_words made.now))) }
{
    line.open()?;
    put_each_aggregated(line, made)?;
    line.close()
}

#[tactic(auto, using(crate::proofs::LineLaws::line_laws))]
fn put_key(line: &mut Line, key: &(Var, Var)) -> Result<(), NoMemory>
    ensures { OnOk result (line.new ≡ after line.old (grammar.key_words key.now)) }
{
    let (new, old) = key;
    line.open()?;
    put_var(line, new)?;
    put_var(line, old)?;
    line.close()
}

fn put_each_key(line: &mut Line, keys: &[(Var, Var)]) -> Result<(), NoMemory>
    ensures { OnOk result (line.new ≡ after line.old (flat_map grammar.key_words keys.now)) }
{
    for key in keys {
        put_key(line, key)?;
    }
    Ok(())
}

#[tactic(auto, using(crate::proofs::LineLaws::line_laws))]
pub fn put_keys(line: &mut Line, keys: &[(Var, Var)]) -> Result<(), NoMemory>
    ensures { OnOk result (line.new ≡ after line.old (grammar.enclosed (flat_map grammar.key_words keys.now))) }
{
    line.open()?;
    put_each_key(line, keys)?;
    line.close()
}

fn direction(descending: bool) -> &'static str
    ensures { result.now ≡ grammar.direction descending }
{
    if descending { "desc" } else { "asc" }
}

#[tactic(auto, using(crate::proofs::LineLaws::line_laws))]
fn put_order_key(line: &mut Line, key: &OrderKey) -> Result<(), NoMemory>
    ensures { OnOk result (line.new ≡ after line.old (grammar.order_words key.now)) }
{
    line.open()?;
    put_var(line, &key.var)?;
    line.name(direction(key.descending))?;
    line.close()
}

fn put_each_order_key(line: &mut Line, keys: &[OrderKey]) -> Result<(), NoMemory>
    ensures { OnOk result (line.new ≡ after line.old (flat_map grammar.order_words keys.now)) }
{
    for key in keys {
        put_order_key(line, key)?;
    }
    Ok(())
}

#[tactic(auto, using(crate::proofs::LineLaws::line_laws))]
pub fn put_order(line: &mut Line, keys: &[OrderKey]) -> Result<(), NoMemory>
    ensures { OnOk result (line.new ≡ after line.old (grammar.enclosed (flat_map grammar.order_words keys.now))) }
{
    line.open()?;
    put_each_order_key(line, keys)?;
    line.close()
}

//! Expressions and what operators hold beside their inputs.

ghost use Rattle.std.specs.Prelude.{◌≡◌, [], ◌∷◌, OnOk};
ghost use Rattle.std.specs.List.{flat_map};
ghost use Rattle.al_plan.specs.Grammar as grammar;
ghost use Rattle.al_plan.specs.Grammar.{expr_words};
ghost use Rattle.al_print.specs.Canonical.{after};

use crate::line::Line;
use al_func::Func;
use al_plan::{AggCall, Expr, Generator, OrderKey, Var};
use al_value::{NoMemory, Value};

fn func_name(f: Func) -> &'static str
    ensures { result.now ≡ grammar.func_name f }
{
    match f {
        Func::Eq => "eq",
        Func::Lt => "lt",
        Func::Le => "le",
        Func::And => "and",
        Func::Or => "or",
        Func::Not => "not",
        Func::Add => "add",
        Func::Sub => "sub",
        Func::Mul => "mul",
        Func::Div => "div",
        Func::Mod => "mod",
        Func::Neg => "neg",
        Func::Concat => "concat",
        Func::Length => "length",
        Func::Substr => "substr",
        Func::LowerAscii => "lower_ascii",
        Func::If => "if",
        Func::IsNull => "is_null",
        Func::Coalesce => "coalesce",
    }
}

fn put_literal(line: &mut Line, v: &Value) -> Result<(), NoMemory>
    ensures { OnOk result (line.new ≡ after line.old (grammar.plain (grammar.literal v.now) ∷ [])) }
{
    match v {
        Value::Null => line.name("null"),
        Value::Bool(true) => line.name("true"),
        Value::Bool(false) => line.name("false"),
        Value::Int(n) => line.int(*n),
        Value::Text(text) => line.string(text.as_str()),
    }
}

#[cycle(put_expr)]
fn put_args(line: &mut Line, args: &[Expr]) -> Result<(), NoMemory>
    ensures { OnOk result (line.new ≡ after line.old (flat_map expr_words args.now)) }
{
    for e in args {
        put_expr(line, e)?;
    }
    Ok(())
}

#[cycle(put_expr)]
#[tactic(auto, using(al_plan::proofs::GrammarLaws::expr_words_laws, crate::proofs::LineLaws::line_laws))]
pub fn put_expr(line: &mut Line, e: &Expr) -> Result<(), NoMemory>
    ensures { OnOk result (line.new ≡ after line.old (expr_words e.now)) }
{
    match e {
        Expr::Var(v) => line.variable(v.name.as_str()),
        Expr::Lit(v) => put_literal(line, v),
        Expr::Call(f, args) => {
            line.head(func_name(*f))?;
            put_args(line, args.as_slice())?;
            line.close()
        }
    }
}

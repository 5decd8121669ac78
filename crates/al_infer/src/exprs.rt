ghost use Rattle.std.specs.Prelude.{◌≡◌, ◌++◌, map};
ghost use Rattle.std.specs.List.{flat_map, list_all};
ghost use Rattle.al_plan.specs.declared.plan.Plan.{out-Plan};
ghost use Rattle.al_plan.specs.Names as names;
ghost use Rattle.al_plan.specs.Accept as spec;
ghost use Rattle.al_infer.specs.Asked.{asks};

use crate::names::is_among;
use al_func::arity;
use al_plan::{AggCall, Expr, Generator, Plan, Var};

#[cycle(has_arities)]
#[tactic(auto, using(crate::proofs::ExprLaws::arity_laws))]
fn args_have_arities(args: &[Expr]) -> bool
    ensures { result ≡ list_all names.has_arities args.now }
{
    for e in args {
        if !has_arities(e) {
            return false;
        }
    }
    true
}

/// Whether each function has as many arguments as it takes.
#[cycle(has_arities)]
#[tactic(auto, using(crate::proofs::ExprLaws::arity_laws))]
fn has_arities(e: &Expr) -> bool
    ensures { result ≡ names.has_arities e.now }
{
    match e {
        Expr::Var(_) => true,
        Expr::Lit(_) => true,
        Expr::Call(f, args) => args.len() == arity(*f) as usize
            && args_have_arities(args.as_slice()),
    }
}

#[cycle(reads_among)]
#[tactic(auto, using(crate::proofs::ExprLaws::read_laws))]
fn args_read_among(left: &[Var], right: &[Var], args: &[Expr]) -> bool
    ensures { result ≡ list_all (spec.reads_among (left.now ++ right.now)) args.now }
{
    for e in args {
        if !reads_among(left, right, e) {
            return false;
        }
    }
    true
}

/// Whether an expression reads variables of these two lists alone.
#[cycle(reads_among)]
#[tactic(auto, using(crate::proofs::ExprLaws::read_laws))]
fn reads_among(left: &[Var], right: &[Var], e: &Expr) -> bool
    ensures { result ≡ spec.reads_among (left.now ++ right.now) e.now }
{
    match e {
        Expr::Var(v) => is_among(left, &v.name) || is_among(right, &v.name),
        Expr::Lit(_) => true,
        Expr::Call(_, args) => args_read_among(left, right, args.as_slice()),
    }
}

/// What is asked of an expression.
#[derive(Clone, Copy)]
pub enum Asked<'a> {
    /// That each function has as many arguments as it takes.
    Arities,
    /// That it reads variables of these two lists alone.
    Reads(&'a [Var], &'a [Var]),
}

fn keeps(asked: Asked<'_>, e: &Expr) -> bool
    ensures { result ≡ asks asked.entry e.now }
{
    match asked {
        Asked::Arities => has_arities(e),
        Asked::Reads(left, right) => reads_among(left, right, e),
    }
}

fn assigned_keep(asked: Asked<'_>, made: &[(Var, Expr)]) -> bool
    ensures { result ≡ list_all (asks asked.entry) (map (λ m. m.1) made.now) }
{
    for (_, e) in made {
        if !keeps(asked, e) {
            return false;
        }
    }
    true
}

fn agg_keeps(asked: Asked<'_>, call: &AggCall) -> bool
    ensures { result ≡ list_all (asks asked.entry) (names.agg_exprs call.now) }
{
    match call {
        AggCall::CountAll => true,
        AggCall::Count(e) => keeps(asked, e),
        AggCall::Sum(e) => keeps(asked, e),
        AggCall::Min(e) => keeps(asked, e),
        AggCall::Max(e) => keeps(asked, e),
    }
}

fn aggregated_keep(asked: Asked<'_>, made: &[(Var, AggCall)]) -> bool
    ensures { result ≡ list_all (asks asked.entry) (flat_map (λ m. names.agg_exprs m.1) made.now) }
{
    for (_, call) in made {
        if !agg_keeps(asked, call) {
            return false;
        }
    }
    true
}

fn items_keep(asked: Asked<'_>, items: &Generator) -> bool
    ensures { result ≡ list_all (asks asked.entry) (names.item_exprs items.now) }
{
    match items {
        Generator::Range(a, b) => keeps(asked, a) && keeps(asked, b),
        Generator::Split(text, separator) => keeps(asked, text) && keeps(asked, separator),
    }
}

#[tactic(auto, using(crate::proofs::Operators::operators))]
/// Whether each expression of an operator is as asked.
pub fn exprs_keep(asked: Asked<'_>, op: &Plan) -> bool
    ensures { result ≡ list_all (asks asked.entry) (spec.exprs_of (out-Plan op.now)) }
{
    match op {
        Plan::Assign { made, .. } => assigned_keep(asked, made.as_slice()),
        Plan::Select { cond, .. } => keeps(asked, cond),
        Plan::Join { cond, .. } => keeps(asked, cond),
        Plan::LeftJoin { cond, .. } => keeps(asked, cond),
        Plan::Check { cond, .. } => keeps(asked, cond),
        Plan::Unnest { items, .. } => items_keep(asked, items),
        Plan::Aggregate { made, .. } => aggregated_keep(asked, made.as_slice()),
        _ => true,
    }
}

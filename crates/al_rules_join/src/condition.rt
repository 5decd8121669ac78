//! What the rules ask of conditions.

ghost use Rattle.std.specs.Prelude.{◌≡◌, Bool, true};
ghost use Rattle.std.specs.List.{flat_map, list_any};
ghost use Rattle.al_plan.specs.declared.expr.Expr.{Expr};
ghost use Rattle.al_plan.specs.Names.{names};
ghost use Rattle.al_rules_join.specs.JoinRules as meaning;

use al_conj::{LiteralTrue, Property};
use al_func::Func;
use al_plan::{Expr, Plan};
use al_rule::{is_live, reads_live};

#[cycle(has_variable)]
fn any_has_variable(args: &[Expr]) -> bool
    ensures { result ≡ list_any (λ q. true) (flat_map names args.now) }
{
    for e in args {
        if has_variable(e) {
            return true;
        }
    }
    false
}

/// Whether an expression has a variable.
#[cycle(has_variable)]
#[tactic(auto, using(crate::proofs::ConditionLaws::variable_laws))]
fn has_variable(e: &Expr) -> bool
    ensures { result ≡ meaning.has_variable e.now }
{
    match e {
        Expr::Var(_) => true,
        Expr::Lit(_) => false,
        Expr::Call(_, args) => any_has_variable(args.as_slice()),
    }
}

/// That a conjunct other than the literal true reads live variables of an input alone.
#[derive(Drop)]
pub struct IsOf<'a> {
    pub input: &'a Plan,
}

impl<'a> Property for IsOf<'a> {
    ghost holds_of = { λ self. meaning.is_of self.input.now };

    fn holds_of(&self, e: &Expr) -> bool {
        !LiteralTrue.holds_of(e) && reads_live(e, self.input)
    }
}

/// That a conjunct has a variable and reads live variables of an input alone.
#[derive(Drop)]
pub struct ReadsOf<'a> {
    pub input: &'a Plan,
}

impl<'a> Property for ReadsOf<'a> {
    ghost holds_of = { λ self. meaning.reads_of self.input.now };

    fn holds_of(&self, e: &Expr) -> bool {
        has_variable(e) && reads_live(e, self.input)
    }
}

/// Whether an expression is a variable that is live in a plan.
#[tactic(auto, using(crate::proofs::ConditionLaws::compare_laws))]
fn is_variable_of(e: &Expr, p: &Plan) -> bool
    ensures { result ≡ meaning.is_variable_of p.now e.now }
{
    match e {
        Expr::Var(v) => is_live(v, p),
        Expr::Lit(_) => false,
        Expr::Call(_, _) => false,
    }
}

fn is_comparison(f: Func) -> bool
    ensures { result ≡ meaning.is_comparison f }
{
    matches!(f, Func::Eq | Func::Lt | Func::Le)
}

fn any_variable_of(args: &[Expr], p: &Plan) -> bool
    ensures { result ≡ list_any (meaning.is_variable_of p.now) args.now }
{
    args.iter().any(|e| is_variable_of(e, p))
}

/// Whether an expression compares a variable that is live in a plan.
#[tactic(auto, using(crate::proofs::ConditionLaws::compare_laws))]
pub fn compares(e: &Expr, p: &Plan) -> bool
    ensures { result ≡ meaning.compares p.now e.now }
{
    match e {
        Expr::Var(_) => false,
        Expr::Lit(_) => false,
        Expr::Call(f, args) => is_comparison(*f) && any_variable_of(args.as_slice(), p),
    }
}

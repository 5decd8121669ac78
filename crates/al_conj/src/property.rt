ghost use Rattle.std.specs.Prelude.{◌≡◌, Bool};
ghost use Rattle.std.specs.List.{list_any};
ghost use Rattle.al_plan.specs.declared.expr.Expr.{Expr};
ghost use Rattle.al_func.specs.Func.{is_true};
ghost use Rattle.al_conj.specs.Conj.{conj, is_literal_true};

use crate::condition::sides;
use al_plan::Expr;
use al_value::Value;

/// A property of conjuncts that code can decide.
pub trait Property {
    /// Whether a conjunct has it.
    ghost holds_of: { Self → Expr → Bool };

    fn holds_of(&self, e: &Expr) -> bool
        ensures { result ≡ holds_of self.now e.now };
}

/// That a conjunct is the literal true.
pub struct LiteralTrue;

fn is_true_value(v: &Value) -> bool
    ensures { result ≡ is_true v.now }
{
    match v {
        Value::Bool(b) => *b,
        _ => false,
    }
}

impl Property for LiteralTrue {
    ghost holds_of = { λ s e. is_literal_true e };

    #[tactic(auto, using(crate::proofs::Literals::literals))]
    fn holds_of(&self, e: &Expr) -> bool {
        match e {
            Expr::Lit(v) => is_true_value(v),
            Expr::Var(_) => false,
            Expr::Call(_, _) => false,
        }
    }
}

/// Whether a conjunct has the property. Takes no memory.
#[tactic(auto, using(crate::proofs::ConjLaws::has_sides, crate::proofs::ConjLaws::has_leaf))]
pub fn has_conjunct<P: Property>(property: &P, e: &Expr) -> bool
    ensures { result ≡ list_any (P.holds_of property.now) (conj e.now) }
{
    match sides(e) {
        Some((left, right)) => has_conjunct(property, left) || has_conjunct(property, right),
        None => property.holds_of(e),
    }
}

ghost use Rattle.std.specs.Prelude.{◌≡◌, IfOk, length, [], ◌∷◌};
ghost use Rattle.al_func.specs.Func as spec;

use crate::func::Func;
use crate::ints::{add, div, modulo, mul, neg, sub};
use crate::logic::{and, at_most, choose, coalesce, equal, is_null, less, not, or};
use crate::texts::{concat, length, lower_ascii, substr};
use al_value::{NoMemory, Value};
use std::alloc::Global;

#[tactic(auto, unfolding(crate::specs::Func::apply))]
fn apply_one(alloc: Global, f: Func, a: &Value) -> Result<Value, NoMemory>
    requires { spec.arity f ≡ 1 }
    ensures { IfOk result (λ v. v ≡ spec.apply f (a.now ∷ [])) }
{
    match f {
        Func::Not => Ok(not(a)),
        Func::Neg => Ok(neg(a)),
        Func::Length => Ok(length(a)),
        Func::LowerAscii => lower_ascii(alloc, a),
        Func::IsNull => Ok(is_null(a)),
        _ => unreachable!(),
    }
}

#[tactic(auto, unfolding(crate::specs::Func::apply))]
fn apply_two(alloc: Global, f: Func, a: &Value, b: &Value) -> Result<Value, NoMemory>
    requires { spec.arity f ≡ 2 }
    ensures { IfOk result (λ v. v ≡ spec.apply f (a.now ∷ b.now ∷ [])) }
{
    match f {
        Func::Eq => Ok(equal(a, b)),
        Func::Lt => Ok(less(a, b)),
        Func::Le => Ok(at_most(a, b)),
        Func::And => Ok(and(a, b)),
        Func::Or => Ok(or(a, b)),
        Func::Add => Ok(add(a, b)),
        Func::Sub => Ok(sub(a, b)),
        Func::Mul => Ok(mul(a, b)),
        Func::Div => Ok(div(a, b)),
        Func::Mod => Ok(modulo(a, b)),
        Func::Concat => concat(alloc, a, b),
        Func::Coalesce => coalesce(alloc, a, b),
        _ => unreachable!(),
    }
}

#[tactic(auto, unfolding(crate::specs::Func::apply))]
fn apply_three(alloc: Global, f: Func, a: &Value, b: &Value, c: &Value) -> Result<Value, NoMemory>
    requires { spec.arity f ≡ 3 }
    ensures { IfOk result (λ v. v ≡ spec.apply f (a.now ∷ b.now ∷ c.now ∷ [])) }
{
    match f {
        Func::Substr => substr(alloc, a, b, c),
        Func::If => choose(alloc, a, b, c),
        _ => unreachable!(),
    }
}

/// The result of a function on as many arguments as it takes.
pub fn apply(alloc: Global, f: Func, args: &[Value]) -> Result<Value, NoMemory>
    requires { length args.now ≡ spec.arity f }
    ensures { IfOk result (λ v. v ≡ spec.apply f args.now) }
{
    match args {
        [a] => apply_one(alloc, f, a),
        [a, b] => apply_two(alloc, f, a, b),
        [a, b, c] => apply_three(alloc, f, a, b, c),
        _ => unreachable!(),
    }
}

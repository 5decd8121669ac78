//! Conditions as lists of conjuncts, and lists as conditions.

ghost use Rattle.std.specs.Prelude.{◌≡◌, ◌≤◌, ◌++◌, ◌↔◌, length, IfOk, IsTrue, MatchOption, OnOk};
ghost use Rattle.al_conj.specs.Conj as meaning;
ghost use Rattle.al_conj.specs.Conj.{IsLeaf, conj};

use al_func::Func;
use al_plan::Expr;
use al_value::{List, NoMemory, Value};
use std::alloc::Global;

/// The two sides of an `and`; a leaf has none.
pub fn sides(e: &Expr) -> Option<(&Expr, &Expr)>
    ensures { MatchOption result (IsLeaf e.now) (λ s. e.now ≡ meaning.both s.0.now s.1.now) }
{
    match e {
        Expr::Call(Func::And, args) => match args.as_slice() {
            [left, right] => Some((left, right)),
            _ => None,
        },
        _ => None,
    }
}

/// Whether a condition has two conjuncts or more.
#[tactic(auto, using(crate::proofs::ConjLaws::many_sides, crate::proofs::ConjLaws::one_leaf))]
pub fn is_and(e: &Expr) -> bool
    ensures { IsTrue result ↔ (2 ≤ length (conj e.now)) }
{
    sides(e).is_some()
}

/// The conjuncts of a condition, from the left.
pub fn conjuncts(alloc: Global, e: &Expr) -> Result<List<Expr>, NoMemory>
    ensures { IfOk result (λ es. es ≡ conj e.now) }
{
    let mut found = List::new(alloc);
    gather(alloc, e, &mut found)?;
    Ok(found)
}

#[tactic(auto, using(crate::proofs::ConjLaws::conj_laws))]
fn gather(alloc: Global, e: &Expr, found: &mut List<Expr>) -> Result<(), NoMemory>
    ensures { OnOk result (found.new ≡ found.old ++ conj e.now) }
{
    match sides(e) {
        Some((left, right)) => {
            gather(alloc, left, found)?;
            gather(alloc, right, found)
        }
        None => found.push(e.copy(alloc)?),
    }
}

/// The condition that both are TRUE.
pub fn both(alloc: Global, left: Expr, right: Expr) -> Result<Expr, NoMemory>
    ensures { IfOk result (λ e. e ≡ meaning.both left right) }
{
    let mut args = List::new(alloc);
    args.push(left)?;
    args.push(right)?;
    Ok(Expr::Call(Func::And, args))
}

/// Conjuncts as one condition, nested to the right; none is `true`.
pub fn all_of(alloc: Global, conjuncts: List<Expr>) -> Result<Expr, NoMemory>
    ensures { IfOk result (λ e. e ≡ meaning.all_of conjuncts) }
{
    let mut before = conjuncts;
    let Some(last) = before.pop() else {
        return Ok(Expr::Lit(Value::Bool(true)));
    };
    let mut whole = last;
    while let Some(e) = before.pop() {
        whole = both(alloc, e, whole)?;
    }
    Ok(whole)
}

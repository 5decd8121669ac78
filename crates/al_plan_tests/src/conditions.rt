use al_conj::{
    LiteralTrue, all_of, both, conjunct_laws, conjuncts, has_conjunct, is_and, take_first,
};
use al_plan::Expr;
use al_value::{List, NoMemory, Value};
use std::alloc::Global;
use std::test::Fail;

fn number(n: i64) -> Expr {
    Expr::Lit(Value::Int(n))
}

fn numbers(alloc: Global, count: u32) -> Result<List<Expr>, NoMemory> {
    let mut all = List::new(alloc);
    for n in 0..count {
        all.push(number(i64::from(n)))?;
    }
    Ok(all)
}

/// `(and (and 0 true) 1)`
fn small(alloc: Global) -> Result<Expr, NoMemory> {
    let inner = both(alloc, number(0), Expr::Lit(Value::Bool(true)))?;
    both(alloc, inner, number(1))
}

/// A balanced tree with two to the power of `height` leaves, the literal true each.
fn balanced(alloc: Global, height: u32) -> Result<Expr, NoMemory> {
    let mut whole = Expr::Lit(Value::Bool(true));
    for _ in 0..height {
        whole = both(alloc, whole.copy(alloc)?, whole)?;
    }
    Ok(whole)
}

#[test]
fn takes_a_condition_apart(rt: HostRuntime) -> Result<(), Fail> {
    let c = small(rt.alloc())?;
    assert!(rt; is_and(&c) && has_conjunct(&LiteralTrue, &c));
    assert!(rt; conjuncts(rt.alloc(), &c)?.len() == 3);
    let without = both(rt.alloc(), number(0), number(1))?;
    let split = take_first(rt.alloc(), &LiteralTrue, &c)?;
    assert!(rt; split.is_some_and(|s| s.rest == without));
    assert!(rt; take_first(rt.alloc(), &LiteralTrue, &without)?.is_none());
    Ok(())
}

#[test]
fn puts_conjuncts_together(rt: HostRuntime) -> Result<(), Fail> {
    let right = both(rt.alloc(), number(1), number(2))?;
    assert!(rt;
        all_of(rt.alloc(), numbers(rt.alloc(), 3)?)? == both(rt.alloc(), number(0), right)?
    );
    assert!(rt; all_of(rt.alloc(), numbers(rt.alloc(), 0)?)? == Expr::Lit(Value::Bool(true)));
    Ok(())
}

/// A proof bounds no stack: more than 800 conjuncts, balanced and nested to the right.
#[test]
fn stays_within_the_stack(rt: HostRuntime) -> Result<(), Fail> {
    let tree = balanced(rt.alloc(), 10)?;
    let list = all_of(rt.alloc(), numbers(rt.alloc(), 1000)?)?;
    assert!(rt; conjuncts(rt.alloc(), &tree)?.len() == 1024);
    assert!(rt; conjuncts(rt.alloc(), &list)?.len() == 1000);
    assert!(rt; !has_conjunct(&LiteralTrue, &list));
    assert!(rt; take_first(rt.alloc(), &LiteralTrue, &tree)?.is_some());
    Ok(())
}

#[test]
fn calls_the_laws(_rt: HostRuntime) -> Result<(), Fail> {
    conjunct_laws();
    Ok(())
}

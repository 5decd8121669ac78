use al_cases::{refine_cases, worked_cases};
use al_func::Func;
use al_plan::{Expr, Plan, Var, live, ordered, plan_laws, uses};
use al_value::{List, Name, NoMemory, Text, Value};
use std::alloc::Global;
use std::test::Fail;

fn var(alloc: Global, name: &str) -> Result<Expr, NoMemory> {
    let name = Name::new(alloc, name)?;
    Ok(Expr::Var(Var { name }))
}

/// `(eq (eq $b $a) $b)`
fn equal(alloc: Global) -> Result<Expr, NoMemory> {
    let mut inner = List::new(alloc);
    inner.push(var(alloc, "b")?)?;
    inner.push(var(alloc, "a")?)?;
    let mut outer = List::new(alloc);
    outer.push(Expr::Call(Func::Eq, inner))?;
    outer.push(var(alloc, "b")?)?;
    Ok(Expr::Call(Func::Eq, outer))
}

#[test]
fn copies_an_expression(rt: HostRuntime) -> Result<(), Fail> {
    let mut args = List::new(rt.alloc());
    args.push(var(rt.alloc(), "a")?)?;
    args.push(Expr::Lit(Value::Text(Text::new(rt.alloc(), "x")?)))?;
    let e = Expr::Call(Func::Eq, args);
    assert!(rt; e.copy(rt.alloc())? == e);
    Ok(())
}

#[test]
fn names_each_variable_once(rt: HostRuntime) -> Result<(), Fail> {
    let vars = uses(rt.alloc(), &equal(rt.alloc())?)?;
    let names = vars.as_slice();
    assert!(rt; names.len() == 2);
    assert!(rt; names[0].name.as_str() == "b" && names[1].name.as_str() == "a");
    Ok(())
}

#[test]
fn tells_of_the_empty_plan(rt: HostRuntime) -> Result<(), Fail> {
    assert!(rt; live(rt.alloc(), &Plan::Empty)?.is_empty());
    assert!(rt; !ordered(&Plan::Empty));
    Ok(())
}

#[test]
fn calls_the_laws() {
    plan_laws();
    worked_cases();
    refine_cases();
}

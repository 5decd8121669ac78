use al_func::Func;
use al_phys::{
    JoinForm, Local, Need, Partitioning, Phys, delivered, meets, phys_laws, phys_live,
    placed_cases, required,
};
use al_plan::{Expr, Var};
use al_value::{Boxed, List, Name, NoMemory};
use std::alloc::Global;
use std::test::Fail;

fn var(alloc: Global, name: &str) -> Result<Var, NoMemory> {
    let name = Name::new(alloc, name)?;
    Ok(Var { name })
}

fn one_var(alloc: Global, name: &str) -> Result<List<Var>, NoMemory> {
    let mut vars = List::new(alloc);
    vars.push(var(alloc, name)?)?;
    Ok(vars)
}

fn two_vars(alloc: Global) -> Result<List<Var>, NoMemory> {
    let mut vars = one_var(alloc, "a")?;
    vars.push(var(alloc, "b")?)?;
    Ok(vars)
}

/// `(scan NAME ($a))`, where the variable is named as the dataset.
fn scan(alloc: Global, name: &str) -> Result<Boxed<Phys>, NoMemory> {
    let set = Name::new(alloc, name)?;
    let vars = one_var(alloc, name)?;
    Boxed::new(alloc, Phys::Scan { set, vars })
}

/// `(eq $b $a)`
fn equation(alloc: Global) -> Result<Expr, NoMemory> {
    let mut args = List::new(alloc);
    args.push(Expr::Var(var(alloc, "b")?))?;
    args.push(Expr::Var(var(alloc, "a")?))?;
    Ok(Expr::Call(Func::Eq, args))
}

/// A hash join of `a` and `b` by an equation that names the right variable first.
fn join(alloc: Global) -> Result<Phys, NoMemory> {
    let cond = equation(alloc)?;
    let left = scan(alloc, "a")?;
    let right = scan(alloc, "b")?;
    Ok(Phys::Join {
        form: JoinForm::HashJoin,
        cond,
        left,
        right,
    })
}

#[test]
fn meets_by_the_table(rt: HostRuntime) -> Result<(), Fail> {
    let by_a = Partitioning::Hash(one_var(rt.alloc(), "a")?);
    let by_both = Partitioning::Hash(two_vars(rt.alloc())?);
    let keyed_a = Need::Keyed(one_var(rt.alloc(), "a")?);
    let keyed_both = Need::Keyed(two_vars(rt.alloc())?);
    assert!(rt; meets(&by_a, &keyed_both, 4));
    assert!(rt; !meets(&by_both, &keyed_a, 4));
    assert!(rt; !meets(&Partitioning::Broadcast, &Need::Any, 2));
    assert!(rt; meets(&Partitioning::Broadcast, &Need::Any, 1));
    Ok(())
}

#[test]
fn a_join_needs_and_delivers_its_keys(rt: HostRuntime) -> Result<(), Fail> {
    let join = join(rt.alloc())?;
    assert!(rt; required(rt.alloc(), &join, 0)? == Need::Exactly(one_var(rt.alloc(), "a")?));
    assert!(rt; required(rt.alloc(), &join, 1)? == Need::Exactly(one_var(rt.alloc(), "b")?));
    let (parts, order) = delivered(rt.alloc(), &join, 4)?;
    assert!(rt; parts == Partitioning::Hash(one_var(rt.alloc(), "a")?));
    assert!(rt; order == Local::None);
    assert!(rt; phys_live(rt.alloc(), &join)? == two_vars(rt.alloc())?);
    Ok(())
}

#[test]
fn calls_the_laws(_rt: HostRuntime) -> Result<(), Fail> {
    phys_laws();
    placed_cases();
    Ok(())
}

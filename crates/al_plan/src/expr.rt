ghost use Rattle.std.specs.Prelude.{◌≡◌, IfOk};

use al_func::Func;
use al_value::{List, Name, NoMemory, Value};
use std::alloc::Global;

/// A logical variable. Its name is without the `$` of the plan text.
#[derive(Debug, PartialEq, Eq, Drop)]
pub struct Var {
    pub name: Name,
}

impl Var {
    pub fn copy(&self, alloc: Global) -> Result<Var, NoMemory>
        ensures { IfOk result (λ v. v ≡ self.now) }
    {
        let name = self.name.copy(alloc)?;
        Ok(Var { name })
    }
}

/// An expression over the variables of a row.
#[derive(Debug, PartialEq, Drop)]
pub enum Expr {
    Var(Var),
    Lit(Value),
    Call(Func, List<Expr>),
}

#[cycle(copy_expr)]
fn copy_args(alloc: Global, args: &[Expr]) -> Result<List<Expr>, NoMemory>
    ensures { IfOk result (λ copies. copies ≡ args.now) }
{
    let mut copies = List::new(alloc);
    for e in args {
        copies.push(copy_expr(alloc, e)?)?;
    }
    Ok(copies)
}

#[cycle(copy_expr)]
fn copy_expr(alloc: Global, e: &Expr) -> Result<Expr, NoMemory>
    ensures { IfOk result (λ c. c ≡ e.now) }
{
    match e {
        Expr::Var(v) => Ok(Expr::Var(v.copy(alloc)?)),
        Expr::Lit(v) => Ok(Expr::Lit(v.copy(alloc)?)),
        Expr::Call(f, args) => Ok(Expr::Call(*f, copy_args(alloc, args.as_slice())?)),
    }
}

impl Expr {
    pub fn copy(&self, alloc: Global) -> Result<Expr, NoMemory>
        ensures { IfOk result (λ c. c ≡ self.now) }
    {
        copy_expr(alloc, self)
    }
}

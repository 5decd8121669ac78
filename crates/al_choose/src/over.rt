//! The operators that stay what they are, over what is chosen for their inputs.

ghost use Rattle.std.specs.Prelude.{◌≡◌, IfOk};
ghost use Rattle.al_phys.specs.Operators as meaning;
ghost use Rattle.al_phys.specs.declared.phys.Phys.TheVariants as Q;
ghost use Rattle.al_phys.specs.declared.property.Need.TheVariants as N;
ghost use Rattle.al_choose.specs.Chosen as spec;

use crate::copies::{copy_assigned, copy_vars};
use crate::exchange::served;
use al_phys::{Need, Phys, phys_live};
use al_plan::{Expr, Generator, Plan, Var};
use al_value::{Boxed, Name, NoMemory, Text};
use std::alloc::Global;

pub fn scan_of(alloc: Global, set: &Name, vars: &[Var]) -> Result<Boxed<Phys>, NoMemory>
    ensures { IfOk result (λ q. q ≡ Q.Scan set.now vars.now) }
{
    let set = set.copy(alloc)?;
    let vars = copy_vars(alloc, vars)?;
    Boxed::new(alloc, Phys::Scan { set, vars })
}

pub fn assign_over(
    alloc: Global,
    made: &[(Var, Expr)],
    input: Boxed<Phys>,
) -> Result<Boxed<Phys>, NoMemory>
    ensures { IfOk result (λ q. q ≡ Q.Assign made.now input) }
{
    let made = copy_assigned(alloc, made)?;
    Boxed::new(alloc, Phys::Assign { made, input })
}

pub fn select_over(alloc: Global, cond: &Expr, input: Boxed<Phys>) -> Result<Boxed<Phys>, NoMemory>
    ensures { IfOk result (λ q. q ≡ Q.Select cond.now input) }
{
    let cond = cond.copy(alloc)?;
    Boxed::new(alloc, Phys::Select { cond, input })
}

pub fn project_over(
    alloc: Global,
    vars: &[Var],
    input: Boxed<Phys>,
) -> Result<Boxed<Phys>, NoMemory>
    ensures { IfOk result (λ q. q ≡ Q.Project vars.now input) }
{
    let vars = copy_vars(alloc, vars)?;
    Boxed::new(alloc, Phys::Project { vars, input })
}

pub fn unnest_over(
    alloc: Global,
    var: &Var,
    items: &Generator,
    input: Boxed<Phys>,
) -> Result<Boxed<Phys>, NoMemory>
    ensures { IfOk result (λ q. q ≡ Q.Unnest var.now items.now input) }
{
    let var = var.copy(alloc)?;
    let items = items.copy(alloc)?;
    Boxed::new(alloc, Phys::Unnest { var, items, input })
}

pub fn subplan_over(
    alloc: Global,
    nested: &Plan,
    input: Boxed<Phys>,
) -> Result<Boxed<Phys>, NoMemory>
    ensures { IfOk result (λ q. q ≡ Q.Subplan nested.now input) }
{
    let nested = nested.copy(alloc)?;
    Boxed::new(alloc, Phys::Subplan { nested, input })
}

pub fn check_over(
    alloc: Global,
    name: &Text,
    cond: &Expr,
    input: Boxed<Phys>,
) -> Result<Boxed<Phys>, NoMemory>
    ensures { IfOk result (λ q. q ≡ Q.Check name.now cond.now input) }
{
    let name = name.copy(alloc)?;
    let cond = cond.copy(alloc)?;
    Boxed::new(alloc, Phys::Check { name, cond, input })
}

pub fn union_over(
    alloc: Global,
    made: &[Var],
    left_vars: &[Var],
    right_vars: &[Var],
    left: Boxed<Phys>,
    right: Boxed<Phys>,
) -> Result<Boxed<Phys>, NoMemory>
    ensures { IfOk result (λ q. q ≡ Q.Union made.now left_vars.now right_vars.now left right) }
{
    let made = copy_vars(alloc, made)?;
    let left_vars = copy_vars(alloc, left_vars)?;
    let right_vars = copy_vars(alloc, right_vars)?;
    Boxed::new(
        alloc,
        Phys::Union {
            made,
            left_vars,
            right_vars,
            left,
            right,
        },
    )
}

/// Rows that are equal stand in one part, and each part keeps one of them.
pub fn distinct_over(
    alloc: Global,
    p: Boxed<Phys>,
    partitions: u32,
) -> Result<Boxed<Phys>, NoMemory>
    ensures { IfOk result (λ q. q ≡ Q.HashDistinct (spec.served partitions (N.Keyed (meaning.phys_live p)) p)) }
{
    let need = Need::Keyed(phys_live(alloc, p.get())?);
    let input = served(alloc, need, p, partitions)?;
    Boxed::new(alloc, Phys::HashDistinct { input })
}

/// All rows stand in one part.
pub fn result_over(
    alloc: Global,
    vars: &[Var],
    p: Boxed<Phys>,
    partitions: u32,
) -> Result<Boxed<Phys>, NoMemory>
    ensures { IfOk result (λ q. q ≡ Q.Result vars.now (spec.served partitions N.One p)) }
{
    let vars = copy_vars(alloc, vars)?;
    let input = served(alloc, Need::One, p, partitions)?;
    Boxed::new(alloc, Phys::Result { vars, input })
}

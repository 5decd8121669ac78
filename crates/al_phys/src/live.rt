//! Which variables the rows of a physical plan have.

ghost use Rattle.std.specs.Prelude.{◌≡◌, IfOk};
ghost use Rattle.al_phys.specs.Operators as meaning;

use crate::copies::{copy_vars, joined, with_made};
use crate::phys::Phys;
use al_plan::{Var, live};
use al_value::{List, NoMemory};
use std::alloc::Global;

/// The live variables of a physical plan, in order.
#[tactic(auto, using(crate::proofs::PhysRules::plive_laws))]
pub fn phys_live(alloc: Global, p: &Phys) -> Result<List<Var>, NoMemory>
    ensures { IfOk result (λ vars. vars ≡ meaning.phys_live p.now) }
{
    match p {
        Phys::Scan { vars, .. } => copy_vars(alloc, vars.as_slice()),
        Phys::One => Ok(List::new(alloc)),
        Phys::Assign { made, input } => {
            let vars = phys_live(alloc, input.get())?;
            with_made(alloc, vars, made.as_slice())
        }
        Phys::Select { input, .. } => phys_live(alloc, input.get()),
        Phys::Project { vars, .. } => copy_vars(alloc, vars.as_slice()),
        Phys::Unnest { var, input, .. } => {
            let mut vars = phys_live(alloc, input.get())?;
            vars.push(var.copy(alloc)?)?;
            Ok(vars)
        }
        Phys::Subplan { nested, input } => {
            let vars = phys_live(alloc, input.get())?;
            let inner = live(alloc, nested)?;
            joined(alloc, vars, inner.as_slice())
        }
        Phys::Check { input, .. } => phys_live(alloc, input.get()),
        Phys::Join { left, right, .. } => {
            let vars = phys_live(alloc, left.get())?;
            let more = phys_live(alloc, right.get())?;
            joined(alloc, vars, more.as_slice())
        }
        Phys::HashGroup { keys, nested, .. } => {
            let inner = live(alloc, nested)?;
            let new = with_made(alloc, List::new(alloc), keys.as_slice())?;
            joined(alloc, new, inner.as_slice())
        }
        Phys::PreGroup { keys, nested, .. } => {
            let inner = live(alloc, nested)?;
            let new = with_made(alloc, List::new(alloc), keys.as_slice())?;
            joined(alloc, new, inner.as_slice())
        }
        Phys::HashDistinct { input } => phys_live(alloc, input.get()),
        Phys::AggPart { .. } => Ok(List::new(alloc)),
        Phys::AggFinal { made, .. } => with_made(alloc, List::new(alloc), made.as_slice()),
        Phys::Union { made, .. } => copy_vars(alloc, made.as_slice()),
        Phys::Sort { input, .. } => phys_live(alloc, input.get()),
        Phys::Limit { input, .. } => phys_live(alloc, input.get()),
        Phys::LocalLimit { input, .. } => phys_live(alloc, input.get()),
        Phys::Result { vars, .. } => copy_vars(alloc, vars.as_slice()),
        Phys::HashExchange { input, .. } => phys_live(alloc, input.get()),
        Phys::Broadcast { input } => phys_live(alloc, input.get()),
        Phys::Gather { input } => phys_live(alloc, input.get()),
        Phys::Merge { input, .. } => phys_live(alloc, input.get()),
    }
}

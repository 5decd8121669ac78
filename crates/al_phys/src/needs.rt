//! What an operator needs of its inputs.

ghost use Rattle.std.specs.Prelude.{◌≡◌, IfOk};
ghost use Rattle.al_phys.specs.Gives as forms;
ghost use Rattle.al_phys.specs.Properties as spec;

use crate::copies::olds_of;
use crate::equi::{left_keys, right_keys};
use crate::live::phys_live;
use crate::phys::{JoinForm, Phys};
use crate::property::Need;
use al_plan::Expr;
use al_value::NoMemory;
use std::alloc::Global;

/// Whether rows are joined by the hash of their keys.
pub fn is_hash(form: JoinForm) -> bool
    ensures { result ≡ forms.is_hash form }
{
    match form {
        JoinForm::HashJoin => true,
        JoinForm::HashLeftJoin => true,
        JoinForm::LoopJoin => false,
        JoinForm::LoopLeftJoin => false,
    }
}

fn join_need(
    alloc: Global,
    hash: bool,
    l: &Phys,
    r: &Phys,
    cond: &Expr,
    input: u32,
) -> Result<Need, NoMemory>
    ensures { IfOk result (λ need. need ≡ spec.join_need hash l.now r.now cond.now input) }
{
    if hash {
        if input == 0 {
            return Ok(Need::Exactly(left_keys(alloc, l, r, cond)?));
        }
        return Ok(Need::Exactly(right_keys(alloc, l, r, cond)?));
    }
    if input == 0 {
        return Ok(Need::Any);
    }
    Ok(Need::All)
}

/// What an operator needs of an input, by its number from 0. An exchange needs nothing, and so does
/// an input that is not there.
#[tactic(auto, using(crate::proofs::PhysRules::required_laws))]
pub fn required(alloc: Global, p: &Phys, input: u32) -> Result<Need, NoMemory>
    ensures { IfOk result (λ need. need ≡ spec.required p.now input) }
{
    match p {
        Phys::Join {
            form,
            cond,
            left,
            right,
        } => join_need(alloc, is_hash(*form), left.get(), right.get(), cond, input),
        Phys::HashGroup { keys, .. } => Ok(Need::Keyed(olds_of(alloc, keys.as_slice())?)),
        Phys::PreGroup { keys, .. } => Ok(Need::Keyed(olds_of(alloc, keys.as_slice())?)),
        Phys::HashDistinct { input: below } => Ok(Need::Keyed(phys_live(alloc, below.get())?)),
        Phys::AggFinal { .. } => Ok(Need::One),
        Phys::Limit { .. } => Ok(Need::One),
        Phys::Result { .. } => Ok(Need::One),
        Phys::Scan { .. }
        | Phys::One
        | Phys::Assign { .. }
        | Phys::Select { .. }
        | Phys::Project { .. }
        | Phys::Unnest { .. }
        | Phys::Subplan { .. }
        | Phys::Check { .. }
        | Phys::AggPart { .. }
        | Phys::Union { .. }
        | Phys::Sort { .. }
        | Phys::LocalLimit { .. }
        | Phys::HashExchange { .. }
        | Phys::Broadcast { .. }
        | Phys::Gather { .. }
        | Phys::Merge { .. } => Ok(Need::Any),
    }
}

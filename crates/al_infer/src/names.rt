ghost use Rattle.std.specs.Prelude.{◌≡◌, ◌++◌, not, IfOk, OnOk};
ghost use Rattle.std.specs.List.{list_all};
ghost use Rattle.al_plan.specs.Allows as live;
ghost use Rattle.al_plan.specs.Accept as spec;

use al_plan::Var;
use al_value::{List, Name, NoMemory};
use std::alloc::Global;

/// Whether a variable of this name is one of `vars`.
pub fn is_among(vars: &[Var], name: &Name) -> bool
    ensures { result ≡ live.is_among vars.now name.now }
{
    for v in vars {
        if v.name == *name {
            return true;
        }
    }
    false
}

/// Whether each listed variable is one of `vars`.
pub fn are_among(vars: &[Var], listed: &[Var]) -> bool
    ensures { result ≡ spec.are_among vars.now listed.now }
{
    for v in listed {
        if !is_among(vars, &v.name) {
            return false;
        }
    }
    true
}

/// Whether none of `own` is one of `before`.
pub fn are_new(before: &[Var], own: &[Var]) -> bool
    ensures { result ≡ list_all (λ v. not (live.is_among before.now v.name)) own.now }
{
    for v in own {
        if is_among(before, &v.name) {
            return false;
        }
    }
    true
}

/// Whether no variable stands twice.
pub fn are_different(vars: &[Var]) -> bool
    ensures { result ≡ spec.are_different vars.now }
{
    match vars.split_first() {
        None => true,
        Some((first, others)) => !is_among(others, &first.name) && are_different(others),
    }
}

/// Copies the variables to the end of a list.
pub fn append(alloc: Global, list: &mut List<Var>, vars: &[Var]) -> Result<(), NoMemory>
    ensures { OnOk result (list.new ≡ list.old ++ vars.now) }
{
    for v in vars {
        list.push(v.copy(alloc)?)?;
    }
    Ok(())
}

/// A list of copies of the variables of two lists.
pub fn joined(alloc: Global, front: &[Var], back: &[Var]) -> Result<List<Var>, NoMemory>
    ensures { IfOk result (λ copies. copies ≡ front.now ++ back.now) }
{
    let mut copies = List::new(alloc);
    append(alloc, &mut copies, front)?;
    append(alloc, &mut copies, back)?;
    Ok(copies)
}

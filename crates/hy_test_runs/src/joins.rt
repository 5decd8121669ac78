//! Joins of rows of two values.
ghost use Rattle.std.specs.Prelude.{◌≡◌, [], ◌∷◌, if◌then◌else◌, true, IfOk};
ghost use Rattle.al_func.specs.Rex.{IsSound};
ghost use Rattle.hy_test_runs.specs.Arguments.{JoinsPairs};
ghost use Rattle.hy_test_runs.specs.Ready.{FitIn, IsReady};

use crate::run::{Input, Sink, Source};
use crate::whole::{Nothing, Ran, SETTINGS, new_bank, whole_run};
use al_func::Rex;
use al_value::{List, NoMemory};
use hy_driver::{Driver, Handed};
use hy_frame::Bank;
use hy_job::JoinArg;
use hy_join::{JoinBuild, JoinProbe, Sides};
use hy_store::{MemShelf, MemStore, OpFault, RunStore, Shelf};
use std::alloc::Global;

/// The first column, or none.
fn columns(alloc: Global, keyed: bool) -> Result<List<u32>, NoMemory>
    ensures { IfOk result (λ columns. columns ≡ (if keyed then 0 ∷ [] else [])) }
{
    let mut columns = List::new(alloc);
    if keyed {
        columns.push(0)?;
    }
    Ok(columns)
}

/// A join on the first columns, or without keys, with this beside them.
#[tactic(auto, using(crate::proofs::ArgumentLaws::joins_pairs))]
pub fn join_of(alloc: Global, keyed: bool, rest: Rex, outer: bool) -> Result<JoinArg, NoMemory>
    requires { IsSound 4 rest }
    ensures { IfOk result JoinsPairs }
{
    let left = columns(alloc, keyed)?;
    let right = columns(alloc, keyed)?;
    Ok(JoinArg {
        left,
        right,
        rest,
        outer,
    })
}

/// A build of right rows.
fn build(alloc: Global, arg: &JoinArg, store: MemStore) -> (JoinBuild<MemStore>, Bank)
    requires { (⟦<MemStore as RunStore>⟧.runs store).live ≡ [] }
    ensures { IsReady 2 true (⟦<JoinBuild<MemStore> as Driver>⟧.seen result.0) result.1 }
{
    (
        JoinBuild::new(alloc, SETTINGS, 0, 2, arg, store),
        new_bank(),
    )
}

/// What is handed on of right rows.
#[tactic(auto, using(crate::proofs::ReadyLaws::ready_where))]
fn built<S: Source>(
    alloc: Global,
    arg: &JoinArg,
    rights: S,
    store: MemStore,
    turns: u64,
) -> Result<Ran<MemStore>, OpFault>
    requires { (⟦<MemStore as RunStore>⟧.runs store).live ≡ [] }
    ensures fit { IfOk result (λ ran. FitIn 2 ran.handed) }
    ensures live { IfOk result (λ ran. (⟦<MemStore as RunStore>⟧.runs ran.store).live ≡ []) }
{
    let (driver, bank) = build(alloc, arg, store);
    let input = Input::of(rights);
    whole_run(alloc, driver, bank, 2, 2, input, &mut Nothing, turns)
}

/// A probe of right rows that were handed on.
fn probe(
    alloc: Global,
    arg: JoinArg,
    handed: Handed,
    store: MemStore,
) -> Result<(JoinProbe<MemStore>, Bank), OpFault>
    requires pairs { JoinsPairs arg }
    requires fit { FitIn 2 handed }
    requires live { (⟦<MemStore as RunStore>⟧.runs store).live ≡ [] }
    ensures { IfOk result (λ r. IsReady 2 true (⟦<JoinProbe<MemStore> as Driver>⟧.seen r.0) r.1) }
{
    let sides = Sides { left: 2, right: 2 };
    match JoinProbe::new(alloc, SETTINGS, 0, sides, arg, handed, store) {
        Ok(driver) => Ok((driver, new_bank())),
        Err(_) => Err(OpFault::NoMemory),
    }
}

/// Gives the joined rows for left rows, and the store back. A probe hands nothing on.
#[tactic(auto, using(crate::proofs::ReadyLaws::ready_where))]
fn probed<S: Source, K: Sink>(
    alloc: Global,
    arg: JoinArg,
    right: Ran<MemStore>,
    lefts: S,
    sink: &mut K,
    turns: u64,
) -> Result<MemStore, OpFault>
    requires pairs { JoinsPairs arg }
    requires fit { FitIn 2 right.handed }
    requires live { (⟦<MemStore as RunStore>⟧.runs right.store).live ≡ [] }
{
    let (driver, bank) = probe(alloc, arg, right.handed, right.store)?;
    let input = Input::of(lefts);
    let ran = whole_run(alloc, driver, bank, 2, 4, input, sink, turns)?;
    if !ran.handed.rows.is_empty() {
        return Err(OpFault::Store);
    }
    Ok(ran.store)
}

/// Joins left and right rows of two values, each side in at most so many turns.
pub fn joined<S: Source, T: Source, K: Sink>(
    alloc: Global,
    arg: JoinArg,
    lefts: S,
    rights: T,
    sink: &mut K,
    turns: u64,
) -> Result<(), OpFault>
    requires { JoinsPairs arg }
{
    let mut shelf = MemShelf::new(alloc);
    let Ok(store) = shelf.open_store() else {
        return Err(OpFault::NoMemory);
    };
    let right = built(alloc, &arg, rights, store, turns)?;
    let store = probed(alloc, arg, right, lefts, sink, turns)?;
    shelf.take_back(store);
    if shelf.made() > 0 {
        return Err(OpFault::Store);
    }
    Ok(())
}

//! Groups of rows of two values.
ghost use Rattle.std.specs.Prelude.{◌≡◌, [], ◌∷◌, true, false, IfOk};
ghost use Rattle.hy_test_runs.specs.Arguments.{GroupsPairs};
ghost use Rattle.hy_test_runs.specs.Ready.{FitIn, IsReady};

use crate::run::{Input, Sink, Source, Table};
use crate::whole::{Nothing, Ran, SETTINGS, fit_in, new_bank, whole_run};
use al_func::Rex;
use al_value::{Boxed, List, NoMemory};
use hy_driver::{Driver, Handed};
use hy_frame::Bank;
use hy_group::{GroupBuild, GroupEmit, GroupShape};
use hy_job::{AggRex, GroupArg, NestedPlan};
use hy_store::{MemShelf, MemStore, OpFault, RunStore, Shelf};
use std::alloc::Global;

/// The first column alone.
fn first_column(alloc: Global) -> Result<List<u32>, NoMemory>
    ensures { IfOk result (λ columns. columns ≡ 0 ∷ []) }
{
    let mut columns = List::new(alloc);
    columns.push(0)?;
    Ok(columns)
}

/// Both columns.
fn both_columns(alloc: Global) -> Result<List<u32>, NoMemory>
    ensures { IfOk result (λ columns. columns ≡ 0 ∷ 1 ∷ []) }
{
    let mut columns = List::new(alloc);
    columns.push(0)?;
    columns.push(1)?;
    Ok(columns)
}

/// The number of rows, and the sum and the greatest of the second column.
fn aggregates(alloc: Global) -> Result<List<AggRex>, NoMemory>
    ensures { IfOk result (λ made. made ≡ AggRex.CountAll ∷ AggRex.Sum (Rex.Col 1) ∷ AggRex.Max (Rex.Col 1) ∷ []) }
{
    let mut made = List::new(alloc);
    made.push(AggRex::CountAll)?;
    made.push(AggRex::Sum(Rex::Col(1)))?;
    made.push(AggRex::Max(Rex::Col(1)))?;
    Ok(made)
}

/// For each value of the first column the number of rows, and the sum and the greatest of the second
/// one.
#[tactic(auto, using(crate::proofs::ArgumentLaws::sums_made))]
pub fn count_sum_and_greatest(alloc: Global) -> Result<GroupArg, NoMemory>
    ensures { IfOk result (GroupsPairs 7 4) }
{
    let keys = first_column(alloc)?;
    let made = aggregates(alloc)?;
    let input = Boxed::new(alloc, NestedPlan::Nested)?;
    Ok(GroupArg {
        keys,
        nested: Some(NestedPlan::Aggregate { made, input }),
    })
}

/// The different rows.
#[tactic(auto, using(crate::proofs::ArgumentLaws::different_fit))]
pub fn different_rows(alloc: Global) -> Result<GroupArg, NoMemory>
    ensures { IfOk result (GroupsPairs 2 2) }
{
    let keys = both_columns(alloc)?;
    Ok(GroupArg { keys, nested: None })
}

/// A build of groups, which hands on rows of `built` values.
fn build<'a>(
    alloc: Global,
    arg: &'a GroupArg,
    built: u32,
    given: u32,
    store: MemStore,
) -> (GroupBuild<'a, MemStore>, Bank)
    requires groups { GroupsPairs built given arg.now }
    requires live { (⟦<MemStore as RunStore>⟧.runs store).live ≡ [] }
    ensures { IsReady 2 true (⟦<GroupBuild<'a, MemStore> as Driver>⟧.seen result.0) result.1 }
{
    let shape = GroupShape {
        width: 2,
        arity: built,
    };
    let driver = GroupBuild::new(alloc, SETTINGS, 0, shape, arg, store);
    (driver, new_bank())
}

/// What is handed on of rows.
#[tactic(auto, using(crate::proofs::ReadyLaws::ready_where))]
fn piece<S: Source>(
    alloc: Global,
    arg: &GroupArg,
    built: u32,
    given: u32,
    rows: S,
    store: MemStore,
    turns: u64,
) -> Result<Ran<MemStore>, OpFault>
    requires groups { GroupsPairs built given arg.now }
    requires live { (⟦<MemStore as RunStore>⟧.runs store).live ≡ [] }
    ensures fit { IfOk result (λ ran. FitIn built ran.handed) }
    ensures live { IfOk result (λ ran. (⟦<MemStore as RunStore>⟧.runs ran.store).live ≡ []) }
{
    let (driver, bank) = build(alloc, arg, built, given, store);
    let input = Input::of(rows);
    whole_run(alloc, driver, bank, 2, built, input, &mut Nothing, turns)
}

/// Gives the groups of what was handed on, in rows of `given` values.
fn emit<'a>(
    alloc: Global,
    arg: &'a GroupArg,
    built: u32,
    given: u32,
    handed: Handed,
    store: MemStore,
) -> (GroupEmit<'a, MemStore>, Bank)
    requires groups { GroupsPairs built given arg.now }
    requires fit { FitIn built handed }
    requires live { (⟦<MemStore as RunStore>⟧.runs store).live ≡ [] }
    ensures { IsReady built false (⟦<GroupEmit<'a, MemStore> as Driver>⟧.seen result.0) result.1 }
{
    let shape = GroupShape {
        width: built,
        arity: given,
    };
    let driver = GroupEmit::new(alloc, SETTINGS, 0, shape, arg, handed, store);
    (driver, new_bank())
}

/// Gives the groups of rows that were handed on, and the store back. It hands nothing on.
#[tactic(auto, using(crate::proofs::ReadyLaws::ready_where))]
fn emitted<K: Sink>(
    alloc: Global,
    arg: &GroupArg,
    built: u32,
    given: u32,
    pieces: Ran<MemStore>,
    sink: &mut K,
    turns: u64,
) -> Result<MemStore, OpFault>
    requires groups { GroupsPairs built given arg.now }
    requires fit { FitIn built pieces.handed }
    requires live { (⟦<MemStore as RunStore>⟧.runs pieces.store).live ≡ [] }
{
    let (driver, bank) = emit(alloc, arg, built, given, pieces.handed, pieces.store);
    let input = Input::ended(Table::of(&[]));
    let ran = whole_run(alloc, driver, bank, built, given, input, sink, turns)?;
    if !ran.handed.rows.is_empty() {
        return Err(OpFault::Store);
    }
    Ok(ran.store)
}

/// The rows of both, where they have so many fields.
fn together(first: Handed, second: Handed, width: u32) -> Result<Handed, OpFault>
    ensures { IfOk result (FitIn width) }
{
    let mut all = first;
    for row in second.rows.into_vec() {
        all.rows.push(row)?;
    }
    if !fit_in(&all, width) {
        return Err(OpFault::Store);
    }
    Ok(all)
}

/// What two builds hand on, each of its own rows.
fn two_pieces<S: Source>(
    alloc: Global,
    arg: &GroupArg,
    built: u32,
    given: u32,
    rows: (S, S),
    store: MemStore,
    turns: u64,
) -> Result<Ran<MemStore>, OpFault>
    requires groups { GroupsPairs built given arg.now }
    requires live { (⟦<MemStore as RunStore>⟧.runs store).live ≡ [] }
    ensures fit { IfOk result (λ ran. FitIn built ran.handed) }
    ensures live { IfOk result (λ ran. (⟦<MemStore as RunStore>⟧.runs ran.store).live ≡ []) }
{
    let first = piece(alloc, arg, built, given, rows.0, store, turns)?;
    let second = piece(alloc, arg, built, given, rows.1, first.store, turns)?;
    Ok(Ran {
        handed: together(first.handed, second.handed, built)?,
        store: second.store,
    })
}

/// Groups rows of two values that come in two parts, each of which has a build of its own, each
/// driver in at most so many turns.
pub fn grouped<S: Source, K: Sink>(
    alloc: Global,
    arg: &GroupArg,
    built: u32,
    given: u32,
    rows: (S, S),
    sink: &mut K,
    turns: u64,
) -> Result<(), OpFault>
    requires { GroupsPairs built given arg.now }
{
    let mut shelf = MemShelf::new(alloc);
    let Ok(store) = shelf.open_store() else {
        return Err(OpFault::NoMemory);
    };
    let pieces = two_pieces(alloc, arg, built, given, rows, store, turns)?;
    let store = emitted(alloc, arg, built, given, pieces, sink, turns)?;
    shelf.take_back(store);
    if shelf.made() > 0 {
        return Err(OpFault::Store);
    }
    Ok(())
}

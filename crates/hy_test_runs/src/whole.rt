//! A driver from its beginning to its end, and what it hands on.
ghost use Rattle.std.specs.Prelude.{◌≡◌, [], true, length, All, IfOk};
ghost use Rattle.hy_driver.specs.Steps.{IsBankOf};
ghost use Rattle.hy_test_runs.specs.Ready.{FitIn, IsReady};

use crate::run::{Input, Sink, Source, run_to_end};
use al_value::{NoMemory, Settings};
use hy_driver::{Driver, Handed, HandsOn, Phase};
use hy_frame::{Bank, RowBuf};
use hy_store::{OpFault, RunStore};
use std::alloc::Global;

/// One partition, and small frames.
pub const SETTINGS: Settings = Settings {
    partitions: 1,
    frame_size: 256,
    memory: 3,
};

/// A bank for these settings.
pub fn new_bank() -> Bank
    ensures { result ≡ record { unit = 256; limit = 8; out = 0; taken = 0; given = 0; exported = 0; imported = 0 } }
{
    Bank::new(256, 8)
}

/// The sink of a driver that gives no row.
#[derive(Drop)]
pub(crate) struct Nothing;

impl Sink for Nothing {
    /// Refuses a row.
    fn put(&mut self, _alloc: Global, _row: &RowBuf) -> Result<(), NoMemory> {
        Err(NoMemory)
    }
}

/// What a run left: what is handed on, and the store.
#[derive(Drop)]
pub struct Ran<R: RunStore> {
    pub handed: Handed,
    pub store: R,
}

/// Whether rows have so many fields.
fn are_wide(rows: &[RowBuf], width: u32) -> bool
    ensures { result ≡ true → All (λ row. length row ≡ width) rows.now }
{
    for row in rows {
        if row.len() != width as usize {
            return false;
        }
    }
    true
}

/// Whether nothing is handed on but rows of so many fields.
pub fn fit_in(handed: &Handed, width: u32) -> bool
    ensures { result ≡ true → FitIn width handed.now }
{
    if !handed.frames.is_empty() {
        return false;
    }
    if !handed.runs.is_empty() {
        return false;
    }
    are_wide(handed.rows.as_slice(), width)
}

/// What a driver hands on that has ended. Anything but rows of so many fields, and a store that is
/// lost, is told as a fault of the store.
#[tactic(auto, using(crate::proofs::ReadyLaws::left_none))]
fn handed_on<R: RunStore, D: HandsOn<R>>(
    driver: D,
    bank: &mut Bank,
    arity: u32,
) -> Result<Ran<R>, OpFault>
    requires over { (D.seen driver).phase ≡ Phase.Ended }
    requires bank { IsBankOf (D.seen driver) bank.old }
    ensures fit { IfOk result (λ ran. FitIn arity ran.handed) }
    ensures live { IfOk result (λ ran. (R.runs ran.store).live ≡ []) }
{
    let (handed, store) = driver.hand_on(bank);
    let Some(store) = store else {
        return Err(OpFault::Store);
    };
    if !fit_in(&handed, arity) {
        return Err(OpFault::Store);
    }
    Ok(Ran { handed, store })
}

/// Runs a driver over the rows of its input to its end, for at most so many turns.
pub fn whole_run<R: RunStore, D: HandsOn<R> + Drop, S: Source, K: Sink>(
    alloc: Global,
    driver: D,
    bank: Bank,
    width: u32,
    arity: u32,
    input: Input<S>,
    sink: &mut K,
    turns: u64,
) -> Result<Ran<R>, OpFault>
    requires { IsReady width input.goes_on (D.seen driver) bank }
    ensures fit { IfOk result (λ ran. FitIn arity ran.handed) }
    ensures live { IfOk result (λ ran. (R.runs ran.store).live ≡ []) }
{
    let mut driver = driver;
    let mut bank = bank;
    run_to_end(alloc, &mut driver, &mut bank, width, input, sink, turns)?;
    handed_on(driver, &mut bank, arity)
}

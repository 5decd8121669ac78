//! Runs in memory.
ghost use Rattle.std.specs.Prelude.{◌≡◌, ◌≢◌, ◌↔◌, ◌⊎◌, ◌++◌, ◌∷◌, [], ◌-◌, ◌^◌, ◌<◌, ◌≤◌, length, min, IfOk, IsErrOf, OnOk, OnErr, IsTrue, slice_get};
ghost use Rattle.std.specs.List.{Contains};
ghost use Rattle.std.specs.Option.{option_copied, option_map};
ghost use Rattle.al_value.specs.Outside.{Counted, Told, failed};
ghost use Rattle.hy_store.specs.Faults.{is_failed};
ghost use Rattle.hy_store.specs.Runs.{IsLive, HaveShape, IsFrameAt, Created, Grown, Removed};
ghost use Rattle.hy_store.specs.Slots.{of_run};
ghost use Rattle.hy_store.specs.Mem.{Slots, runs_in, Fails, next_call};

use crate::fault::StoreFault;
use crate::slots::count_live;
use crate::store::RunStore;
use al_value::{Failed, List, NoMemory};
use hy_frame::{Frame, FrameCopy};
use std::alloc::Global;

/// Runs in memory, of which chosen calls fail. Calls of `create`, `append_frame`, `read_frame` and `remove` are numbered
/// together, from 0.
#[derive(Drop)]
pub struct MemStore {
    alloc: Global,
    // A slot for each run that was made, by its number.
    runs: Vec<Option<List<FrameCopy>>>,
    failing: List<u64>,
    calls: u64,
    faults: u64,
}

impl MemStore {
    /// No run, and the numbers of the calls that fail.
    pub(crate) fn new(alloc: Global, failing: List<u64>) -> MemStore
        ensures runs { result.runs.items ≡ [] }
        ensures failing { result.failing ≡ failing }
        ensures calls { result.calls ≡ 0 }
        ensures faults { result.faults ≡ 0 }
    {
        MemStore {
            alloc,
            runs: Vec::new(alloc),
            failing,
            calls: 0,
            faults: 0,
        }
    }

    /// How many runs are live.
    pub(crate) fn live(&self) -> u64
        ensures { result ≡ length (runs_in self.now).live }
    {
        count_live(self.runs.as_slice()) as u64
    }

    /// How many calls failed.
    pub(crate) fn faults(&self) -> u64
        ensures { result ≡ self.now.faults }
    {
        self.faults
    }

    /// Whether the outside serves this call; it is counted.
    fn serve(&mut self) -> Result<(), Failed>
        ensures runs { self.new.runs ≡ self.old.runs }
        ensures cause { Counted (failed result) self.old.faults self.new.faults }
        ensures fails { IsTrue (failed result) ↔ Fails self.old }
        ensures failing { self.new.failing ≡ self.old.failing }
        ensures calls { self.new.calls ≡ next_call self.old.calls }
    {
        let number = self.calls;
        self.calls = number.saturating_add(1);
        if self.failing.as_slice().contains(&number) {
            self.faults = self.faults.saturating_add(1);
            return Err(Failed);
        }
        Ok(())
    }

    /// The frame in this place of a run.
    fn frame_at(&self, run: u32, k: u64) -> Option<&FrameCopy>
        requires { IsLive (runs_in self.now) run }
        ensures { option_copied result ≡ slice_get (of_run (λ frames. frames) [] self.now.runs.items run) k }
    {
        match &self.runs[run as usize] {
            Some(frames) => nth(frames.as_slice(), k),
            None => None,
        }
    }
}

fn nth(frames: &[FrameCopy], k: u64) -> Option<&FrameCopy>
    ensures { option_copied result ≡ slice_get frames.now k }
{
    frames.get(k as usize)
}

/// Puts a frame at the end of a run.
fn push_frame(run: &mut Option<List<FrameCopy>>, frame: FrameCopy) -> Result<(), NoMemory>
    ensures ok { OnOk result (run.new ≡ option_map (λ frames. frames ++ frame ∷ []) run.old) }
    ensures err { OnErr result (run.new ≡ run.old) }
{
    match run {
        Some(frames) => frames.push(frame),
        None => Ok(()),
    }
}

impl RunStore for MemStore {
    ghost use Rattle.hy_store.specs.Mem.{runs_in};

    ghost runs = { runs_in };

    ghost faults = { λ s. s.faults };

    fn create(&mut self) -> Result<u32, StoreFault>
        ensures ok { IfOk result (λ run. Created run (runs_in self.old) (runs_in self.new)) }
        ensures full { 2 ^ 32 - 1 ≤ length self.old.runs.items → IsErrOf result StoreFault.Failed }
        ensures err { OnErr result (runs_in self.new ≡ runs_in self.old) }
        ensures cause { Counted (is_failed result) self.old.faults self.new.faults }
        ensures fails { IsTrue (is_failed result) ↔ (Fails self.old ⊎ (2 ^ 32 - 1 ≤ length self.old.runs.items)) }
        ensures failing { self.new.failing ≡ self.old.failing }
        ensures calls { self.new.calls ≡ next_call self.old.calls }
    {
        self.serve()?;
        let run = self.runs.len();
        if run >= u32::MAX as usize {
            self.faults = self.faults.saturating_add(1);
            return Err(StoreFault::Failed);
        }
        self.runs.push(Some(List::new(self.alloc)))?;
        Ok(run as u32)
    }

    fn append_frame(&mut self, run: u32, frame: &Frame) -> Result<(), StoreFault>
        requires live { IsLive (runs_in self.old) run }
        requires holds { frame.now.rows ≢ [] }
        requires shape { HaveShape (runs_in self.old) run frame.now.arity frame.now.unit }
        ensures ok { OnOk result (Grown run frame.now (runs_in self.old) (runs_in self.new)) }
        ensures err { OnErr result (runs_in self.new ≡ runs_in self.old) }
        ensures cause { Counted (is_failed result) self.old.faults self.new.faults }
        ensures fails { IsTrue (is_failed result) ↔ Fails self.old }
        ensures failing { self.new.failing ≡ self.old.failing }
        ensures calls { self.new.calls ≡ next_call self.old.calls }
    {
        self.serve()?;
        let copy = FrameCopy::of(self.alloc, frame)?;
        push_frame(&mut self.runs[run as usize], copy)?;
        Ok(())
    }

    fn frames(&self, run: u32) -> u64 {
        match &self.runs[run as usize] {
            Some(frames) => frames.len() as u64,
            None => 0,
        }
    }

    fn read_frame(&mut self, run: u32, k: u64, into: &mut Frame) -> Result<(), StoreFault>
        requires live { IsLive (runs_in self.old) run }
        requires place { k < of_run length 0 self.old.runs.items run }
        requires shape { HaveShape (runs_in self.old) run into.old.arity into.old.unit }
        ensures frame { OnOk result (IsFrameAt (runs_in self.old) run k into.new) }
        ensures shape { (into.new.arity ≡ into.old.arity) × (into.new.unit ≡ into.old.unit) }
        ensures same { OnErr result (into.new ≡ into.old) }
        ensures err { IsErrOf result StoreFault.NoMemory → into.new ≡ into.old }
        ensures runs { runs_in self.new ≡ runs_in self.old }
        ensures cause { Counted (is_failed result) self.old.faults self.new.faults }
        ensures fails { IsTrue (is_failed result) ↔ Fails self.old }
        ensures failing { self.new.failing ≡ self.old.failing }
        ensures calls { self.new.calls ≡ next_call self.old.calls }
    {
        self.serve()?;
        if let Some(copy) = self.frame_at(run, k) {
            into.copy_from(copy.frame())?;
        }
        Ok(())
    }

    fn remove(&mut self, run: u32) -> Result<(), Failed>
        requires { IsLive (runs_in self.old) run }
        ensures ok { OnOk result (Removed run (runs_in self.old) (runs_in self.new)) }
        ensures err { OnErr result (runs_in self.new ≡ runs_in self.old) }
        ensures cause { Counted (failed result) self.old.faults self.new.faults }
        ensures fails { IsTrue (failed result) ↔ Fails self.old }
        ensures failing { self.new.failing ≡ self.old.failing }
        ensures calls { self.new.calls ≡ next_call self.old.calls }
    {
        self.serve()?;
        self.runs[run as usize] = None;
        Ok(())
    }

    fn made(&self) -> u64 {
        self.runs.len() as u64
    }
}

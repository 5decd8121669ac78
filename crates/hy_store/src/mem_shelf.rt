ghost use Rattle.std.specs.Prelude.{◌≡◌, ◌++◌, ◌∷◌, [], ◌+◌, ◌-◌, ◌^◌, ◌<◌, ◌≤◌, length, min, vec_len, vec_capacity, false, IfOk, IsErrOf, OnOk, OnErr, IsSome};
ghost use Rattle.al_value.specs.Outside.{Counted, Told};
ghost use Rattle.hy_store.specs.Faults.{is_failed};
ghost use Rattle.hy_store.specs.Runs.{AreNew, TakenBack, Added};
ghost use Rattle.hy_store.specs.Mem.{runs_in, live_in, shelf_in};

use crate::fault::StoreFault;
use crate::mem::MemStore;
use crate::shelf::Shelf;
use crate::store::RunStore;
use al_value::{List, NoMemory};
use std::alloc::Global;

/// Stores in memory, in each of which chosen calls fail.
#[derive(Drop)]
pub struct MemShelf {
    alloc: Global,
    failing: List<u64>,
    taken: Vec<MemStore>,
    out: usize,
    made: u64,
    faults: u64,
    ghost roomy: { vec_len taken + out ≤ vec_capacity taken },
}

impl MemShelf {
    /// No store is out, and no call fails.
    pub fn new(alloc: Global) -> MemShelf
        ensures failing { result.failing ≡ [] }
        ensures stores { (result.taken.items ≡ []) × (result.out ≡ 0) }
        ensures made { result.made ≡ 0 }
        ensures faults { result.faults ≡ 0 }
    {
        MemShelf {
            alloc,
            failing: List::new(alloc),
            taken: Vec::new(alloc),
            out: 0,
            made: 0,
            faults: 0,
        }
    }

    /// Lets the call of a number fail in each store that is opened from now on. The calls of `create`, `append_frame`,
    /// `read_frame` and `remove` of a store are numbered from 0.
    pub fn fail_call(&mut self, number: u64) -> Result<(), NoMemory>
        ensures ok { OnOk result (self.new.failing ≡ self.old.failing ++ number ∷ []) }
        ensures err { OnErr result (self.new.failing ≡ self.old.failing) }
        ensures stores { (self.new.taken ≡ self.old.taken) × (self.new.out ≡ self.old.out) }
        ensures made { self.new.made ≡ self.old.made }
        ensures faults { self.new.faults ≡ self.old.faults }
    {
        self.failing.push(number)
    }

    /// How many runs are live of stores that were taken back.
    pub fn live(&self) -> u64
        ensures { result ≡ min (live_in self.now.taken.items) (2 ^ 64 - 1) }
    {
        let mut live = 0u64;
        for store in self.taken.as_slice() {
            live = live.saturating_add(store.live());
        }
        live
    }
}

impl Shelf for MemShelf {
    ghost use Rattle.hy_store.specs.Mem.{shelf_in};

    type Store = MemStore;

    ghost holds = { λ s. shelf_in s.taken.items s.made s.out };

    ghost faults = { λ s. s.faults };

    fn open_store(&mut self) -> Result<MemStore, StoreFault>
        ensures store { IfOk result (λ store. AreNew (runs_in store) × (store.faults ≡ 0)) }
        ensures told { IfOk result (λ store. IsSome (runs_in store).held) }
        ensures ok { OnOk result (shelf_in self.new.taken.items self.new.made self.new.out ≡ shelf_in self.old.taken.items self.old.made (self.old.out + 1)) }
        ensures err { OnErr result (shelf_in self.new.taken.items self.new.made self.new.out ≡ shelf_in self.old.taken.items self.old.made self.old.out) }
        ensures cause { Counted (is_failed result) self.old.faults self.new.faults }
        ensures never { is_failed result ≡ false }
        ensures calls { IfOk result (λ store. (store.failing ≡ self.old.failing) × (store.calls ≡ 0)) }
        ensures failing { self.new.failing ≡ self.old.failing }
    {
        let Some(out) = self.out.checked_add(1) else {
            return Err(StoreFault::NoMemory);
        };
        let mut failing = List::new(self.alloc);
        failing.extend(self.failing.as_slice())?;
        self.taken.reserve(out)?;
        self.out = out;
        Ok(MemStore::new(self.alloc, failing))
    }

    fn take_back(&mut self, store: MemStore)
        requires { 0 < self.old.out }
        ensures taken { TakenBack (runs_in store) (shelf_in self.old.taken.items self.old.made self.old.out) (shelf_in self.new.taken.items self.new.made self.new.out) }
        ensures faults { Added store.faults self.old.faults self.new.faults }
        ensures failing { self.new.failing ≡ self.old.failing }
        ensures stores { self.new.taken.items ≡ self.old.taken.items ++ store ∷ [] }
    {
        self.made = self.made.saturating_add(store.made());
        self.faults = self.faults.saturating_add(store.faults());
        self.out -= 1;
        self.taken.push_reserved(store);
    }

    fn made(&self) -> u64 {
        self.made
    }
}

ghost use Rattle.std.specs.Prelude.{◌≡◌, ◌++◌, ◌∷◌, [], ◌+◌, ◌<◌, ◌≤◌, vec_len, vec_capacity};

use crate::fault::StoreFault;
use crate::folder::FolderStore;
use crate::shelf::Shelf;
use crate::store::RunStore;
use std::alloc::Global;
use std::rt::Files;

/// Stores whose runs are files of the folder `algebricks-runs`, which is made when the first run is.
#[derive(Drop)]
pub struct FolderShelf<'a, R: Files> {
    rt: &'a R,
    alloc: Global,
    // How many live runs each store had that was taken back.
    taken: Vec<u64>,
    out: usize,
    made: u64,
    faults: u64,
    ghost roomy: { vec_len taken + out ≤ vec_capacity taken },
}

impl<'a, R: Files> FolderShelf<'a, R> {
    /// No store is out.
    pub fn new(rt: &'a R, alloc: Global) -> FolderShelf<'a, R>
        ensures stores { (result.taken.items ≡ []) × (result.out ≡ 0) }
        ensures made { result.made ≡ 0 }
        ensures faults { result.faults ≡ 0 }
    {
        FolderShelf {
            rt,
            alloc,
            taken: Vec::new(alloc),
            out: 0,
            made: 0,
            faults: 0,
        }
    }
}

impl<'a, R: Files + Sync> Shelf for FolderShelf<'a, R> {
    ghost use Rattle.hy_store.specs.Folder.{shelf_in};

    type Store = FolderStore<'a, R>;

    ghost holds = { λ s. shelf_in s.taken.items s.made s.out };

    ghost faults = { λ s. s.faults };

    fn open_store(&mut self) -> Result<FolderStore<'a, R>, StoreFault> {
        // The stores so far, so that no two have one number.
        let number = self.taken.len() + self.out;
        let Some(out) = self.out.checked_add(1) else {
            return Err(StoreFault::NoMemory);
        };
        self.taken.reserve(out)?;
        self.out = out;
        Ok(FolderStore::new(self.rt, self.alloc, number as u64))
    }

    fn take_back(&mut self, store: FolderStore<'a, R>) {
        self.made = self.made.saturating_add(store.made());
        self.faults = self.faults.saturating_add(store.faults());
        self.out -= 1;
        self.taken.push_reserved(store.live());
    }

    fn made(&self) -> u64 {
        self.made
    }
}

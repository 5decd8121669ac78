//! How a driver with something to leave is ended.

ghost use Rattle.std.specs.Prelude.{◌≡◌, [], is_some};
ghost use Rattle.hy_driver.specs.Handing.{HandedOn, IsDone, Left, store_of};
ghost use Rattle.hy_driver.specs.Steps.{IsBankOf};

use crate::driver::Driver;
use al_value::List;
use hy_frame::{Bank, RowBuf, Sent};
use hy_store::RunStore;
use std::alloc::Global;

/// What the first driver of an operator leaves to the second one, which is made of it: rows beside
/// the bank, frames on their way, and runs of the store that comes with it. Whoever is made of it
/// hands it back where memory is wanting.
#[derive(Drop)]
pub struct Handed {
    pub rows: List<RowBuf>,
    pub frames: List<Sent>,
    pub runs: List<u32>,
}

impl Handed {
    /// Nothing.
    pub fn none(alloc: Global) -> Handed
        ensures { (result.rows ≡ []) × (result.frames ≡ []) × (result.runs ≡ []) }
    {
        Handed {
            rows: List::new(alloc),
            frames: List::new(alloc),
            runs: List::new(alloc),
        }
    }
}

/// A driver that leaves something: what it hands on, or its store.
pub trait HandsOn<R: RunStore>: Driver {
    /// Ends a driver that has ended or was given up: it lets its frames go, and gives its store back.
    /// It takes no memory.
    fn hand_on(self, bank: &mut Bank) -> (Handed, Option<R>)
        requires done { IsDone (Self.seen self) }
        requires bank { IsBankOf (Self.seen self) bank.old }
        ensures handed { HandedOn (Self.seen self) result.0 }
        ensures store { store_of R.runs R.faults result.1 ≡ (Self.seen self).store }
        ensures bank { Left (Self.seen self) bank.old bank.new }
        ensures kept { is_some result.1 ≡ Self.stored self };
}

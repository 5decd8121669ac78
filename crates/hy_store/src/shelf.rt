ghost use Rattle.std.specs.Prelude.{◌≡◌, ◌+◌, ◌<◌, ℕ, IfOk, IsSome, OnOk, OnErr};
ghost use Rattle.al_value.specs.Outside.{Counted, Told};
ghost use Rattle.hy_store.specs.Faults.{is_failed};
ghost use Rattle.hy_store.specs.Runs.{ShelfOf, AreNew, TakenBack, Added};

use crate::fault::StoreFault;
use crate::store::RunStore;

/// Where stores come from, and where they go back to with the runs that are still live.
pub trait Shelf {
    type Store: RunStore;

    // The stores that are out, and what was taken back; the frames may be told or not.
    ghost holds: { Self → ShelfOf };

    // How many calls the outside did not serve, of the stores that were taken back too.
    ghost faults: { Self → ℕ };

    /// A new store. A shelf that tells its frames gives stores that do.
    fn open_store(&mut self) -> Result<Self::Store, StoreFault>
        ensures store { IfOk result (λ store. AreNew (Self.Store.runs store) × (Self.Store.faults store ≡ 0)) }
        ensures told { IfOk result (λ store. Told (holds self.old).held (λ _. IsSome (Self.Store.runs store).held)) }
        ensures ok { OnOk result (holds self.new ≡ record (holds self.old) { out = (holds self.old).out + 1 }) }
        ensures err { OnErr result (holds self.new ≡ holds self.old) }
        ensures cause { Counted (is_failed result) (faults self.old) (faults self.new) };

    /// Takes a store back, with its live runs, the number of runs that it made and its count of faults. It takes no
    /// memory: `open_store` reserved what it needs.
    fn take_back(&mut self, store: Self::Store)
        requires { 0 < (holds self.old).out }
        ensures taken { TakenBack (Self.Store.runs store) (holds self.old) (holds self.new) }
        ensures faults { Added (Self.Store.faults store) (faults self.old) (faults self.new) };

    /// How many runs the stores made that were taken back.
    fn made(&self) -> u64
        ensures { result ≡ (holds self.now).made };
}

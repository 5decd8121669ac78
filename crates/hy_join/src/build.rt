//! The driver that builds the right side of a join.

ghost use Rattle.std.specs.Prelude.{◌≡◌, []};

use al_value::Settings;
use hy_driver::{Driver, Handed, HandsOn, KeepRows};
use hy_frame::{Bank, RowBuf, RowRef};
use hy_job::JoinArg;
use hy_store::{Next, OpFault, RunStore};
use std::alloc::Global;

/// Takes the right rows of a join, and hands them on. It keeps them beside the bank, and makes no
/// run of the store that comes with it.
#[derive(Drop)]
pub struct JoinBuild<R: RunStore> {
    kept: KeepRows,
    store: R,
    ghost none: { (R.runs store).live ≡ [] },
}

impl<R: RunStore> JoinBuild<R> {
    ghost use Rattle.std.specs.Prelude.{◌≤◌, None, Some, false, ℕ, List};
    ghost use Rattle.hy_driver.specs.Forms.{one_ended};
    ghost use Rattle.hy_driver.specs.Handing.{store_of};
    ghost use Rattle.hy_driver.specs.Keep.{keep_fixed};
    ghost use Rattle.hy_driver.specs.Rows.{Row};
    ghost use Rattle.hy_driver.specs.Steps.{IsNew};
    ghost use Rattle.hy_job.specs.Drivers.{all_left, driver_out};
    ghost use Rattle.hy_job.specs.declared.job.Kind.TheVariants as K;
    ghost use Rattle.hy_join.specs.Build.{build_seen};

    /// The one in a partition, for right rows of this many fields. What it hands on does not depend
    /// on the partition.
    pub fn new(
        alloc: Global,
        settings: Settings,
        _partition: u32,
        width: u32,
        _arg: &JoinArg,
        store: R,
    ) -> JoinBuild<R>
        requires few { width ≤ 1024 }
        requires none { (R.runs store).live ≡ [] }
        ensures new { (n : ℕ) (scanned handed : List Row)
            → IsNew (build_seen result.kept (store_of R.runs R.faults (Some result.store))) (driver_out (K.JoinBuild _arg.now) width (all_left (K.JoinBuild _arg.now) n _partition scanned handed)) }
        ensures sound { (build_seen result.kept (store_of R.runs R.faults (Some result.store))).sound }
        ensures store { result.store ≡ store }
        ensures made { keep_fixed result.kept ≡ record { unit = settings.frame_size; memory = settings.memory; cost = 1; width = λ input. width; arity = width; check = None } }
        ensures input { (k : ℕ) → (build_seen result.kept (store_of R.runs R.faults (Some result.store))).ended k ≡ one_ended false k }
    {
        JoinBuild {
            kept: KeepRows::new(alloc, settings, width),
            store,
        }
    }

    /// Tells that no run of its store is live, so that whoever is made of what it hands on may know
    /// it. It does nothing.
    pub fn no_runs(&self)
        ensures { (build_seen self.now.kept (store_of R.runs R.faults (Some self.now.store))).store.runs.live ≡ [] }
    {}
}

impl<R: RunStore> Driver for JoinBuild<R> {
    ghost use Rattle.std.specs.Prelude.{Some, true};
    ghost use Rattle.hy_driver.specs.Handing.{store_of};
    ghost use Rattle.hy_join.specs.Build.{build_seen};

    ghost seen = { λ d. build_seen d.kept (store_of R.runs R.faults (Some d.store)) };

    ghost stored = { λ _. true };

    ghost hands = { λ _. true };

    fn feed(&mut self, bank: &mut Bank, input: u32, row: RowRef<'_>) -> Result<(), OpFault> {
        self.kept.feed(bank, input, row)
    }

    fn end(&mut self, bank: &mut Bank, input: u32) -> Result<(), OpFault> {
        self.kept.end(bank, input)
    }

    fn next(&mut self, bank: &mut Bank, out: &mut RowBuf) -> Result<Next, OpFault> {
        self.kept.next(bank, out)
    }

    fn give_up(&mut self, bank: &mut Bank) {
        self.kept.give_up(bank);
    }
}

impl<R: RunStore> HandsOn<R> for JoinBuild<R> {
    fn hand_on(self, bank: &mut Bank) -> (Handed, Option<R>) {
        let (handed, _none): (Handed, Option<R>) = self.kept.hand_on(bank);
        (handed, Some(self.store))
    }
}

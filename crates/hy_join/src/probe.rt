//! The driver that probes the right side of a join with left rows.

ghost use Rattle.std.specs.Prelude.{◌≡◌, [], length, true};
ghost use Rattle.hy_driver.specs.declared.phase.Phase.TheVariants.{Working, Ended as HasEnded};

use crate::keys::key_hash;
use crate::left::LeftRow;
use crate::right::{RightSide, Sides};
use al_value::Settings;
use hy_driver::{Driver, Handed, HandsOn, Phase};
use hy_frame::{Bank, RowBuf, RowRef};
use hy_job::JoinArg;
use hy_store::{Next, OpFault, RunStore};
use std::alloc::Global;

/// Gives the joined rows of a join: it takes left rows, and compares each with the right rows that
/// were handed on. It makes no run of the store that comes with it.
#[derive(Drop)]
pub struct JoinProbe<R: RunStore> {
    alloc: Global,
    side: RightSide,
    left: LeftRow,
    ended: bool,
    phase: Phase,
    store: R,
    ghost wide: { left.holds ≡ true → length left.row ≡ side.sides.left },
    ghost works: { left.holds ≡ true → phase ≡ Working },
    ghost over: { phase ≡ HasEnded → ended ≡ true },
    ghost none: { (R.runs store).live ≡ [] },
}

impl<R: RunStore> JoinProbe<R> {
    ghost use Rattle.std.specs.Prelude.{◌≤◌, ◌+◌, None, Some, false, ℕ, List, map, IfErr, IfOk};
    ghost use Rattle.std.specs.List.{All};
    ghost use Rattle.hy_driver.specs.Forms.{one_ended};
    ghost use Rattle.hy_driver.specs.Handing.{store_of};
    ghost use Rattle.hy_driver.specs.Rows.{Row, values_of};
    ghost use Rattle.hy_driver.specs.Steps.{IsNew};
    ghost use Rattle.hy_job.specs.Drivers.{all_left, driver_out};
    ghost use Rattle.hy_job.specs.Sound.{HasKeyPairs, IsInRange};
    ghost use Rattle.hy_job.specs.declared.job.Kind.TheVariants as K;
    ghost use Rattle.hy_join.specs.Probe.{probe_fixed, probe_seen, widths_of};

    /// The one in a partition, for left and right rows of so many fields and the right rows that
    /// were handed on, which stand beside the bank. What it gives does not depend on the partition.
    /// For want of memory it hands back what it was to be made of.
    pub fn new(
        alloc: Global,
        settings: Settings,
        _partition: u32,
        sides: Sides,
        arg: JoinArg,
        handed: Handed,
        store: R,
    ) -> Result<JoinProbe<R>, (JoinArg, Handed, R)>
        requires in_range { IsInRange (K.JoinProbe arg) (widths_of sides) }
        requires pairs { HasKeyPairs (K.JoinProbe arg) }
        requires few { sides.left + sides.right ≤ 1024 }
        requires fit { All (λ row. length row ≡ sides.right) handed.rows }
        requires beside { (handed.frames ≡ []) × (handed.runs ≡ []) }
        requires none { (R.runs store).live ≡ [] }
        ensures new { (n : ℕ) (scanned : List Row) → IfOk result (λ d. IsNew (probe_seen d.side d.left d.ended d.phase (store_of R.runs R.faults (Some d.store)))
            (driver_out (K.JoinProbe arg) (sides.left + sides.right) (all_left (K.JoinProbe arg) n _partition scanned (map values_of handed.rows)))) }
        ensures sound { IfOk result (λ d. (probe_seen d.side d.left d.ended d.phase (store_of R.runs R.faults (Some d.store))).sound) }
        ensures store { IfOk result (λ d. d.store ≡ store) }
        ensures made { IfOk result (λ d. probe_fixed d.side ≡ record { unit = settings.frame_size; memory = settings.memory; cost = length handed.rows + 2; width = λ input. sides.left; arity = sides.left + sides.right; check = None }) }
        ensures input { (k : ℕ) → IfOk result (λ d. (probe_seen d.side d.left d.ended d.phase (store_of R.runs R.faults (Some d.store))).ended k ≡ one_ended false k) }
        ensures back { IfErr result (λ back. (back.0 ≡ arg) × (back.1 ≡ handed) × (back.2 ≡ store)) }
    {
        let Handed { rows, frames, runs } = handed;
        match RightSide::new(alloc, settings, sides, arg, rows) {
            Ok(side) => Ok(JoinProbe {
                alloc,
                side,
                left: LeftRow::none(alloc),
                ended: false,
                phase: Phase::Working,
                store,
            }),
            Err((arg, rows)) => Err((arg, Handed { rows, frames, runs }, store)),
        }
    }

    /// Tells that no run of its store is live, so that whoever ends it may know it. It does nothing.
    pub fn no_runs(&self)
        ensures { (probe_seen self.now.side self.now.left self.now.ended self.now.phase (store_of R.runs R.faults (Some self.now.store))).store.runs.live ≡ [] }
    {}
}

impl<R: RunStore> Driver for JoinProbe<R> {
    ghost use Rattle.std.specs.Prelude.{Some, true, false};
    ghost use Rattle.hy_driver.specs.Handing.{store_of};
    ghost use Rattle.hy_join.specs.Probe.{probe_seen};

    ghost seen = { λ d. probe_seen d.side d.left d.ended d.phase (store_of R.runs R.faults (Some d.store)) };

    ghost stored = { λ _. true };

    ghost hands = { λ _. false };

    fn feed(&mut self, _bank: &mut Bank, _input: u32, row: RowRef<'_>) -> Result<(), OpFault> {
        self.left.holds = false;
        self.left.row.copy_from(&row)?;
        self.left.hash = key_hash(self.side.arg.left.as_slice(), &row);
        self.left.alone = self.side.arg.outer;
        self.left.place = 0;
        self.left.holds = true;
        self.phase = Phase::Working;
        Ok(())
    }

    fn end(&mut self, _bank: &mut Bank, _input: u32) -> Result<(), OpFault> {
        self.ended = true;
        Ok(())
    }

    fn next(&mut self, _bank: &mut Bank, out: &mut RowBuf) -> Result<Next, OpFault> {
        if self.left.holds {
            return match self.left.look(self.alloc, &self.side, out) {
                Ok(next) => Ok(next),
                Err(_) => Err(OpFault::NoMemory),
            };
        }
        if self.ended {
            self.phase = Phase::Ended;
            return Ok(Next::End);
        }
        self.phase = Phase::Hungry;
        Ok(Next::NeedInput)
    }

    fn give_up(&mut self, _bank: &mut Bank) {
        self.left.holds = false;
        self.phase = Phase::GivenUp;
    }
}

impl<R: RunStore> HandsOn<R> for JoinProbe<R> {
    fn hand_on(self, _bank: &mut Bank) -> (Handed, Option<R>) {
        (Handed::none(self.alloc), Some(self.store))
    }
}

//! The driver of the first activity of a sort.

ghost use Rattle.std.specs.Prelude.{◌≡◌, ◌≤◌, All, [], length, true};
ghost use Rattle.hy_driver.specs.declared.phase.Phase.TheVariants.{Ended as HasEnded, GivenUp as IsGivenUp};

use al_value::{List, Settings};
use hy_driver::{Driver, Handed, HandsOn, Phase};
use hy_frame::{Bank, RowBuf, RowRef};
use hy_store::{Next, OpFault, RunStore};
use std::alloc::Global;

/// Keeps a copy of each row beside the bank, and hands them on.
#[derive(Drop)]
pub struct SortBuild {
    alloc: Global,
    settings: Settings,
    width: u32,
    rows: List<RowBuf>,
    ended: bool,
    phase: Phase,
    ghost few: { width ≤ 1024 },
    ghost over: { phase ≡ HasEnded → ended ≡ true },
    ghost none: { phase ≡ IsGivenUp → rows ≡ [] },
    ghost fit: { All (λ row. length row ≡ width) rows },
}

impl SortBuild {
    ghost use Rattle.std.specs.Prelude.{None, false, ℕ, List as Listed};
    ghost use Rattle.al_value.specs.declared.settings.SortKey.{SortKey};
    ghost use Rattle.hy_driver.specs.Forms.{one_ended};
    ghost use Rattle.hy_driver.specs.Rows.{Row};
    ghost use Rattle.hy_driver.specs.Steps.{IsNew};
    ghost use Rattle.hy_job.specs.declared.job.Kind.TheVariants as K;
    ghost use Rattle.hy_job.specs.Drivers.{all_left, driver_out};
    ghost use Rattle.hy_sort.specs.Build.{build_fixed, build_seen};

    /// The activity in a partition, over rows of this many values. What it hands on depends neither on
    /// the keys nor on the partition.
    pub fn new(alloc: Global, settings: Settings, _partition: u32, width: u32) -> SortBuild
        requires { width ≤ 1024 }
        ensures new { (keys : Listed SortKey) (n : ℕ) (scanned handed : Listed Row)
            → IsNew (build_seen result) (driver_out (K.SortBuild keys) width (all_left (K.SortBuild keys) n _partition scanned handed)) }
        ensures sound { (build_seen result).sound }
        ensures made { build_fixed result ≡ record { unit = settings.frame_size; memory = settings.memory; cost = 1; width = λ input. width; arity = width; check = None } }
        ensures input { (k : ℕ) → (build_seen result).ended k ≡ one_ended false k }
    {
        SortBuild {
            alloc,
            settings,
            width,
            rows: List::new(alloc),
            ended: false,
            phase: Phase::Working,
        }
    }
}

impl Driver for SortBuild {
    ghost use Rattle.std.specs.Prelude.{false, true};
    ghost use Rattle.hy_sort.specs.Build.{build_seen};

    ghost seen = { build_seen };

    ghost stored = { λ _. false };

    ghost hands = { λ _. true };

    fn feed(&mut self, _bank: &mut Bank, _input: u32, row: RowRef<'_>) -> Result<(), OpFault> {
        let mut kept = RowBuf::new(self.alloc);
        kept.copy_from(&row)?;
        self.rows.push(kept)?;
        self.phase = Phase::Working;
        Ok(())
    }

    fn end(&mut self, _bank: &mut Bank, _input: u32) -> Result<(), OpFault> {
        self.ended = true;
        Ok(())
    }

    fn next(&mut self, _bank: &mut Bank, _out: &mut RowBuf) -> Result<Next, OpFault> {
        if self.ended {
            self.phase = Phase::Ended;
            return Ok(Next::End);
        }
        self.phase = Phase::Hungry;
        Ok(Next::NeedInput)
    }

    fn give_up(&mut self, _bank: &mut Bank) {
        self.rows = List::new(self.alloc);
        self.phase = Phase::GivenUp;
    }
}

impl<R: RunStore> HandsOn<R> for SortBuild {
    fn hand_on(self, _bank: &mut Bank) -> (Handed, Option<R>) {
        let handed = Handed {
            rows: self.rows,
            ..Handed::none(self.alloc)
        };
        (handed, None)
    }
}

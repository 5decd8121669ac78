//! The least driver that hands on: it keeps all rows. It shows how such a driver is shown.

ghost use Rattle.std.specs.Prelude.{◌≡◌, ◌≤◌, All, [], length, true};
ghost use Rattle.hy_driver.specs.declared.phase.Phase.TheVariants.{Ended as HasEnded, GivenUp as IsGivenUp};

use crate::driver::Driver;
use crate::handed::{Handed, HandsOn};
use crate::laws::Starts;
use crate::phase::Phase;
use al_value::{List, Settings};
use hy_frame::{Bank, RowBuf, RowRef};
use hy_store::{Next, OpFault, RunStore};
use std::alloc::Global;

/// Keeps all rows, as they come, and hands them on.
#[derive(Drop)]
pub struct KeepRows {
    alloc: Global,
    settings: Settings,
    width: u32,
    rows: List<RowBuf>,
    ended: bool,
    phase: Phase,
    ghost few: { width ≤ 1024 },
    ghost over: { phase ≡ HasEnded → ended ≡ true },
    ghost none: { phase ≡ IsGivenUp → rows ≡ [] },
    ghost fit: { All (λ row. length row ≡ width) rows },
}

impl KeepRows {
    ghost use Rattle.std.specs.Prelude.{None, false, ℕ};
    ghost use Rattle.hy_driver.specs.Forms.{one_ended};
    ghost use Rattle.hy_driver.specs.Keep.{keep_fixed, keep_seen};
    ghost use Rattle.hy_driver.specs.Pass.{pass_out};
    ghost use Rattle.hy_driver.specs.Steps.{IsNew};

    /// One for rows of this many fields.
    pub fn new(alloc: Global, settings: Settings, width: u32) -> KeepRows
        requires { width ≤ 1024 }
        ensures new { IsNew (keep_seen result) pass_out }
        ensures sound { (keep_seen result).sound }
        ensures made { keep_fixed result ≡ record { unit = settings.frame_size; memory = settings.memory; cost = 1; width = λ input. width; arity = width; check = None } }
        ensures input { (k : ℕ) → (keep_seen result).ended k ≡ one_ended false k }
    {
        KeepRows {
            alloc,
            settings,
            width,
            rows: List::new(alloc),
            ended: false,
            phase: Phase::Working,
        }
    }
}

impl Driver for KeepRows {
    ghost use Rattle.std.specs.Prelude.{false, true};
    ghost use Rattle.hy_driver.specs.Keep.{keep_seen};

    ghost seen = { keep_seen };

    ghost stored = { λ _. false };

    ghost hands = { λ _. true };

    fn feed(&mut self, _bank: &mut Bank, _input: u32, row: RowRef<'_>) -> Result<(), OpFault> {
        let mut kept = RowBuf::new(self.alloc);
        kept.copy_from(&row)?;
        self.rows.push(kept)?;
        self.phase = Phase::Working;
        Ok(())
    }

    fn end(&mut self, _bank: &mut Bank, _input: u32) -> Result<(), OpFault> {
        self.ended = true;
        Ok(())
    }

    fn next(&mut self, _bank: &mut Bank, _out: &mut RowBuf) -> Result<Next, OpFault> {
        if self.ended {
            self.phase = Phase::Ended;
            return Ok(Next::End);
        }
        self.phase = Phase::Hungry;
        Ok(Next::NeedInput)
    }

    fn give_up(&mut self, _bank: &mut Bank) {
        self.rows = List::new(self.alloc);
        self.phase = Phase::GivenUp;
    }
}

impl<R: RunStore> HandsOn<R> for KeepRows {
    fn hand_on(self, _bank: &mut Bank) -> (Handed, Option<R>) {
        let handed = Handed {
            rows: self.rows,
            ..Handed::none(self.alloc)
        };
        (handed, None)
    }
}

impl Starts for KeepRows {
    ghost use Rattle.hy_driver.specs.Pass.{pass_out};

    ghost out = { λ d. pass_out };
}

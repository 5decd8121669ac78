//! The least driver: it passes all rows on. It shows how a driver is shown.

ghost use Rattle.std.specs.Prelude.{◌≡◌, ◌≤◌, length, true};
ghost use Rattle.hy_driver.specs.declared.phase.Phase.TheVariants.{Working, Ended as HasEnded};

use crate::driver::Driver;
use crate::laws::Starts;
use crate::phase::Phase;
use al_value::Settings;
use hy_frame::{Bank, RowBuf, RowRef};
use hy_store::{Next, OpFault};
use std::alloc::Global;

/// Passes on all rows, as they come.
#[derive(Drop)]
pub struct PassRows {
    settings: Settings,
    width: u32,
    row: RowBuf,
    holds: bool,
    ended: bool,
    phase: Phase,
    ghost few: { width ≤ 1024 },
    ghost wide: { holds ≡ true → length row ≡ width },
    ghost works: { holds ≡ true → phase ≡ Working },
    ghost over: { phase ≡ HasEnded → ended ≡ true },
}

impl PassRows {
    ghost use Rattle.std.specs.Prelude.{None, false, ℕ};
    ghost use Rattle.hy_driver.specs.Forms.{one_ended};
    ghost use Rattle.hy_driver.specs.Pass.{pass_fixed, pass_out, pass_seen};
    ghost use Rattle.hy_driver.specs.Steps.{IsNew};

    /// One for rows of this many fields.
    pub fn new(alloc: Global, settings: Settings, width: u32) -> PassRows
        requires { width ≤ 1024 }
        ensures new { IsNew (pass_seen result) pass_out }
        ensures made { pass_fixed result ≡ record { unit = settings.frame_size; memory = settings.memory; cost = 2; width = λ input. width; arity = width; check = None } }
        ensures input { (k : ℕ) → (pass_seen result).ended k ≡ one_ended false k }
    {
        PassRows {
            settings,
            width,
            row: RowBuf::new(alloc),
            holds: false,
            ended: false,
            phase: Phase::Working,
        }
    }
}

impl Driver for PassRows {
    ghost use Rattle.std.specs.Prelude.{false};
    ghost use Rattle.hy_driver.specs.Pass.{pass_seen};

    ghost seen = { pass_seen };

    ghost stored = { λ _. false };

    ghost hands = { λ _. false };

    fn feed(&mut self, _bank: &mut Bank, _input: u32, row: RowRef<'_>) -> Result<(), OpFault> {
        self.row.copy_from(&row)?;
        self.holds = true;
        self.phase = Phase::Working;
        Ok(())
    }

    fn end(&mut self, _bank: &mut Bank, _input: u32) -> Result<(), OpFault> {
        self.ended = true;
        Ok(())
    }

    fn next(&mut self, _bank: &mut Bank, out: &mut RowBuf) -> Result<Next, OpFault> {
        if self.holds {
            self.holds = false;
            out.copy_from(&self.row.as_row())?;
            return Ok(Next::Row);
        }
        if self.ended {
            self.phase = Phase::Ended;
            return Ok(Next::End);
        }
        self.phase = Phase::Hungry;
        Ok(Next::NeedInput)
    }

    fn give_up(&mut self, _bank: &mut Bank) {
        self.holds = false;
        self.phase = Phase::GivenUp;
    }
}

impl Starts for PassRows {
    ghost use Rattle.hy_driver.specs.Pass.{pass_out};

    ghost out = { λ d. pass_out };
}

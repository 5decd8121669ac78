//! The driver of operators that work on each row alone.

ghost use Rattle.std.specs.Prelude.{◌≡◌, ◌≤◌, ◌&&◌, length, nat_eq, true};
ghost use Rattle.hy_driver.specs.declared.phase.Phase.TheVariants.{Working, Ended as HasEnded};
ghost use Rattle.hy_job.specs.Sound.{inputs};
ghost use Rattle.hy_stream.specs.Work.{Reads, Reads-prop, arity_of, kind_of};

use crate::work::{RowWork, Window, work_on};
use al_value::Settings;
use hy_driver::{Driver, Phase};
use hy_frame::{Bank, RowBuf, RowRef};
use hy_store::{Next, OpFault};
use std::alloc::Global;

/// How many values the rows of the first input and of any other have, and those that are given.
#[derive(Clone, Copy)]
pub struct Shape {
    pub width: u32,
    pub right_width: u32,
    pub arity: u32,
}

/// An operator that works on each row alone, as it comes, and holds the one that came of it until it
/// is asked for.
#[derive(Drop)]
pub struct Stream {
    alloc: Global,
    settings: Settings,
    shape: Shape,
    work: RowWork,
    window: Window,
    row: RowBuf,
    holds: bool,
    ended: bool,
    right_ended: bool,
    phase: Phase,
    ghost few: { shape.arity ≤ 1024 },
    ghost reads: { Reads work shape.width } by { Reads-prop work shape.width },
    ghost arity: { shape.arity ≡ arity_of work shape.width },
    ghost wide: { holds ≡ true → length row ≡ shape.arity },
    ghost works: { holds ≡ true → phase ≡ Working },
    ghost left_over: { phase ≡ HasEnded → ended ≡ true },
    ghost right_over: { phase ≡ HasEnded → right_ended ≡ true },
    ghost one: { inputs (kind_of work) ≡ 1 → right_ended ≡ true },
}

/// Whether there is a second input.
fn has_right(work: &RowWork) -> bool
    ensures { result ≡ nat_eq (inputs (kind_of work.now)) 2 }
{
    match work {
        RowWork::Union { .. } => true,
        RowWork::Assign { .. }
        | RowWork::Select { .. }
        | RowWork::Project { .. }
        | RowWork::Check { .. }
        | RowWork::Limit { .. }
        | RowWork::LocalLimit { .. }
        | RowWork::Result { .. } => false,
    }
}

/// Whether both inputs have ended.
fn both(left: bool, right: bool) -> bool
    ensures { result ≡ (left && right) }
{
    left && right
}

impl Stream {
    ghost use Rattle.std.specs.Prelude.{◌<◌, ◌↔◌, false, ℕ, List};
    ghost use Rattle.hy_driver.specs.Rows.{Row};
    ghost use Rattle.hy_driver.specs.Steps.{IsNew};
    ghost use Rattle.hy_job.specs.Drivers.{all_left, driver_out};
    ghost use Rattle.hy_job.specs.Sound.{HasArity, IsInRange};
    ghost use Rattle.hy_stream.specs.Stream.{stream_fixed, stream_seen, widths_of, width_of};
    ghost use Rattle.hy_stream.specs.Work.{check_of};

    /// The operator in a partition. What it gives does not depend on which one that is.
    pub fn new(
        alloc: Global,
        settings: Settings,
        _partition: u32,
        shape: Shape,
        work: RowWork,
    ) -> Stream
        requires in_range { IsInRange (kind_of work) (widths_of shape) }
        requires arity { HasArity (kind_of work) (widths_of shape) shape.arity }
        requires few { shape.arity ≤ 1024 }
        ensures new { (n : ℕ) (scanned handed : List Row)
            → IsNew (stream_seen result) (driver_out (kind_of work) shape.arity (all_left (kind_of work) n _partition scanned handed)) }
        ensures made { stream_fixed result ≡ record { unit = settings.frame_size; memory = settings.memory; cost = 2; width = width_of shape; arity = shape.arity; check = check_of work } }
        ensures input { (k : ℕ) → (k < inputs (kind_of work)) ↔ ((stream_seen result).ended k ≡ false) }
    {
        let window = Window::first(&work);
        let right_ended = !has_right(&work);
        Stream {
            alloc,
            settings,
            shape,
            work,
            window,
            row: RowBuf::new(alloc),
            holds: false,
            ended: false,
            right_ended,
            phase: Phase::Working,
        }
    }
}

impl Driver for Stream {
    ghost use Rattle.std.specs.Prelude.{false};
    ghost use Rattle.hy_stream.specs.Stream.{stream_seen};

    ghost seen = { stream_seen };

    ghost stored = { λ _. false };

    ghost hands = { λ _. false };

    fn feed(&mut self, _bank: &mut Bank, input: u32, row: RowRef<'_>) -> Result<(), OpFault> {
        self.holds = false;
        match work_on(
            self.alloc,
            &self.work,
            &mut self.window,
            input,
            &row,
            &mut self.row,
        ) {
            Ok(kept) => {
                self.holds = kept;
                self.phase = Phase::Working;
                Ok(())
            }
            Err(fault) => Err(fault),
        }
    }

    fn end(&mut self, _bank: &mut Bank, input: u32) -> Result<(), OpFault> {
        if input == 0 {
            self.ended = true;
            return Ok(());
        }
        self.right_ended = true;
        Ok(())
    }

    fn next(&mut self, _bank: &mut Bank, out: &mut RowBuf) -> Result<Next, OpFault> {
        if self.holds {
            self.holds = false;
            out.copy_from(&self.row.as_row())?;
            return Ok(Next::Row);
        }
        let over = both(self.ended, self.right_ended);
        if over {
            self.phase = Phase::Ended;
            return Ok(Next::End);
        }
        self.phase = Phase::Hungry;
        Ok(Next::NeedInput)
    }

    fn give_up(&mut self, _bank: &mut Bank) {
        self.holds = false;
        self.phase = Phase::GivenUp;
    }
}

//! The driver of aggregates without keys.

ghost use Rattle.std.specs.Prelude.{◌≡◌, ◌≤◌, true, false};
ghost use Rattle.hy_driver.specs.declared.phase.Phase.TheVariants.{Ended as HasEnded};
ghost use Rattle.hy_aggregate.specs.Work.{IsReached, IsReached-prop, Reads, Reads-prop, arity_of};

use crate::work::{AggWork, give_row};
use al_agg::Part;
use al_value::Settings;
use hy_driver::{Driver, Phase};
use hy_frame::{Bank, RowBuf, RowRef};
use hy_rows::values_in;
use hy_store::{Next, OpFault};
use std::alloc::Global;
use std::mem;

/// Takes rows into partial states, and gives one row of them once no row comes any more.
#[derive(Drop)]
pub struct Aggregate {
    alloc: Global,
    settings: Settings,
    width: u32,
    arity: u32,
    work: AggWork,
    states: Vec<Part>,
    last: bool,
    ended: bool,
    phase: Phase,
    ghost few: { arity ≤ 1024 },
    ghost reads: { Reads work width } by { Reads-prop work width },
    ghost wide: { arity ≡ arity_of work },
    ghost reached: { IsReached work last states.items } by { IsReached-prop work last states.items },
    ghost over: { phase ≡ HasEnded → ended ≡ true },
    ghost given: { phase ≡ HasEnded → last ≡ false },
}

impl Aggregate {
    ghost use Rattle.std.specs.Prelude.{None, ℕ, List, IfOk, IfErr};
    ghost use Rattle.hy_driver.specs.Forms.{one_ended};
    ghost use Rattle.hy_driver.specs.Rows.{Row};
    ghost use Rattle.hy_driver.specs.Steps.{IsNew};
    ghost use Rattle.hy_job.specs.Drivers.{all_left, driver_out};
    ghost use Rattle.hy_job.specs.Sound.{HasArity, IsInRange, TakesStates};
    ghost use Rattle.hy_aggregate.specs.Aggregate.{agg_fixed, agg_seen, widths_of};
    ghost use Rattle.hy_aggregate.specs.Work.{kind_of};

    /// The activity in a partition, over rows of `width` values. For want of memory it hands the work
    /// back.
    pub fn new(
        alloc: Global,
        settings: Settings,
        partition: u32,
        width: u32,
        arity: u32,
        work: AggWork,
    ) -> Result<Aggregate, AggWork>
        requires in_range { IsInRange (kind_of work) (widths_of width) }
        requires states { TakesStates (kind_of work) (widths_of width) }
        requires arity { HasArity (kind_of work) (widths_of width) arity }
        requires few { arity ≤ 1024 }
        ensures new { IfOk result (λ d. (n : ℕ) (scanned handed : List Row)
            → IsNew (agg_seen d) (driver_out (kind_of work) arity (all_left (kind_of work) n partition scanned handed))) }
        ensures sound { IfOk result (λ d. (agg_seen d).sound) }
        ensures made { IfOk result (λ d. agg_fixed d ≡ record { unit = settings.frame_size; memory = settings.memory; cost = 1; width = λ input. width; arity = arity; check = None }) }
        ensures input { IfOk result (λ d. (k : ℕ) → (agg_seen d).ended k ≡ one_ended false k) }
        ensures err { IfErr result (λ back. back ≡ work) }
    {
        let last = work.gives(partition);
        match work.start(alloc) {
            Ok(states) => Ok(Aggregate {
                alloc,
                settings,
                width,
                arity,
                work,
                states,
                last,
                ended: false,
                phase: Phase::Working,
            }),
            Err(_) => Err(work),
        }
    }
}

impl Driver for Aggregate {
    ghost use Rattle.std.specs.Prelude.{false};
    ghost use Rattle.hy_aggregate.specs.Aggregate.{agg_seen};

    ghost seen = { agg_seen };

    ghost stored = { λ _. false };

    ghost hands = { λ _. false };

    fn feed(&mut self, _bank: &mut Bank, _input: u32, row: RowRef<'_>) -> Result<(), OpFault> {
        self.phase = Phase::Working;
        if !self.last {
            return Ok(());
        }
        // Until all states have taken the row, no row may come of them.
        self.last = false;
        let values = values_in(self.alloc, &row)?;
        self.work
            .take_row(self.alloc, &mut self.states, values.as_slice())?;
        self.last = true;
        Ok(())
    }

    fn end(&mut self, _bank: &mut Bank, _input: u32) -> Result<(), OpFault> {
        self.ended = true;
        Ok(())
    }

    fn next(&mut self, _bank: &mut Bank, out: &mut RowBuf) -> Result<Next, OpFault> {
        if !self.ended {
            self.phase = Phase::Hungry;
            return Ok(Next::NeedInput);
        }
        if !self.last {
            self.phase = Phase::Ended;
            return Ok(Next::End);
        }
        self.last = false;
        self.phase = Phase::Working;
        let states = mem::replace(&mut self.states, Vec::new(self.alloc));
        let row = self.work.last_row(self.alloc, states)?;
        give_row(self.alloc, row.as_slice(), out)?;
        Ok(Next::Row)
    }

    fn give_up(&mut self, _bank: &mut Bank) {
        self.phase = Phase::GivenUp;
    }
}

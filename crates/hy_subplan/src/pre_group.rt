//! The driver of an operator that gives a row for each stretch of rows with equal keys.

ghost use Rattle.std.specs.Prelude.{◌≡◌, ◌≤◌, ◌+◌, ◌∷◌, All, [], length, true, IfOk};
ghost use Rattle.hy_driver.specs.declared.phase.Phase.TheVariants.{Ended as HasEnded, Working};
ghost use Rattle.hy_job.specs.Nested.{n_width};
ghost use Rattle.hy_job.specs.Sound.{NSound, is_aggregate};
ghost use Rattle.hy_subplan.specs.Nesting.{NSound-prop};

use crate::stretch::{goes_on, stretch_row};
use al_value::{List, NoMemory, Row, Settings};
use hy_driver::{Driver, Phase};
use hy_frame::{Bank, RowBuf, RowRef};
use hy_job::NestedPlan;
use hy_rows::{put_row, values_in};
use hy_store::{Next, OpFault};
use std::alloc::Global;
use std::mem;

/// Keeps the rows of one stretch, and the row of the one before it until it is asked for.
#[derive(Drop)]
pub struct PreGroup {
    alloc: Global,
    settings: Settings,
    width: u32,
    arity: u32,
    keys: List<u32>,
    nested: NestedPlan,
    rows: List<Row>,
    row: RowBuf,
    holds: bool,
    ended: bool,
    phase: Phase,
    ghost few: { arity ≤ 1024 },
    ghost root: { is_aggregate nested ≡ true },
    ghost each: { NSound nested width } by { NSound-prop nested width },
    ghost behind: { arity ≡ length keys + n_width nested width },
    ghost fit: { All (λ row. length row ≡ width) rows },
    ghost wide: { holds ≡ true → length row ≡ arity },
    ghost works: { holds ≡ true → phase ≡ Working },
    ghost over: { phase ≡ HasEnded → ended ≡ true },
    ghost done: { phase ≡ HasEnded → rows ≡ [] },
}

/// The row in a list of its own.
fn alone(alloc: Global, row: Row) -> Result<List<Row>, NoMemory>
    ensures { IfOk result (λ rows. rows ≡ row ∷ []) }
{
    let mut rows = List::new(alloc);
    rows.push(row)?;
    Ok(rows)
}

impl PreGroup {
    ghost use Rattle.std.specs.Prelude.{None, false, ℕ, List as Listed};
    ghost use Rattle.hy_driver.specs.Forms.{one_ended};
    ghost use Rattle.hy_driver.specs.Rows.{Row as Values};
    ghost use Rattle.hy_driver.specs.Steps.{IsNew};
    ghost use Rattle.hy_job.specs.declared.job.Kind.TheVariants as K;
    ghost use Rattle.hy_job.specs.Drivers.{all_left, driver_out};
    ghost use Rattle.hy_job.specs.Sound.{SoundNested};
    ghost use Rattle.hy_subplan.specs.PreGroup.{pre_fixed, pre_seen};

    /// The operator in a partition, over rows of `width` values, which gives rows of `arity` values.
    /// What it gives does not depend on which partition that is.
    pub fn new(
        alloc: Global,
        settings: Settings,
        _partition: u32,
        width: u32,
        arity: u32,
        keys: List<u32>,
        nested: NestedPlan,
    ) -> PreGroup
        requires sound { SoundNested nested width }
        requires behind { arity ≡ length keys + n_width nested width }
        requires few { arity ≤ 1024 }
        ensures new { (own n : ℕ) (scanned handed : Listed Values)
            → IsNew (pre_seen result) (driver_out (K.PreGroup keys nested) own (all_left (K.PreGroup keys nested) n _partition scanned handed)) }
        ensures sound { (pre_seen result).sound }
        ensures made { pre_fixed result ≡ record { unit = settings.frame_size; memory = settings.memory; cost = 3; width = λ input. width; arity = arity; check = None } }
        ensures input { (k : ℕ) → (pre_seen result).ended k ≡ one_ended false k }
    {
        PreGroup {
            alloc,
            settings,
            width,
            arity,
            keys,
            nested,
            rows: List::new(alloc),
            row: RowBuf::new(alloc),
            holds: false,
            ended: false,
            phase: Phase::Working,
        }
    }
}

impl Driver for PreGroup {
    ghost use Rattle.std.specs.Prelude.{false};
    ghost use Rattle.hy_subplan.specs.PreGroup.{pre_seen};

    ghost seen = { pre_seen };

    ghost stored = { λ _. false };

    ghost hands = { λ _. false };

    #[tactic(auto, using(crate::proofs::StretchLaws::call_laws))]
    fn feed(&mut self, _bank: &mut Bank, _input: u32, row: RowRef<'_>) -> Result<(), OpFault> {
        self.holds = false;
        let values = values_in(self.alloc, &row)?;
        let keys = self.keys.as_slice();
        if goes_on(self.alloc, keys, self.rows.as_slice(), &values)? {
            self.rows.push(values)?;
            self.phase = Phase::Working;
            return Ok(());
        }
        let made = stretch_row(self.alloc, keys, &self.nested, self.rows.as_slice())?;
        put_row(self.alloc, made.as_slice(), &mut self.row)?;
        self.rows = alone(self.alloc, values)?;
        self.holds = true;
        self.phase = Phase::Working;
        Ok(())
    }

    fn end(&mut self, _bank: &mut Bank, _input: u32) -> Result<(), OpFault> {
        self.ended = true;
        Ok(())
    }

    #[tactic(auto, using(crate::proofs::StretchLaws::call_laws))]
    fn next(&mut self, _bank: &mut Bank, out: &mut RowBuf) -> Result<Next, OpFault> {
        if self.holds {
            self.holds = false;
            out.copy_from(&self.row.as_row())?;
            return Ok(Next::Row);
        }
        if !self.ended {
            self.phase = Phase::Hungry;
            return Ok(Next::NeedInput);
        }
        if self.rows.is_empty() {
            self.phase = Phase::Ended;
            return Ok(Next::End);
        }
        self.phase = Phase::Working;
        let rows = mem::replace(&mut self.rows, List::new(self.alloc));
        let made = stretch_row(
            self.alloc,
            self.keys.as_slice(),
            &self.nested,
            rows.as_slice(),
        )?;
        put_row(self.alloc, made.as_slice(), out)?;
        out.as_row();
        Ok(Next::Row)
    }

    fn give_up(&mut self, _bank: &mut Bank) {
        self.holds = false;
        self.rows = List::new(self.alloc);
        self.phase = Phase::GivenUp;
    }
}

//! The driver of an operator that gives each row with the row of a nested plan behind it.

ghost use Rattle.std.specs.Prelude.{◌≡◌, ◌≤◌, ◌+◌, ◌∷◌, ◌++◌, [], length, true, IfOk};
ghost use Rattle.hy_driver.specs.declared.phase.Phase.TheVariants.{Ended as HasEnded, Working};
ghost use Rattle.hy_driver.specs.Rows.{values_of};
ghost use Rattle.hy_job.specs.Nested.{Gives, n_width};
ghost use Rattle.hy_job.specs.Sound.{NSound, SoundNested, is_aggregate};
ghost use Rattle.hy_subplan.specs.Nesting.{NSound-prop};

use crate::behind::with_behind;
use al_value::{NoMemory, Row, Settings};
use hy_driver::{Driver, Phase};
use hy_frame::{Bank, RowBuf, RowRef};
use hy_job::NestedPlan;
use hy_nested::run_nested;
use hy_rows::{put_row, values_in};
use hy_store::{Next, OpFault};
use std::alloc::Global;
use std::slice;

/// Holds the row that it made of the one that it took, until it is asked for.
#[derive(Drop)]
pub struct Subplan {
    alloc: Global,
    settings: Settings,
    width: u32,
    arity: u32,
    nested: NestedPlan,
    row: RowBuf,
    holds: bool,
    ended: bool,
    phase: Phase,
    ghost few: { arity ≤ 1024 },
    ghost root: { is_aggregate nested ≡ true },
    ghost each: { NSound nested width } by { NSound-prop nested width },
    ghost behind: { arity ≡ width + n_width nested width },
    ghost wide: { holds ≡ true → length row ≡ arity },
    ghost works: { holds ≡ true → phase ≡ Working },
    ghost over: { phase ≡ HasEnded → ended ≡ true },
}

/// The values of a row, and behind them those of the nested plan's row over it.
#[tactic(auto, using(crate::proofs::SubplanLaws::longer_laws))]
fn longer(alloc: Global, nested: &NestedPlan, row: &RowRef<'_>) -> Result<Row, NoMemory>
    requires { SoundNested nested.now (length row.now) }
    ensures given { IfOk result (λ made. Gives nested.now (values_of row.now ∷ []) (λ inner. made ≡ values_of row.now ++ inner)) }
    ensures wide { IfOk result (λ made. length made ≡ length row.now + n_width nested.now (length row.now)) }
{
    let values = values_in(alloc, row)?;
    let inner = run_nested(alloc, nested, slice::from_ref(&values))?;
    with_behind(alloc, values, inner.as_slice())
}

impl Subplan {
    ghost use Rattle.std.specs.Prelude.{None, false, ℕ, List as Listed};
    ghost use Rattle.hy_driver.specs.Forms.{one_ended};
    ghost use Rattle.hy_driver.specs.Rows.{Row as Values};
    ghost use Rattle.hy_driver.specs.Steps.{IsNew};
    ghost use Rattle.hy_job.specs.declared.job.Kind.TheVariants as K;
    ghost use Rattle.hy_job.specs.Drivers.{all_left, driver_out};
    ghost use Rattle.hy_subplan.specs.Subplan.{subplan_fixed, subplan_seen};

    /// The operator in a partition, over rows of `width` values, which gives rows of `arity` values.
    /// What it gives does not depend on which partition that is.
    pub fn new(
        alloc: Global,
        settings: Settings,
        _partition: u32,
        width: u32,
        arity: u32,
        nested: NestedPlan,
    ) -> Subplan
        requires sound { SoundNested nested width }
        requires behind { arity ≡ width + n_width nested width }
        requires few { arity ≤ 1024 }
        ensures new { (own n : ℕ) (scanned handed : Listed Values)
            → IsNew (subplan_seen result) (driver_out (K.Subplan nested) own (all_left (K.Subplan nested) n _partition scanned handed)) }
        ensures made { subplan_fixed result ≡ record { unit = settings.frame_size; memory = settings.memory; cost = 2; width = λ input. width; arity = arity; check = None } }
        ensures input { (k : ℕ) → (subplan_seen result).ended k ≡ one_ended false k }
    {
        Subplan {
            alloc,
            settings,
            width,
            arity,
            nested,
            row: RowBuf::new(alloc),
            holds: false,
            ended: false,
            phase: Phase::Working,
        }
    }
}

impl Driver for Subplan {
    ghost use Rattle.std.specs.Prelude.{false};
    ghost use Rattle.hy_subplan.specs.Subplan.{subplan_seen};

    ghost seen = { subplan_seen };

    ghost stored = { λ _. false };

    ghost hands = { λ _. false };

    #[tactic(auto, using(crate::proofs::SubplanLaws::feed_laws))]
    fn feed(&mut self, _bank: &mut Bank, _input: u32, row: RowRef<'_>) -> Result<(), OpFault> {
        self.holds = false;
        let made = longer(self.alloc, &self.nested, &row)?;
        put_row(self.alloc, made.as_slice(), &mut self.row)?;
        self.holds = true;
        self.phase = Phase::Working;
        Ok(())
    }

    fn end(&mut self, _bank: &mut Bank, _input: u32) -> Result<(), OpFault> {
        self.ended = true;
        Ok(())
    }

    fn next(&mut self, _bank: &mut Bank, out: &mut RowBuf) -> Result<Next, OpFault> {
        if self.holds {
            self.holds = false;
            out.copy_from(&self.row.as_row())?;
            return Ok(Next::Row);
        }
        if self.ended {
            self.phase = Phase::Ended;
            return Ok(Next::End);
        }
        self.phase = Phase::Hungry;
        Ok(Next::NeedInput)
    }

    fn give_up(&mut self, _bank: &mut Bank) {
        self.holds = false;
        self.phase = Phase::GivenUp;
    }
}

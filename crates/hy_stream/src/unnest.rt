//! The driver of an operator that gives a row with each item of a generator behind it.

ghost use Rattle.std.specs.Prelude.{◌≡◌, ◌<◌, ◌≤◌, ◌^◌, length, true, IfOk};
ghost use Rattle.hy_driver.specs.declared.phase.Phase.TheVariants.{Working, Ended as HasEnded};
ghost use Rattle.hy_driver.specs.Rows.{values_of};
ghost use Rattle.hy_job.specs.Columns as spec;
ghost use Rattle.hy_stream.specs.Work.{ReadsItems, ReadsItems-prop};

use al_value::{List, NoMemory, Settings, Value};
use hy_driver::{Driver, Phase};
use hy_frame::{Bank, RowBuf, RowRef};
use hy_job::{GenRex, generator_items};
use hy_rows::{put_longer, values_in};
use hy_store::{Next, OpFault};
use std::alloc::Global;

/// Holds the row that it took, and the items that it has still to give behind it.
#[derive(Drop)]
pub struct Unnest {
    alloc: Global,
    settings: Settings,
    width: u32,
    generator: GenRex,
    row: RowBuf,
    items: List<Value>,
    at: usize,
    ended: bool,
    phase: Phase,
    ghost few: { width < 1024 },
    ghost reads: { ReadsItems width generator } by { ReadsItems-prop width generator },
    ghost within: { at ≤ length items },
    ghost wide: { at < length items → length row ≡ width },
    ghost works: { at < length items → phase ≡ Working },
    ghost over: { phase ≡ HasEnded → ended ≡ true },
}

/// The items of a generator at a row.
#[tactic(auto, using(hy_rows::proofs::RowLaws::row_laws))]
fn items_at(alloc: Global, generator: &GenRex, row: &RowRef<'_>) -> Result<List<Value>, NoMemory>
    requires { ReadsItems (length row.now) generator.now }
    ensures items { IfOk result (λ items. items ≡ spec.items generator.now (values_of row.now)) }
    ensures few { IfOk result (λ items. length items < 2 ^ 64) }
{
    let values = values_in(alloc, row)?;
    let items = generator_items(alloc, generator, values.as_slice())?;
    items.len();
    Ok(items)
}

impl Unnest {
    ghost use Rattle.std.specs.Prelude.{◌+◌, None, false, ℕ, List as Listed};
    ghost use Rattle.hy_driver.specs.Forms.{one_ended};
    ghost use Rattle.hy_driver.specs.Rows.{Row};
    ghost use Rattle.hy_driver.specs.Steps.{IsNew};
    ghost use Rattle.hy_job.specs.declared.job.Kind.TheVariants as K;
    ghost use Rattle.hy_job.specs.Drivers.{all_left, driver_out};
    ghost use Rattle.hy_stream.specs.Unnest.{most_turns, unnest_fixed, unnest_seen};

    /// The operator in a partition, over rows of this many values. What it gives does not depend on
    /// which partition that is.
    pub fn new(
        alloc: Global,
        settings: Settings,
        _partition: u32,
        width: u32,
        generator: GenRex,
    ) -> Unnest
        requires reads { ReadsItems width generator }
        requires few { width < 1024 }
        ensures new { (arity n : ℕ) (scanned handed : Listed Row)
            → IsNew (unnest_seen result) (driver_out (K.Unnest generator) arity (all_left (K.Unnest generator) n _partition scanned handed)) }
        ensures made { unnest_fixed result ≡ record { unit = settings.frame_size; memory = settings.memory; cost = most_turns; width = λ input. width; arity = width + 1; check = None } }
        ensures input { (k : ℕ) → (unnest_seen result).ended k ≡ one_ended false k }
    {
        Unnest {
            alloc,
            settings,
            width,
            generator,
            row: RowBuf::new(alloc),
            items: List::new(alloc),
            at: 0,
            ended: false,
            phase: Phase::Working,
        }
    }
}

impl Driver for Unnest {
    ghost use Rattle.std.specs.Prelude.{false};
    ghost use Rattle.hy_stream.specs.Unnest.{unnest_seen};

    ghost seen = { unnest_seen };

    ghost stored = { λ _. false };

    ghost hands = { λ _. false };

    fn feed(&mut self, _bank: &mut Bank, _input: u32, row: RowRef<'_>) -> Result<(), OpFault> {
        let items = items_at(self.alloc, &self.generator, &row)?;
        self.row.copy_from(&row)?;
        self.items = items;
        self.at = 0;
        self.phase = Phase::Working;
        Ok(())
    }

    fn end(&mut self, _bank: &mut Bank, _input: u32) -> Result<(), OpFault> {
        self.ended = true;
        Ok(())
    }

    fn next(&mut self, _bank: &mut Bank, out: &mut RowBuf) -> Result<Next, OpFault> {
        if self.at < self.items.len() {
            let item = &self.items.as_slice()[self.at];
            self.at += 1;
            put_longer(self.alloc, &self.row.as_row(), item, out)?;
            out.as_row();
            return Ok(Next::Row);
        }
        if self.ended {
            self.phase = Phase::Ended;
            return Ok(Next::End);
        }
        self.phase = Phase::Hungry;
        Ok(Next::NeedInput)
    }

    fn give_up(&mut self, _bank: &mut Bank) {
        self.at = self.items.len();
        self.phase = Phase::GivenUp;
    }
}

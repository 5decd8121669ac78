//! The drivers of operators without inputs. Each is made with its input ended, and so never fed; of a
//! row that it took nothing would come.

ghost use Rattle.std.specs.Prelude.{◌≡◌, ◌≤◌, ◌<◌, ◌%◌, true, List, length, All};
ghost use Rattle.hy_driver.specs.Rows.{Row as Cells};
ghost use Rattle.hy_driver.specs.declared.phase.Phase.TheVariants.{Working, Ended as HasEnded};
ghost use Rattle.hy_stream.specs.Places.{own_of};

use al_value::{Row, Settings};
use hy_driver::{Driver, Phase};
use hy_frame::{Bank, RowBuf, RowRef};
use hy_rows::put_row;
use hy_store::{Next, OpFault};
use std::alloc::Global;

/// Gives the rows of a dataset whose places fall to its partition.
#[derive(Drop)]
pub struct Scan<'a> {
    alloc: Global,
    settings: Settings,
    partition: u32,
    arity: u32,
    rows: &'a [Row],
    at: usize,
    ended: bool,
    phase: Phase,
    ghost some: { 1 ≤ settings.partitions },
    ghost few: { arity ≤ 1024 },
    ghost wide: { All (λ row. length row ≡ arity) rows.now },
    ghost within: { at ≤ length rows.now },
    ghost works: { at < length rows.now → phase ≡ Working },
    ghost over: { phase ≡ HasEnded → ended ≡ true },
}

/// The first place from here on that falls to the partition, or the end.
#[tactic(auto, using(crate::proofs::SourceLaws::place_laws))]
fn next_place(rows: &[Row], from: usize, partitions: usize, partition: usize) -> usize
    requires some { 1 ≤ partitions }
    requires within { from ≤ length rows.now }
    ensures behind { from ≤ result }
    ensures within { result ≤ length rows.now }
    ensures found { result < length rows.now → result % partitions ≡ partition }
    ensures skipped { own_of partitions partition from rows.now ≡ own_of partitions partition result rows.now }
{
    for at in from..rows.len() {
        if at % partitions == partition {
            return at;
        }
    }
    rows.len()
}

impl<'a> Scan<'a> {
    ghost use Rattle.std.specs.Prelude.{None, ℕ};
    ghost use Rattle.hy_driver.specs.Steps.{IsNew};
    ghost use Rattle.hy_job.specs.declared.job.Kind.TheVariants as K;
    ghost use Rattle.hy_job.specs.Drivers.{all_left, driver_out};
    ghost use Rattle.hy_stream.specs.Source.{scan_fixed, scan_seen};

    /// The scan of a dataset with these rows, in a partition.
    pub fn new(
        alloc: Global,
        settings: Settings,
        partition: u32,
        arity: u32,
        rows: &'a [Row],
    ) -> Scan<'a>
        requires some { 1 ≤ settings.partitions }
        requires few { arity ≤ 1024 }
        requires wide { All (λ row. length row ≡ arity) rows.now }
        ensures new { (set : List ℕ) (handed : List Cells)
            → IsNew (scan_seen result) (driver_out (K.Scan set) arity (all_left (K.Scan set) settings.partitions partition rows.now handed)) }
        ensures made { scan_fixed result ≡ record { unit = settings.frame_size; memory = settings.memory; cost = 1; width = λ input. 0; arity = arity; check = None } }
        ensures input { (k : ℕ) → (scan_seen result).ended k ≡ true }
    {
        Scan {
            alloc,
            settings,
            partition,
            arity,
            rows,
            at: 0,
            ended: true,
            phase: Phase::Working,
        }
    }
}

impl<'a> Driver for Scan<'a> {
    ghost use Rattle.std.specs.Prelude.{false};
    ghost use Rattle.hy_stream.specs.Source.{scan_seen};

    ghost seen = { scan_seen };

    ghost stored = { λ _. false };

    ghost hands = { λ _. false };

    fn feed(&mut self, _bank: &mut Bank, _input: u32, _row: RowRef<'_>) -> Result<(), OpFault> {
        self.phase = Phase::Working;
        Ok(())
    }

    fn end(&mut self, _bank: &mut Bank, _input: u32) -> Result<(), OpFault> {
        self.ended = true;
        Ok(())
    }

    fn next(&mut self, _bank: &mut Bank, out: &mut RowBuf) -> Result<Next, OpFault> {
        let partitions = self.settings.partitions as usize;
        let at = next_place(self.rows, self.at, partitions, self.partition as usize);
        if at < self.rows.len() {
            self.at = at + 1;
            put_row(self.alloc, self.rows[at].as_slice(), out)?;
            out.as_row();
            return Ok(Next::Row);
        }
        self.at = at;
        if self.ended {
            self.phase = Phase::Ended;
            return Ok(Next::End);
        }
        self.phase = Phase::Hungry;
        Ok(Next::NeedInput)
    }

    fn give_up(&mut self, _bank: &mut Bank) {
        self.at = self.rows.len();
        self.phase = Phase::GivenUp;
    }
}

/// Gives one row without values in the first partition.
#[derive(Drop)]
pub struct One {
    settings: Settings,
    gives: bool,
    ended: bool,
    phase: Phase,
    ghost works: { gives ≡ true → phase ≡ Working },
    ghost over: { phase ≡ HasEnded → ended ≡ true },
}

impl One {
    ghost use Rattle.std.specs.Prelude.{None, ℕ};
    ghost use Rattle.hy_driver.specs.Steps.{IsNew};
    ghost use Rattle.hy_job.specs.declared.job.Kind.TheVariants as K;
    ghost use Rattle.hy_job.specs.Drivers.{all_left, driver_out};
    ghost use Rattle.hy_stream.specs.Source.{one_fixed, one_seen};

    /// The operator in a partition.
    pub fn new(settings: Settings, partition: u32) -> One
        ensures new { (arity n : ℕ) (scanned handed : List Cells)
            → IsNew (one_seen result) (driver_out K.One arity (all_left K.One n partition scanned handed)) }
        ensures made { one_fixed result ≡ record { unit = settings.frame_size; memory = settings.memory; cost = 1; width = λ input. 0; arity = 0; check = None } }
        ensures input { (k : ℕ) → (one_seen result).ended k ≡ true }
    {
        One {
            settings,
            gives: partition == 0,
            ended: true,
            phase: Phase::Working,
        }
    }
}

impl Driver for One {
    ghost use Rattle.std.specs.Prelude.{false};
    ghost use Rattle.hy_stream.specs.Source.{one_seen};

    ghost seen = { one_seen };

    ghost stored = { λ _. false };

    ghost hands = { λ _. false };

    fn feed(&mut self, _bank: &mut Bank, _input: u32, _row: RowRef<'_>) -> Result<(), OpFault> {
        self.phase = Phase::Working;
        Ok(())
    }

    fn end(&mut self, _bank: &mut Bank, _input: u32) -> Result<(), OpFault> {
        self.ended = true;
        Ok(())
    }

    fn next(&mut self, _bank: &mut Bank, out: &mut RowBuf) -> Result<Next, OpFault> {
        if self.gives {
            self.gives = false;
            out.clear();
            return Ok(Next::Row);
        }
        if self.ended {
            self.phase = Phase::Ended;
            return Ok(Next::End);
        }
        self.phase = Phase::Hungry;
        Ok(Next::NeedInput)
    }

    fn give_up(&mut self, _bank: &mut Bank) {
        self.gives = false;
        self.phase = Phase::GivenUp;
    }
}

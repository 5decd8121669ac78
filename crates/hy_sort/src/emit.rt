//! The driver of the second activity of a sort.

ghost use Rattle.std.specs.Prelude.{◌≡◌, ◌≤◌, ◌<◌, All, [], length, true, false};
ghost use Rattle.hy_driver.specs.declared.phase.Phase.TheVariants.{Ended as HasEnded, Working};

use crate::order::sort_rows;
use al_value::{List, Settings, SortKey};
use hy_driver::{Driver, Handed, Phase};
use hy_frame::{Bank, RowBuf, RowRef};
use hy_store::{Next, OpFault};

/// Orders the rows that it was handed by the keys, and gives them. It is made with its input ended,
/// and so never fed; of a row that it took nothing would come.
#[derive(Drop)]
pub struct SortEmit {
    settings: Settings,
    arity: u32,
    keys: List<SortKey>,
    rows: Vec<RowBuf>,
    sorted: bool,
    at: usize,
    ended: bool,
    phase: Phase,
    ghost fit: { All (λ row. length row ≡ arity) rows.items },
    ghost within: { at ≤ length rows.items },
    ghost first: { sorted ≡ false → at ≡ 0 },
    ghost ready: { sorted ≡ false → phase ≡ Working },
    ghost works: { at < length rows.items → phase ≡ Working },
    ghost over: { phase ≡ HasEnded → ended ≡ true },
}

impl SortEmit {
    ghost use Rattle.std.specs.Prelude.{None, ℕ, map, List as Listed};
    ghost use Rattle.hy_driver.specs.Rows.{Row, values_of};
    ghost use Rattle.hy_driver.specs.Steps.{IsNew};
    ghost use Rattle.hy_job.specs.declared.job.Kind.TheVariants as K;
    ghost use Rattle.hy_job.specs.Drivers.{all_left, driver_out};
    ghost use Rattle.hy_sort.specs.Emit.{emit_fixed, emit_seen};

    /// The activity in a partition, of what its first activity handed on there: rows of this many
    /// values, which stand beside the bank. It takes no memory.
    pub fn new(
        settings: Settings,
        _partition: u32,
        arity: u32,
        keys: List<SortKey>,
        handed: Handed,
    ) -> SortEmit
        requires fit { All (λ row. length row ≡ arity) handed.rows }
        requires beside { (handed.frames ≡ []) × (handed.runs ≡ []) }
        ensures new { (n : ℕ) (scanned : Listed Row)
            → IsNew (emit_seen result) (driver_out (K.SortEmit keys) arity (all_left (K.SortEmit keys) n _partition scanned (map values_of handed.rows))) }
        ensures made { emit_fixed result ≡ record { unit = settings.frame_size; memory = settings.memory; cost = 1; width = λ input. 0; arity = arity; check = None } }
        ensures input { (k : ℕ) → (emit_seen result).ended k ≡ true }
    {
        SortEmit {
            settings,
            arity,
            keys,
            rows: handed.rows.into_vec(),
            sorted: false,
            at: 0,
            ended: true,
            phase: Phase::Working,
        }
    }
}

impl Driver for SortEmit {
    ghost use Rattle.std.specs.Prelude.{false};
    ghost use Rattle.hy_sort.specs.Emit.{emit_seen};

    ghost seen = { emit_seen };

    ghost stored = { λ _. false };

    ghost hands = { λ _. false };

    fn feed(&mut self, _bank: &mut Bank, _input: u32, _row: RowRef<'_>) -> Result<(), OpFault> {
        self.phase = Phase::Working;
        Ok(())
    }

    fn end(&mut self, _bank: &mut Bank, _input: u32) -> Result<(), OpFault> {
        self.ended = true;
        Ok(())
    }

    fn next(&mut self, _bank: &mut Bank, out: &mut RowBuf) -> Result<Next, OpFault> {
        if !self.sorted {
            self.sorted = true;
            sort_rows(self.keys.as_slice(), &mut self.rows)?;
            return Ok(Next::Work);
        }
        if self.at < self.rows.len() {
            let at = self.at;
            self.at = at + 1;
            out.copy_from(&self.rows[at].as_row())?;
            return Ok(Next::Row);
        }
        if self.ended {
            self.phase = Phase::Ended;
            return Ok(Next::End);
        }
        self.phase = Phase::Hungry;
        Ok(Next::NeedInput)
    }

    fn give_up(&mut self, _bank: &mut Bank) {
        self.sorted = true;
        self.at = self.rows.len();
        self.phase = Phase::GivenUp;
    }
}

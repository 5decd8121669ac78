//! The left row that is at hand, and how far it has come.

ghost use Rattle.std.specs.Prelude.{◌≡◌, ◌<◌, ◌-◌, ◌^◌, Some, None, length, slice_get, false, true};
ghost use Rattle.hy_join.specs.Probe.{Looks, left_turns, partners_of};

use crate::fields::put_padded;
use crate::pair::put_pair;
use crate::right::RightSide;
use al_value::NoMemory;
use hy_frame::RowBuf;
use hy_store::Next;
use std::alloc::Global;

/// A left row, the hash of its keys, whether it is at hand, whether it still comes alone if no
/// partner is found, and the place of the right row that it meets next.
#[derive(Drop)]
pub struct LeftRow {
    pub(crate) row: RowBuf,
    pub(crate) hash: Option<u64>,
    pub(crate) holds: bool,
    pub(crate) alone: bool,
    pub(crate) place: usize,
}

impl LeftRow {
    /// None at hand.
    pub(crate) fn none(alloc: Global) -> LeftRow
        ensures { result.holds ≡ false }
    {
        LeftRow {
            row: RowBuf::new(alloc),
            hash: None,
            holds: false,
            alone: false,
            place: 0,
        }
    }

    /// One turn: it meets the next right row, or has met all.
    #[tactic(auto, using(crate::proofs::LeftLaws::left_laws))]
    pub(crate) fn look(
        &mut self,
        alloc: Global,
        side: &RightSide,
        out: &mut RowBuf,
    ) -> Result<Next, NoMemory>
        requires holds { self.old.holds ≡ true }
        requires wide { length self.old.row ≡ side.now.sides.left }
        ensures looked { Looks side.now self.old out.new self.new result }
        ensures turned { left_turns side.now self.new < left_turns side.now self.old }
        ensures row { self.new.row ≡ self.old.row }
    {
        match side.partner(self.hash, self.place) {
            Some(right) => self.meet(alloc, side, right, out),
            None => self.leave(side, out),
        }
    }

    /// Meets a right row.
    #[tactic(auto, using(crate::proofs::LeftLaws::left_laws))]
    fn meet(
        &mut self,
        alloc: Global,
        side: &RightSide,
        right: &RowBuf,
        out: &mut RowBuf,
    ) -> Result<Next, NoMemory>
        requires holds { self.old.holds ≡ true }
        requires wide { length self.old.row ≡ side.now.sides.left }
        requires right_wide { length right.now ≡ side.now.sides.right }
        requires room { self.old.place < 2 ^ 64 - 1 }
        requires right { slice_get (partners_of side.now self.old.hash) self.old.place ≡ Some right.now }
        ensures looked { Looks side.now self.old out.new self.new result }
        ensures turned { left_turns side.now self.new < left_turns side.now self.old }
        ensures row { self.new.row ≡ self.old.row }
    {
        self.place += 1;
        if put_pair(alloc, &side.arg, &self.row.as_row(), &right.as_row(), out)? {
            self.alone = false;
            return Ok(Next::Row);
        }
        Ok(Next::Work)
    }

    /// Leaves the right side, of which it has met all rows that it may. Where it has found no
    /// partner and is to come alone, it comes with NULL for each right field.
    #[tactic(auto, using(crate::proofs::LeftLaws::left_laws))]
    fn leave(&mut self, side: &RightSide, out: &mut RowBuf) -> Result<Next, NoMemory>
        requires holds { self.old.holds ≡ true }
        requires wide { length self.old.row ≡ side.now.sides.left }
        requires met { slice_get (partners_of side.now self.old.hash) self.old.place ≡ None }
        ensures looked { Looks side.now self.old out.new self.new result }
        ensures turned { left_turns side.now self.new < left_turns side.now self.old }
        ensures row { self.new.row ≡ self.old.row }
    {
        self.holds = false;
        if self.alone {
            put_padded(&self.row.as_row(), side.sides.right as usize, out)?;
            return Ok(Next::Row);
        }
        Ok(Next::Work)
    }
}

//! The right side of a join, which is probed with left rows.

ghost use Rattle.std.specs.Prelude.{◌≡◌, ◌≤◌, ◌+◌, length};
ghost use Rattle.std.specs.List.{All};
ghost use Rattle.al_func.specs.Rex.{IsSound};
ghost use Rattle.hy_join.specs.Keys.{Indexed, Indexed-prop};

use crate::index::{index_rows, place_under};
use al_value::{List, Settings};
use hy_frame::RowBuf;
use hy_job::JoinArg;
use indexmap::IndexMap;
use std::alloc::Global;

/// How many fields the left and the right rows of a join have.
#[derive(Clone, Copy)]
pub struct Sides {
    pub left: u32,
    pub right: u32,
}

/// The right rows of a join, what they are joined by, and where they are by the hashes of their
/// keys. A join without keys has no index: each left row meets all right rows.
#[derive(Drop)]
pub struct RightSide {
    pub(crate) settings: Settings,
    pub(crate) sides: Sides,
    pub(crate) arg: JoinArg,
    pub(crate) rows: List<RowBuf>,
    index: Option<IndexMap<u64, List<usize>>>,
    ghost few: { sides.left + sides.right ≤ 1024 },
    ghost pairs: { length arg.left ≡ length arg.right },
    ghost reads: { IsSound (sides.left + sides.right) arg.rest },
    ghost fit: { All (λ row. length row ≡ sides.right) rows },
    ghost indexed: { Indexed arg.right rows index } by { Indexed-prop arg.right rows index },
}

impl RightSide {
    ghost use Rattle.std.specs.Prelude.{◌<◌, ◌-◌, ◌^◌, IfErr, IfOk, IfSome, is_some, slice_get};
    ghost use Rattle.std.specs.Option.{option_copied};
    ghost use Rattle.hy_join.specs.Keys.{partners};

    /// The right side of these rows. For want of memory it hands back what it was to be made of.
    pub(crate) fn new(
        alloc: Global,
        settings: Settings,
        sides: Sides,
        arg: JoinArg,
        rows: List<RowBuf>,
    ) -> Result<RightSide, (JoinArg, List<RowBuf>)>
        requires few { sides.left + sides.right ≤ 1024 }
        requires pairs { length arg.left ≡ length arg.right }
        requires reads { IsSound (sides.left + sides.right) arg.rest }
        requires fit { All (λ row. length row ≡ sides.right) rows }
        ensures made { IfOk result (λ side. (side.settings ≡ settings) × (side.sides ≡ sides) × (side.arg ≡ arg) × (side.rows ≡ rows)) }
        ensures back { IfErr result (λ back. (back.0 ≡ arg) × (back.1 ≡ rows)) }
    {
        if arg.right.is_empty() {
            return Ok(RightSide {
                settings,
                sides,
                arg,
                rows,
                index: None,
            });
        }
        match index_rows(alloc, arg.right.as_slice(), rows.as_slice()) {
            Ok(index) => Ok(RightSide {
                settings,
                sides,
                arg,
                rows,
                index: Some(index),
            }),
            Err(_) => Err((arg, rows)),
        }
    }

    /// The right row in a place among all.
    fn row(&self, at: usize) -> Option<&RowBuf>
        ensures row { option_copied result ≡ slice_get self.now.rows at }
        ensures wide { IfSome result (λ row. length row.now ≡ self.now.sides.right) }
        ensures room { IfSome result (λ row. at < 2 ^ 64 - 1) }
    {
        self.rows.as_slice().get(at)
    }

    /// The right row in a place among those that a left row of this hash may meet.
    #[tactic(auto, using(crate::proofs::RightLaws::right_laws))]
    pub(crate) fn partner(&self, hash: Option<u64>, place: usize) -> Option<&RowBuf>
        ensures row { option_copied result ≡ slice_get (partners (is_some self.now.index) self.now.arg.right hash self.now.rows) place }
        ensures wide { IfSome result (λ row. length row.now ≡ self.now.sides.right) }
        ensures room { IfSome result (λ row. place < 2 ^ 64 - 1) }
    {
        let Some(index) = &self.index else {
            return self.row(place);
        };
        match place_under(index, hash?, place) {
            Some(at) => self.row(at),
            None => None,
        }
    }
}

//! Whether a left and a right row are joined, and the row that comes of them.

ghost use Rattle.std.specs.Prelude.{◌≡◌, ◌≤◌, ◌+◌, ◌++◌, length, true, IfOk};
ghost use Rattle.al_func.specs.Rex.{IsSound};
ghost use Rattle.hy_driver.specs.Rows.{values_of};
ghost use Rattle.hy_frame.specs.Row.{IsRow};
ghost use Rattle.hy_job.specs.Columns as spec;

use crate::fields::{put_both, same_keys};
use crate::residual::rest_holds;
use al_value::NoMemory;
use hy_frame::{MAX_FIELDS, RowBuf, RowRef};
use hy_job::JoinArg;
use std::alloc::Global;

/// Whether two rows are joined. Where they are, their row is put in place of the one that is there.
#[tactic(auto, using(crate::proofs::PairLaws::pair_laws))]
pub(crate) fn put_pair(
    alloc: Global,
    arg: &JoinArg,
    left: &RowRef<'_>,
    right: &RowRef<'_>,
    out: &mut RowBuf,
) -> Result<bool, NoMemory>
    requires pairs { length arg.now.left ≡ length arg.now.right }
    requires reads { IsSound (length left.now + length right.now) arg.now.rest }
    requires few { length left.now + length right.now ≤ MAX_FIELDS }
    ensures pair { IfOk result (λ b. b ≡ spec.is_pair arg.now (values_of left.now) (values_of right.now)) }
    ensures row { IfOk result (λ b. b ≡ true → out.new ≡ left.now ++ right.now) }
    ensures fields { IfOk result (λ b. b ≡ true → IsRow (length left.now + length right.now) out.new) }
{
    if !same_keys(arg.left.as_slice(), arg.right.as_slice(), left, right) {
        return Ok(false);
    }
    put_both(left, right, out)?;
    rest_holds(alloc, &arg.rest, &out.as_row())
}

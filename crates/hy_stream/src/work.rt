//! What operators do with each row alone.

ghost use Rattle.std.specs.Prelude.{◌≡◌, ◌≤◌, ◌<◌, ◌+◌, true, length, IfOk, OnOk};
ghost use Rattle.al_func.specs.Rex.{IsSound};
ghost use Rattle.hy_driver.specs.Rows.{values_of};
ghost use Rattle.hy_job.specs.Columns as spec;
ghost use Rattle.hy_job.specs.Sound.{AreSound, inputs};
ghost use Rattle.hy_stream.specs.Work.{Checks, IsGiven, IsPassed, Reads, Works, arity_of, first_window, kind_of};

use al_func::Rex;
use al_value::{List, NoMemory, Text};
use hy_frame::{MAX_FIELDS, RowBuf, RowRef};
use hy_job::{assigned, holds};
use hy_rows::{copy_row, put_cut, put_row, values_in};
use hy_store::OpFault;
use std::alloc::Global;

/// What an operator that works on each row alone does with it, by its activity's kind.
#[derive(Drop)]
pub enum RowWork {
    Assign { made: List<Rex> },
    Select { cond: Rex },
    Project { columns: List<u32> },
    Check { name: Text, cond: Rex },
    Union { left: List<u32>, right: List<u32> },
    Limit { n: u64, k: u64 },
    LocalLimit { n: u64 },
    Result { columns: List<u32> },
}

/// How many rows a limit is still to skip, and then to give.
#[derive(Clone, Copy)]
pub struct Window {
    pub skip: u64,
    pub give: u64,
}

impl Window {
    /// That of a limit at its beginning, and none of other work.
    pub fn first(work: &RowWork) -> Window
        ensures { result ≡ first_window work.now }
    {
        match work {
            RowWork::Limit { n, k } => Window { skip: *k, give: *n },
            RowWork::LocalLimit { n } => Window { skip: 0, give: *n },
            RowWork::Assign { .. }
            | RowWork::Select { .. }
            | RowWork::Project { .. }
            | RowWork::Check { .. }
            | RowWork::Union { .. }
            | RowWork::Result { .. } => Window { skip: 0, give: 0 },
        }
    }
}

/// Works on a row, and tells whether one comes of it.
#[tactic(auto, using(crate::proofs::WorkLaws::work_laws))]
pub(crate) fn work_on(
    alloc: Global,
    work: &RowWork,
    window: &mut Window,
    input: u32,
    row: &RowRef<'_>,
    out: &mut RowBuf,
) -> Result<bool, OpFault>
    requires known { input < inputs (kind_of work.now) }
    requires reads { Reads work.now (length row.now) }
    requires few { arity_of work.now (length row.now) ≤ MAX_FIELDS }
    ensures told { Works work.now window.old input row.now window.new out.new result }
{
    match work {
        RowWork::Assign { made } => {
            put_assigned(alloc, made.as_slice(), row, out)?;
            Ok(true)
        }
        RowWork::Select { cond } => Ok(select_row(alloc, cond, row, out)?),
        RowWork::Project { columns } => {
            put_cut(columns.as_slice(), row, out)?;
            Ok(true)
        }
        RowWork::Check { name, cond } => check_row(alloc, name, cond, row, out),
        RowWork::Union { left, right } => {
            put_side(left.as_slice(), right.as_slice(), input, row, out)?;
            Ok(true)
        }
        RowWork::Limit { .. } => Ok(limit_row(window, row, out)?),
        RowWork::LocalLimit { .. } => Ok(give_row(&mut window.give, row, out)?),
        RowWork::Result { columns } => {
            put_cut(columns.as_slice(), row, out)?;
            Ok(true)
        }
    }
}

/// Puts the row with the values of the expressions behind it.
#[tactic(auto, using(hy_rows::proofs::RowLaws::row_laws))]
fn put_assigned(
    alloc: Global,
    made: &[Rex],
    row: &RowRef<'_>,
    out: &mut RowBuf,
) -> Result<(), NoMemory>
    requires reads { AreSound (length row.now) made.now }
    requires few { length row.now + length made.now ≤ MAX_FIELDS }
    ensures made { OnOk result (values_of out.new ≡ spec.assigned made.now (values_of row.now)) }
    ensures wide { OnOk result (length out.new ≡ length row.now + length made.now) }
{
    let values = values_in(alloc, row)?;
    let longer = assigned(alloc, made, values)?;
    put_row(alloc, longer.as_slice(), out)
}

/// The row, where the condition is TRUE over it.
#[tactic(auto, using(hy_rows::proofs::RowLaws::row_laws))]
fn select_row(
    alloc: Global,
    cond: &Rex,
    row: &RowRef<'_>,
    out: &mut RowBuf,
) -> Result<bool, NoMemory>
    requires reads { IsSound (length row.now) cond.now }
    requires few { length row.now ≤ MAX_FIELDS }
    ensures kept { IfOk result (λ kept. kept ≡ spec.holds cond.now (values_of row.now)) }
    ensures row { IfOk result (λ kept. kept ≡ true → out.new ≡ row.now) }
{
    let values = values_in(alloc, row)?;
    if !holds(alloc, cond, values.as_slice())? {
        return Ok(false);
    }
    copy_row(row, out)?;
    Ok(true)
}

/// The row, where the condition is TRUE over it, and else the fault of the check.
#[tactic(auto, using(crate::proofs::WorkLaws::check_fails))]
fn check_row(
    alloc: Global,
    name: &Text,
    cond: &Rex,
    row: &RowRef<'_>,
    out: &mut RowBuf,
) -> Result<bool, OpFault>
    requires reads { IsSound (length row.now) cond.now }
    requires few { length row.now ≤ MAX_FIELDS }
    ensures told { Checks name.now cond.now row.now out.new result }
{
    if select_row(alloc, cond, row, out)? {
        return Ok(true);
    }
    Err(OpFault::Check(name.copy(alloc)?))
}

/// Puts the columns of the side that the row comes from.
fn put_side(
    left: &[u32],
    right: &[u32],
    input: u32,
    row: &RowRef<'_>,
    out: &mut RowBuf,
) -> Result<(), NoMemory>
    requires left { length left.now ≤ MAX_FIELDS }
    requires right { length right.now ≤ MAX_FIELDS }
    ensures left { input ≡ 0 → OnOk result (values_of out.new ≡ spec.cut left.now (values_of row.now)) }
    ensures left_wide { input ≡ 0 → OnOk result (length out.new ≡ length left.now) }
    ensures right { 0 < input → OnOk result (values_of out.new ≡ spec.cut right.now (values_of row.now)) }
    ensures right_wide { 0 < input → OnOk result (length out.new ≡ length right.now) }
{
    if input == 0 {
        return put_cut(left, row, out);
    }
    put_cut(right, row, out)
}

/// The row, where enough were skipped and not enough given.
fn limit_row(window: &mut Window, row: &RowRef<'_>, out: &mut RowBuf) -> Result<bool, NoMemory>
    requires few { length row.now ≤ MAX_FIELDS }
    ensures window { IfOk result (λ kept. IsPassed window.old kept window.new) }
    ensures row { IfOk result (λ kept. kept ≡ true → out.new ≡ row.now) }
{
    if window.skip > 0 {
        window.skip -= 1;
        return Ok(false);
    }
    give_row(&mut window.give, row, out)
}

/// The row, where not enough were given.
fn give_row(give: &mut u64, row: &RowRef<'_>, out: &mut RowBuf) -> Result<bool, NoMemory>
    requires few { length row.now ≤ MAX_FIELDS }
    ensures give { IfOk result (λ kept. IsGiven give.old kept give.new) }
    ensures row { IfOk result (λ kept. kept ≡ true → out.new ≡ row.now) }
{
    if *give == 0 {
        return Ok(false);
    }
    *give -= 1;
    copy_row(row, out)?;
    Ok(true)
}

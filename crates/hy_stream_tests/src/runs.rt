//! A driver's run over small tables of ints, as a task would run it.
ghost use Rattle.std.specs.Prelude.{◌≡◌, ◌≢◌, true, false, length, IfOk, OnOk};
ghost use Rattle.hy_store.specs.declared.fault.Next.TheVariants.{NeedInput as WantsInput};
ghost use Rattle.hy_stream_tests.specs.Ready.{IsReady};

use al_value::{List, NoMemory, Row, Settings, Value};
use hy_driver::{Driver, Phase};
use hy_frame::{Bank, MAX_FIELDS, RowBuf};
use hy_rows::{put_row, values_in};
use hy_store::{Next, OpFault};
use std::alloc::Global;

pub(crate) const SETTINGS: Settings = Settings {
    partitions: 2,
    frame_size: 256,
    memory: 3,
};

/// The rows that are still to come at an input, all of one width, and whether it goes on.
#[derive(Drop)]
pub(crate) struct Table<'a> {
    pub(crate) rows: &'a [&'a [i64]],
    pub(crate) next: usize,
    pub(crate) goes_on: bool,
}

impl<'a> Table<'a> {
    pub(crate) fn of(rows: &'a [&'a [i64]]) -> Table<'a>
        ensures { result.goes_on ≡ true }
    {
        Table {
            rows,
            next: 0,
            goes_on: true,
        }
    }

    /// No input.
    pub(crate) fn none() -> Table<'a>
        ensures { result.goes_on ≡ false }
    {
        Table {
            rows: &[],
            next: 0,
            goes_on: false,
        }
    }

    /// The next row.
    fn take(&mut self, alloc: Global) -> Result<Option<RowBuf>, NoMemory>
        ensures { self.new.goes_on ≡ self.old.goes_on }
    {
        let next = self.next;
        if next >= self.rows.len() {
            return Ok(None);
        }
        self.next = next + 1;
        Ok(Some(row_of(alloc, self.rows[next])?))
    }
}

/// A row of ints.
pub(crate) fn row_of(alloc: Global, ints: &[i64]) -> Result<RowBuf, NoMemory> {
    let mut values = Row::new(alloc);
    for n in ints {
        values.push(Value::Int(*n))?;
    }
    let mut row = RowBuf::new(alloc);
    if values.len() <= MAX_FIELDS {
        put_row(alloc, values.as_slice(), &mut row)?;
    }
    Ok(row)
}

/// One turn, of which a row is kept.
#[tactic(auto, using(crate::proofs::ReadyLaws::ready_laws))]
fn turn<D: Driver>(
    alloc: Global,
    driver: &mut D,
    bank: &mut Bank,
    width: u32,
    left: bool,
    right: bool,
    given: &mut List<Row>,
) -> Result<Next, OpFault>
    requires { IsReady width left right (D.seen driver.old) bank.old }
    ensures ready { OnOk result (IsReady width left right (D.seen driver.new) bank.new) }
    ensures hungry { IfOk result (λ next. next ≡ WantsInput → (D.seen driver.new).phase ≡ Phase.Hungry) }
{
    let mut out = RowBuf::new(alloc);
    match driver.next(bank, &mut out)? {
        Next::Row => {
            given.push(values_in(alloc, &out.as_row())?)?;
            Ok(Next::Row)
        }
        Next::Work => Ok(Next::Work),
        Next::NeedInput => Ok(Next::NeedInput),
        Next::End => Ok(Next::End),
    }
}

/// Takes the next row of the first input, or ends it.
#[tactic(auto, using(crate::proofs::ReadyLaws::ready_laws))]
fn supply_left<D: Driver>(
    alloc: Global,
    driver: &mut D,
    bank: &mut Bank,
    width: u32,
    left: &mut Table<'_>,
    right: bool,
) -> Result<(), OpFault>
    requires ready { IsReady width left.old.goes_on right (D.seen driver.old) bank.old }
    requires hungry { (D.seen driver.old).phase ≡ Phase.Hungry }
    requires to_come { left.old.goes_on ≡ true }
    ensures { OnOk result (IsReady width left.new.goes_on right (D.seen driver.new) bank.new) }
{
    let Some(row) = left.take(alloc)? else {
        left.goes_on = false;
        return driver.end(bank, 0);
    };
    if row.len() != width as usize {
        return Err(OpFault::Store);
    }
    driver.feed(bank, 0, row.as_row())
}

/// Takes the next row of the second input, or ends it.
#[tactic(auto, using(crate::proofs::ReadyLaws::ready_laws))]
fn supply_right<D: Driver>(
    alloc: Global,
    driver: &mut D,
    bank: &mut Bank,
    width: u32,
    left: bool,
    right: &mut Table<'_>,
) -> Result<(), OpFault>
    requires ready { IsReady width left right.old.goes_on (D.seen driver.old) bank.old }
    requires hungry { (D.seen driver.old).phase ≡ Phase.Hungry }
    requires to_come { right.old.goes_on ≡ true }
    ensures { OnOk result (IsReady width left right.new.goes_on (D.seen driver.new) bank.new) }
{
    let Some(row) = right.take(alloc)? else {
        right.goes_on = false;
        return driver.end(bank, 1);
    };
    if row.len() != width as usize {
        return Err(OpFault::Store);
    }
    driver.feed(bank, 1, row.as_row())
}

/// One turn, and where input is wanted the next row of an input that goes on. It tells whether the
/// driver goes on too.
fn step<D: Driver>(
    alloc: Global,
    driver: &mut D,
    bank: &mut Bank,
    width: u32,
    left: &mut Table<'_>,
    right: &mut Table<'_>,
    given: &mut List<Row>,
) -> Result<bool, OpFault>
    requires { IsReady width left.old.goes_on right.old.goes_on (D.seen driver.old) bank.old }
    ensures { OnOk result (IsReady width left.new.goes_on right.new.goes_on (D.seen driver.new) bank.new) }
{
    match turn(
        alloc,
        driver,
        bank,
        width,
        left.goes_on,
        right.goes_on,
        given,
    )? {
        Next::Row | Next::Work => Ok(true),
        Next::NeedInput => {
            if left.goes_on {
                supply_left(alloc, driver, bank, width, left, right.goes_on)?;
                return Ok(true);
            }
            if right.goes_on {
                supply_right(alloc, driver, bank, width, left.goes_on, right)?;
                return Ok(true);
            }
            Err(OpFault::Store)
        }
        Next::End => Ok(false),
    }
}

/// All that a driver gives over its inputs. A driver that goes on for too long, or asks for input
/// that has ended, is told as a fault of the store that it lacks.
pub(crate) fn run<D: Driver>(
    alloc: Global,
    driver: &mut D,
    bank: &mut Bank,
    width: u32,
    left: Table<'_>,
    right: Table<'_>,
) -> Result<List<Row>, OpFault>
    requires { IsReady width left.goes_on right.goes_on (D.seen driver.old) bank.old }
{
    let mut left = left;
    let mut right = right;
    let mut given = List::new(alloc);
    for _ in 0..100u32 {
        if !step(
            alloc, driver, bank, width, &mut left, &mut right, &mut given,
        )? {
            return Ok(given);
        }
    }
    Err(OpFault::Store)
}

/// Whether rows are rows of these ints.
pub(crate) fn are_ints(rows: &[Row], wanted: &[&[i64]]) -> bool {
    if rows.len() != wanted.len() {
        return false;
    }
    for i in 0..rows.len() {
        if !is_of_ints(rows[i].as_slice(), wanted[i]) {
            return false;
        }
    }
    true
}

fn is_of_ints(row: &[Value], wanted: &[i64]) -> bool {
    if row.len() != wanted.len() {
        return false;
    }
    for j in 0..row.len() {
        if row[j] != Value::Int(wanted[j]) {
            return false;
        }
    }
    true
}

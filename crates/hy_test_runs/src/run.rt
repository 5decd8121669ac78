//! A driver that is asked, fed and asked again until it has ended.
ghost use Rattle.std.specs.Prelude.{◌≡◌, true, false, IfOk, OnOk};
ghost use Rattle.hy_driver.specs.Steps.{IsBankOf};
ghost use Rattle.hy_store.specs.declared.fault.Next.TheVariants.{NeedInput as WantsInput, End as HasEnded};
ghost use Rattle.hy_test_runs.specs.Ready.{IsReady};

use al_value::{List, NoMemory, Row};
use hy_driver::{Driver, Phase};
use hy_frame::{Bank, MAX_FIELDS, RowBuf};
use hy_rows::{put_row, values_in};
use hy_store::{Next, OpFault};
use std::alloc::Global;

/// Where the rows of an input come from.
pub trait Source: Drop {
    /// The next row, if there is one.
    fn next_row(&mut self, alloc: Global) -> Result<Option<RowBuf>, NoMemory>;
}

/// Where the rows go that a driver gives.
pub trait Sink {
    /// Takes a row.
    fn put(&mut self, alloc: Global, row: &RowBuf) -> Result<(), NoMemory>;
}

/// Rows of values that stand in a list.
#[derive(Drop)]
pub struct Table<'a> {
    rows: &'a [Row],
    next: usize,
}

impl<'a> Table<'a> {
    pub fn of(rows: &'a [Row]) -> Table<'a> {
        Table { rows, next: 0 }
    }
}

impl<'a> Source for Table<'a> {
    fn next_row(&mut self, alloc: Global) -> Result<Option<RowBuf>, NoMemory> {
        let next = self.next;
        if next >= self.rows.len() {
            return Ok(None);
        }
        self.next = next + 1;
        Ok(Some(fields_of(alloc, &self.rows[next])?))
    }
}

/// The fields of a row, and none where it is too long for a row of fields.
fn fields_of(alloc: Global, row: &Row) -> Result<RowBuf, NoMemory> {
    let mut fields = RowBuf::new(alloc);
    if row.len() <= MAX_FIELDS {
        put_row(alloc, row.as_slice(), &mut fields)?;
    }
    Ok(fields)
}

impl Sink for List<Row> {
    fn put(&mut self, alloc: Global, row: &RowBuf) -> Result<(), NoMemory> {
        self.push(values_in(alloc, &row.as_row())?)
    }
}

/// The input of a driver: the rows that are still to come, and whether it goes on.
#[derive(Drop)]
pub struct Input<S: Source> {
    pub(crate) rows: S,
    pub(crate) goes_on: bool,
}

impl<S: Source> Input<S> {
    /// One that goes on.
    pub fn of(rows: S) -> Input<S>
        ensures { result.goes_on ≡ true }
    {
        Input {
            rows,
            goes_on: true,
        }
    }

    /// One that has ended.
    pub fn ended(rows: S) -> Input<S>
        ensures { result.goes_on ≡ false }
    {
        Input {
            rows,
            goes_on: false,
        }
    }
}

/// One turn. A row that was given goes into the sink.
#[tactic(auto, using(crate::proofs::ReadyLaws::ready_laws))]
fn turn<D: Driver, K: Sink>(
    alloc: Global,
    driver: &mut D,
    bank: &mut Bank,
    width: u32,
    goes_on: bool,
    sink: &mut K,
) -> Result<Next, OpFault>
    requires { IsReady width goes_on (D.seen driver.old) bank.old }
    ensures ready { OnOk result (IsReady width goes_on (D.seen driver.new) bank.new) }
    ensures hungry { IfOk result (λ next. next ≡ WantsInput → (D.seen driver.new).phase ≡ Phase.Hungry) }
    ensures over { IfOk result (λ next. next ≡ HasEnded → (D.seen driver.new).phase ≡ Phase.Ended) }
{
    let mut out = RowBuf::new(alloc);
    match driver.next(bank, &mut out)? {
        Next::Row => {
            sink.put(alloc, &out)?;
            Ok(Next::Row)
        }
        Next::Work => Ok(Next::Work),
        Next::NeedInput => Ok(Next::NeedInput),
        Next::End => Ok(Next::End),
    }
}

/// Feeds the next row of the input, or ends it. A row of another width is told as a fault of the
/// store.
#[tactic(auto, using(crate::proofs::ReadyLaws::ready_laws))]
fn supply<D: Driver, S: Source>(
    alloc: Global,
    driver: &mut D,
    bank: &mut Bank,
    width: u32,
    input: &mut Input<S>,
) -> Result<(), OpFault>
    requires ready { IsReady width input.old.goes_on (D.seen driver.old) bank.old }
    requires hungry { (D.seen driver.old).phase ≡ Phase.Hungry }
    requires to_come { input.old.goes_on ≡ true }
    ensures { OnOk result (IsReady width input.new.goes_on (D.seen driver.new) bank.new) }
{
    let Some(row) = input.rows.next_row(alloc)? else {
        input.goes_on = false;
        return driver.end(bank, 0);
    };
    if row.len() != width as usize {
        return Err(OpFault::Store);
    }
    driver.feed(bank, 0, row.as_row())
}

/// One turn, and where input is wanted its next row. It tells whether the driver goes on.
fn step<D: Driver, S: Source, K: Sink>(
    alloc: Global,
    driver: &mut D,
    bank: &mut Bank,
    width: u32,
    input: &mut Input<S>,
    sink: &mut K,
) -> Result<bool, OpFault>
    requires { IsReady width input.old.goes_on (D.seen driver.old) bank.old }
    ensures ready { OnOk result (IsReady width input.new.goes_on (D.seen driver.new) bank.new) }
    ensures over { IfOk result (λ more. more ≡ false → (D.seen driver.new).phase ≡ Phase.Ended) }
{
    match turn(alloc, driver, bank, width, input.goes_on, sink)? {
        Next::Row | Next::Work => Ok(true),
        Next::NeedInput => {
            if input.goes_on {
                supply(alloc, driver, bank, width, input)?;
                return Ok(true);
            }
            Err(OpFault::Store)
        }
        Next::End => Ok(false),
    }
}

/// Runs a driver over rows of so many values to its end. One that does not end after so many turns,
/// or asks for input that has ended, is told as a fault of the store.
pub(crate) fn run_to_end<D: Driver, S: Source, K: Sink>(
    alloc: Global,
    driver: &mut D,
    bank: &mut Bank,
    width: u32,
    input: Input<S>,
    sink: &mut K,
    turns: u64,
) -> Result<(), OpFault>
    requires { IsReady width input.goes_on (D.seen driver.old) bank.old }
    ensures bank { OnOk result (IsBankOf (D.seen driver.new) bank.new) }
    ensures over { OnOk result ((D.seen driver.new).phase ≡ Phase.Ended) }
{
    let mut input = input;
    for _ in 0..turns {
        if !step(alloc, driver, bank, width, &mut input, sink)? {
            return Ok(());
        }
    }
    Err(OpFault::Store)
}

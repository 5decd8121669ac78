//! A table's rows, again and again.
ghost use Rattle.std.specs.Prelude.{◌≡◌, ◌<◌, [], ◌∷◌, length, All, IfOk, OnOk};
ghost use Rattle.al_func.specs.Rex.{IsSound};
ghost use Rattle.hy_job.specs.Sound.{HasArity, IsInRange, inputs};
ghost use Rattle.hy_stream.specs.Stream.{stream_seen, widths_of};
ghost use Rattle.hy_stream.specs.Work.{kind_of};
ghost use Rattle.stream_rates.specs.Ready.{IsOpen, IsReady};

use al_func::{Func, Rex};
use al_value::{List, NoMemory, Row, Settings, Value};
use hy_driver::{Driver, Phase};
use hy_frame::{Bank, RowBuf};
use hy_store::{Next, OpFault};
use hy_stream::{RowWork, Scan, Shape, Stream};
use std::alloc::Global;

const SETTINGS: Settings = Settings {
    partitions: 1,
    frame_size: 32768,
    memory: 3,
};

/// How many rows the table has.
const TABLE: u64 = 1000;

/// Rows of two ints, from 0 on and from 0 on.
fn table(alloc: Global) -> Result<List<Row>, NoMemory>
    ensures { IfOk result (λ rows. All (λ row. length row ≡ 2) rows) }
{
    let mut rows = List::new(alloc);
    for i in 0..TABLE {
        let mut row = Row::new(alloc);
        row.push(Value::Int(i.cast_signed()))?;
        row.push(Value::Int(i.cast_signed()))?;
        rows.push(row)?;
    }
    Ok(rows)
}

/// It asks for input.
#[tactic(auto, using(crate::proofs::ReadyLaws::ready_laws))]
fn asks<D: Driver>(driver: &mut D, bank: &mut Bank, out: &mut RowBuf) -> Result<(), OpFault>
    requires { IsOpen (D.seen driver.old) bank.old }
    ensures ready { OnOk result (IsOpen (D.seen driver.new) bank.new) }
    ensures phase { OnOk result ((D.seen driver.new).phase ≡ Phase.Hungry) }
{
    match driver.next(bank, out)? {
        Next::NeedInput => Ok(()),
        _ => Err(OpFault::Store),
    }
}

/// It takes a row, and tells whether it gave one.
#[tactic(auto, using(crate::proofs::ReadyLaws::ready_laws))]
fn takes<D: Driver>(
    driver: &mut D,
    bank: &mut Bank,
    row: &RowBuf,
    out: &mut RowBuf,
) -> Result<bool, OpFault>
    requires ready { IsOpen (D.seen driver.old) bank.old }
    requires hungry { (D.seen driver.old).phase ≡ Phase.Hungry }
    requires wide { length row.now ≡ 2 }
    ensures { OnOk result (IsOpen (D.seen driver.new) bank.new) }
{
    driver.feed(bank, 0, row.as_row())?;
    match driver.next(bank, out)? {
        Next::Row => Ok(true),
        Next::Work | Next::NeedInput | Next::End => Ok(false),
    }
}

/// A row goes through a driver that asks for it and for the one behind it.
fn passes<D: Driver>(
    driver: &mut D,
    bank: &mut Bank,
    row: &RowBuf,
    out: &mut RowBuf,
) -> Result<bool, OpFault>
    requires { IsOpen (D.seen driver.old) bank.old }
    ensures { OnOk result (IsOpen (D.seen driver.new) bank.new) }
{
    if row.len() != 2 {
        return Err(OpFault::Store);
    }
    asks(driver, bank, out)?;
    takes(driver, bank, row, out)
}

/// The scan's next row, if there is one.
#[tactic(auto, using(crate::proofs::ReadyLaws::ready_laws))]
fn gives<D: Driver>(driver: &mut D, bank: &mut Bank, out: &mut RowBuf) -> Result<bool, OpFault>
    requires { IsReady (D.seen driver.old) bank.old }
    ensures { OnOk result (IsReady (D.seen driver.new) bank.new) }
{
    match driver.next(bank, out)? {
        Next::Row => Ok(true),
        Next::Work | Next::NeedInput | Next::End => Ok(false),
    }
}

/// A driver of this work over rows of two values, with its bank.
fn driver(alloc: Global, work: RowWork) -> (Stream, Bank)
    requires in_range { IsInRange (kind_of work) (widths_of (record { width = 2; right_width = 2; arity = 2 })) }
    requires arity { HasArity (kind_of work) (widths_of (record { width = 2; right_width = 2; arity = 2 })) 2 }
    requires one { 0 < inputs (kind_of work) }
    ensures { IsOpen (stream_seen result.0) result.1 }
{
    let shape = Shape {
        width: 2,
        right_width: 2,
        arity: 2,
    };
    let driver = Stream::new(alloc, SETTINGS, 0, shape, work);
    (driver, Bank::new(32768, 8))
}

/// Whether the first of two values is less than half of the table.
#[tactic(auto, using(al_func::proofs::RexLaws::is_sound_laws))]
fn lower_half(alloc: Global) -> Result<Rex, NoMemory>
    ensures { IfOk result (λ e. IsSound 2 e) }
{
    let mut args = List::new(alloc);
    args.push(Rex::Col(0))?;
    args.push(Rex::Lit(Value::Int(500)))?;
    Ok(Rex::Call(Func::Lt, args))
}

/// Both columns.
fn columns(alloc: Global) -> Result<List<u32>, NoMemory>
    ensures { IfOk result (λ columns. columns ≡ 1 ∷ 0 ∷ []) }
{
    let mut columns = List::new(alloc);
    columns.push(1)?;
    columns.push(0)?;
    Ok(columns)
}

/// A row goes through two drivers, one behind the other.
fn both_pass<D: Driver>(
    first: &mut D,
    first_bank: &mut Bank,
    second: &mut D,
    second_bank: &mut Bank,
    row: &RowBuf,
    kept: &mut RowBuf,
    given: &mut RowBuf,
) -> Result<bool, OpFault>
    requires first { IsOpen (D.seen first.old) first_bank.old }
    requires second { IsOpen (D.seen second.old) second_bank.old }
    ensures first { OnOk result (IsOpen (D.seen first.new) first_bank.new) }
    ensures second { OnOk result (IsOpen (D.seen second.new) second_bank.new) }
{
    if !passes(first, first_bank, row, kept)? {
        return Ok(false);
    }
    passes(second, second_bank, kept, given)
}

/// Gives all rows of a scan to two drivers, one behind the other, and counts what comes out.
fn scan_through<D: Driver>(
    alloc: Global,
    rows: &[Row],
    first: &mut D,
    first_bank: &mut Bank,
    second: &mut D,
    second_bank: &mut Bank,
) -> Result<u64, OpFault>
    requires rows { All (λ row. length row ≡ 2) rows.now }
    requires first { IsOpen (D.seen first.old) first_bank.old }
    requires second { IsOpen (D.seen second.old) second_bank.old }
    ensures first { OnOk result (IsOpen (D.seen first.new) first_bank.new) }
    ensures second { OnOk result (IsOpen (D.seen second.new) second_bank.new) }
{
    let mut scan = Scan::new(alloc, SETTINGS, 0, 2, rows);
    let mut bank = Bank::new(32768, 8);
    let mut row = RowBuf::new(alloc);
    let mut kept = RowBuf::new(alloc);
    let mut given = RowBuf::new(alloc);
    let mut count = 0u64;
    for _ in 0..TABLE {
        if !gives(&mut scan, &mut bank, &mut row)? {
            return Ok(count);
        }
        if both_pass(
            first,
            first_bank,
            second,
            second_bank,
            &row,
            &mut kept,
            &mut given,
        )? {
            count = count.saturating_add(1);
        }
    }
    Ok(count)
}

/// Scans the table until as many rows were scanned, or a few less, and counts what comes out.
pub(crate) fn counted(alloc: Global, rows: u64) -> Result<u64, OpFault> {
    let table = table(alloc)?;
    let cond = lower_half(alloc)?;
    let columns = columns(alloc)?;
    let (mut select, mut select_bank) = driver(alloc, RowWork::Select { cond });
    let (mut last, mut last_bank) = driver(alloc, RowWork::Result { columns });
    let mut count = 0u64;
    for _ in 0..rows / TABLE {
        let more = scan_through(
            alloc,
            table.as_slice(),
            &mut select,
            &mut select_bank,
            &mut last,
            &mut last_bank,
        )?;
        count = count.saturating_add(more);
    }
    Ok(count)
}

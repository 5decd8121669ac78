//! A row of an int and a text, again and again.
ghost use Rattle.std.specs.Prelude.{◌≡◌, length, IfOk};
ghost use Rattle.hy_frame.specs.Row.{row_size};
ghost use Rattle.hy_frame.specs.FrameText.{IsLeast};

use hy_frame::{Append, Bank, Frame, NoMemory, RowBuf, is_field, parse_frame};
use std::alloc::Global;

/// The size of a frame.
const UNIT: usize = 32768;

const INT: &[u8] = b"\x03\x80\x00\x00\x00\x00\x00\x00\x01";

const TEXT: &[u8] = b"\x04tag of a row";

/// A row of an int and a text, or of what of them is a field.
fn row(alloc: Global) -> Result<RowBuf, NoMemory> {
    let mut row = RowBuf::new(alloc);
    if is_field(INT) {
        row.push_field(INT)?;
    }
    if is_field(TEXT) && row.len() == 1 {
        row.push_field(TEXT)?;
    }
    Ok(row)
}

/// Appends a row to the frame that was made for it.
fn append(frame: &mut Frame, row: &RowBuf) -> Append
    requires arity { length row.now ≡ frame.old.arity }
    requires size { IsLeast frame.old.unit (row_size row.now) frame.old.size }
    ensures same { (frame.new.arity ≡ frame.old.arity) × (frame.new.unit ≡ frame.old.unit) × (frame.new.size ≡ frame.old.size) }
{
    frame.append(row)
}

/// Appends a row again and again, to an empty frame after each full one, and counts the full ones.
fn append_rows(frame: &mut Frame, row: &RowBuf, rows: u64) -> u64
    requires arity { length row.now ≡ frame.old.arity }
    requires size { IsLeast frame.old.unit (row_size row.now) frame.old.size }
{
    let mut full = 0u64;
    for _ in 0..rows {
        if append(frame, row) == Append::NoRoom {
            full = full.saturating_add(1);
            frame.clear();
            append(frame, row);
        }
    }
    full
}

/// Appends a row until there is no room.
fn fill(frame: &mut Frame, row: &RowBuf)
    requires arity { length row.now ≡ frame.old.arity }
    requires size { IsLeast frame.old.unit (row_size row.now) frame.old.size }
    ensures same { (frame.new.arity ≡ frame.old.arity) × (frame.new.unit ≡ frame.old.unit) × (frame.new.size ≡ frame.old.size) }
{
    for _ in 0..UNIT {
        if append(frame, row) == Append::NoRoom {
            return;
        }
    }
}

/// Reads each field of a frame's rows, round and round, and adds up the fields' lengths.
fn read_rows(frame: &Frame, rows: u64) -> u64 {
    let mut read = 0u64;
    let mut left = rows;
    for _ in 0..rows {
        for i in 0..frame.rows() {
            if left == 0 {
                return read;
            }
            let row = frame.row(i);
            for j in 0..row.len() {
                read = read.saturating_add(row.field(j).len() as u64);
            }
            left -= 1;
        }
    }
    read
}

/// Parses a frame's bytes until as many rows came, and adds them up.
fn parse_rows(frame: &Frame, rows: u64) -> u64 {
    let mut parsed = 0u64;
    for _ in 0..rows {
        if parsed >= rows {
            return parsed;
        }
        if let Ok(count) = parse_frame(frame.arity(), UNIT, frame.bytes()) {
            parsed = parsed.saturating_add(count as u64);
        }
    }
    parsed
}

/// Does this work, and gives what it counted.
pub(crate) fn counted(alloc: Global, work: &str, rows: u64) -> Result<u64, NoMemory> {
    let row = row(alloc)?;
    let mut bank = Bank::new(UNIT, 1);
    let mut frame = bank.take(alloc, row.len(), row.size())?;
    fill(&mut frame, &row);
    let counted = match work {
        "append" => append_rows(&mut frame, &row, rows),
        "read" => read_rows(&frame, rows),
        "parse" => parse_rows(&frame, rows),
        _ => 0,
    };
    bank.give(frame);
    Ok(counted)
}

//! A table's rows, frame by frame, over a hash wire of four receivers, again and again.
ghost use Rattle.std.specs.Prelude.{◌≡◌, ◌<◌, IfOk, OnOk};
ghost use Rattle.hy_frame.specs.declared.writer.WriterState.{WriterState};
ghost use Rattle.hy_connect.specs.Routes.{HasColumns};
ghost use Rattle.hy_connect.specs.Takers.{ComesAsPut};
ghost use Rattle.hy_wire_runs.specs.Lines.{IsLine, IsWriting};

use al_value::{List, NoMemory, Value};
use hy_frame::{RowBuf, RowRef};
use hy_job::Wire;
use hy_rows::put_row;
use hy_wire_runs::{Line, Sink, WireFault, line_into, new_desk, read, reader_of};
use std::alloc::Global;

/// The size of a frame.
const FRAME: usize = 32768;

/// How many rows are written as one frame, and how many frames in a round: with those that a round fills for each receiver
/// there is room in its mailbox.
const ROWS: u64 = 1000;

const FRAMES: u64 = 40;

/// Rows of two ints, from 0 on and from 0 on.
fn table(alloc: Global) -> Result<Vec<RowBuf>, NoMemory> {
    let mut rows = Vec::new(alloc);
    for i in 0..ROWS {
        let values = [Value::Int(i.cast_signed()), Value::Int(i.cast_signed())];
        let mut row = RowBuf::new(alloc);
        put_row(alloc, &values, &mut row)?;
        rows.push(row)?;
    }
    Ok(rows)
}

/// A wire that splits by the first of two fields.
fn by_hash(alloc: Global) -> Result<Wire, NoMemory>
    ensures columns { IfOk result (HasColumns 2) }
    ensures as_put { IfOk result ComesAsPut }
{
    let mut columns = List::new(alloc);
    columns.push(0)?;
    Ok(Wire::Hash(columns))
}

/// A writer that has written a round's frames, and closed.
fn sent(alloc: Global, wire: &Wire, rows: &[RowBuf]) -> Result<Line, WireFault>
    requires { HasColumns 2 wire.now }
    ensures { IfOk result IsLine }
{
    let mut line = line_into(alloc, new_desk(alloc)?, wire, 0, 4, FRAME)?;
    for _ in 0..FRAMES {
        line.write(alloc, rows)?;
    }
    line.close();
    line.put(u32::MAX)?;
    Ok(line)
}

/// How many rows came.
#[derive(Drop)]
struct Count {
    rows: u64,
}

impl Sink for Count {
    fn put(&mut self, _alloc: Global, _row: &RowRef<'_>) -> Result<(), WireFault> {
        self.rows = self.rows.saturating_add(1);
        Ok(())
    }
}

/// How many rows come to a receiver.
fn rows_of(alloc: Global, wire: &Wire, line: &mut Line, receiver: u32) -> Result<u64, WireFault>
    requires wire { ComesAsPut wire.now }
    requires line { IsLine line.old }
    requires there { receiver < 4 }
    ensures { OnOk result (IsLine line.new) }
{
    let mut reader = reader_of(alloc, wire, receiver, FRAME)?;
    let mut count = Count { rows: 0 };
    read(alloc, line, &mut reader, &mut count)?;
    Ok(count.rows)
}

/// How many rows of a round come to each receiver.
fn round(alloc: Global, wire: &Wire, rows: &[RowBuf]) -> Result<[u64; 4], WireFault>
    requires columns { HasColumns 2 wire.now }
    requires wire { ComesAsPut wire.now }
{
    let mut line = sent(alloc, wire, rows)?;
    Ok([
        rows_of(alloc, wire, &mut line, 0)?,
        rows_of(alloc, wire, &mut line, 1)?,
        rows_of(alloc, wire, &mut line, 2)?,
        rows_of(alloc, wire, &mut line, 3)?,
    ])
}

/// How many rows of so many rounds come to each receiver.
pub(crate) fn counted(alloc: Global, rounds: u64) -> Result<[u64; 4], WireFault> {
    let wire = by_hash(alloc)?;
    let rows = table(alloc)?;
    let [mut a, mut b, mut c, mut d] = [0u64; 4];
    for _ in 0..rounds {
        let came = round(alloc, &wire, &rows)?;
        a = a.saturating_add(came[0]);
        b = b.saturating_add(came[1]);
        c = c.saturating_add(came[2]);
        d = d.saturating_add(came[3]);
    }
    Ok([a, b, c, d])
}

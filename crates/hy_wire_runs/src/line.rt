//! A wire's writer, from its Open to its Close.
ghost use Rattle.std.specs.Prelude.{◌≡◌, ◌<◌, ◌≤◌, ◌+◌, ◌⊎◌, [], ◌∷◌, IfOk, OnOk, length, map};
ghost use Rattle.hy_frame.specs.declared.writer.WriterState.{WriterState};
ghost use Rattle.hy_mail.specs.Desks.{word_of};
ghost use Rattle.hy_connect.specs.Routes.{HasColumns};
ghost use Rattle.hy_connect.specs.Writers.{IsAsFar, IsIdle, Writes};
ghost use Rattle.hy_connect.specs.declared.writer.Offer.{Offer};
ghost use Rattle.hy_driver.specs.Rows.{values_of};
ghost use Rattle.hy_wire_runs.specs.Desks.{AreFree, IsDesk};
ghost use Rattle.hy_wire_runs.specs.Lines.{AreNumbers, IsLine, IsNewLine, IsWriting, IsWritingWith};

use crate::fault::WireFault;
use crate::frames::{frame_alone, frame_of};
use hy_connect::{Offer, WireWriter};
use hy_frame::{Bank, Frame, FrameWriter, RowBuf};
use hy_job::Wire;
use hy_mail::Desk;
use std::alloc::Global;

/// How many frames of a writer may be out.
const FRAMES: usize = 20;

/// A writer over a wire, with its bank, and the mailboxes: its own are those from the first one on, before the one behind.
#[derive(Drop)]
pub struct Line {
    pub(crate) first: u32,
    pub(crate) behind: u32,
    pub(crate) writer: WireWriter,
    pub(crate) bank: Bank,
    pub(crate) desk: Desk,
}

/// A writer of rows of two fields to these mailboxes.
#[tactic(auto, using(crate::proofs::LineRuns::numbers_differ, crate::proofs::LineRuns::new_line))]
fn writer_over(
    alloc: Global,
    wire: &Wire,
    first: u32,
    boxes: &[u32],
    unit: usize,
) -> Result<WireWriter, WireFault>
    requires columns { HasColumns 2 wire.now }
    requires numbers { AreNumbers first boxes.now }
    requires some { 0 < length boxes.now }
    requires few { first + length boxes.now ≤ 4 }
    ensures { IfOk result (IsNewLine first (length boxes.now) unit) }
{
    Ok(WireWriter::new(alloc, wire, boxes, unit, 2)?)
}

/// A writer to so many mailboxes from the first one on.
#[tactic(auto, using(crate::proofs::LineRuns::to_one, crate::proofs::LineRuns::to_two, crate::proofs::LineRuns::to_three, crate::proofs::LineRuns::to_four))]
fn writer_to(
    alloc: Global,
    wire: &Wire,
    first: u32,
    count: u32,
    unit: usize,
) -> Result<WireWriter, WireFault>
    requires columns { HasColumns 2 wire.now }
    requires few { first + count ≤ 4 }
    ensures { IfOk result (IsNewLine first count unit) }
{
    match count {
        1 => writer_over(alloc, wire, first, &[first], unit),
        2 => writer_over(alloc, wire, first, &[first, first + 1], unit),
        3 => writer_over(alloc, wire, first, &[first, first + 1, first + 2], unit),
        4 => writer_over(
            alloc,
            wire,
            first,
            &[first, first + 1, first + 2, first + 3],
            unit,
        ),
        _ => Err(WireFault::Unexpected),
    }
}

/// A writer that has begun, to so many mailboxes from the first one on. Its rows have two fields.
pub fn line_into(
    alloc: Global,
    desk: Desk,
    wire: &Wire,
    first: u32,
    count: u32,
    unit: usize,
) -> Result<Line, WireFault>
    requires desk { IsDesk desk }
    requires free { AreFree first desk }
    requires columns { HasColumns 2 wire.now }
    requires few { first + count ≤ 4 }
    requires unit { (256 ≤ unit) × (unit ≤ 65536) }
    ensures line { IfOk result IsWriting }
    ensures opened { IfOk result (λ line. line.writer.state ≡ WriterState.Opened) }
    ensures own { IfOk result (λ line. (line.first ≡ first) × (line.behind ≡ first + count)) }
{
    let mut writer = writer_to(alloc, wire, first, count, unit)?;
    writer.open();
    Ok(Line {
        first,
        behind: first + count,
        writer,
        bank: Bank::new(unit, FRAMES),
        desk,
    })
}

impl Line {
    /// Writes a frame of these rows.
    pub fn write(&mut self, alloc: Global, rows: &[RowBuf]) -> Result<(), WireFault>
        requires line { IsWriting self.old }
        requires opened { self.old.writer.state ≡ WriterState.Opened }
        ensures line { OnOk result (IsWriting self.new) }
        ensures opened { OnOk result (self.new.writer.state ≡ WriterState.Opened) }
        ensures written { OnOk result (Writes self.old.writer (map values_of rows.now) self.new.writer) }
    {
        let frame = frame_of(alloc, &mut self.bank, rows)?;
        self.write_frame(frame)
    }

    /// Writes a frame of one row, which may be longer than a frame.
    pub fn write_alone(&mut self, alloc: Global, row: &RowBuf) -> Result<(), WireFault>
        requires line { IsWriting self.old }
        requires opened { self.old.writer.state ≡ WriterState.Opened }
        ensures line { OnOk result (IsWriting self.new) }
        ensures opened { OnOk result (self.new.writer.state ≡ WriterState.Opened) }
        ensures written { OnOk result (Writes self.old.writer (values_of row.now ∷ []) self.new.writer) }
    {
        let frame = frame_alone(alloc, &mut self.bank, row)?;
        self.write_frame(frame)
    }

    fn write_frame(&mut self, frame: Frame) -> Result<(), WireFault>
        requires line { IsWritingWith 1 self.old }
        requires opened { self.old.writer.state ≡ WriterState.Opened }
        requires frame { (frame.arity ≡ 2) × (frame.unit ≡ self.old.bank.unit) }
        ensures line { OnOk result (IsWriting self.new) }
        ensures opened { OnOk result (self.new.writer.state ≡ WriterState.Opened) }
        ensures written { OnOk result (Writes self.old.writer (map values_of frame.rows) self.new.writer) }
    {
        match self.writer.next_frame(&mut self.bank, frame) {
            Ok(()) => Ok(()),
            Err(_) => Err(WireFault::NoMemory),
        }
    }

    /// Tells each receiver of a failure.
    pub fn fail(&mut self)
        requires line { IsWriting self.old }
        requires opened { self.old.writer.state ≡ WriterState.Opened }
        ensures line { IsWriting self.new }
        ensures failed { self.new.writer.state ≡ WriterState.Failed }
    {
        self.writer.fail(&mut self.bank);
    }

    /// Ends the rows of each receiver.
    pub fn close(&mut self)
        requires line { IsWriting self.old }
        requires begun { (self.old.writer.state ≡ WriterState.Opened) ⊎ (self.old.writer.state ≡ WriterState.Failed) }
        ensures line { IsLine self.new }
        ensures out { self.new.bank.out ≡ 0 }
    {
        self.writer.close(&mut self.bank);
    }

    /// Puts what waits, but no more than so many parcels, and gives how many these were. A full mailbox is told as a fault.
    pub fn put(&mut self, most: u32) -> Result<u32, WireFault>
        requires { IsLine self.old }
        ensures line { OnOk result (IsLine self.new) }
        ensures all { IfOk result (λ put. put < most → IsIdle self.new.writer) }
    {
        for put in 0..most {
            match self.offer() {
                Offer::Put => {}
                Offer::Nothing => return Ok(put),
                Offer::Full => return Err(WireFault::Unexpected),
            }
        }
        Ok(most)
    }

    fn offer(&mut self) -> Offer
        requires { IsLine self.old }
        ensures line { IsLine self.new }
        ensures all { result ≡ Offer.Nothing → IsIdle self.new.writer }
    {
        self.writer.offer(&mut self.desk.port(0))
    }

    /// How many frames of the writer are out.
    pub fn frames_out(&self) -> usize
        ensures { result ≡ self.now.bank.out }
    {
        self.bank.out()
    }

    /// The mailboxes, where those from this one on come behind its own.
    pub fn into_desk(self, free: u32) -> Result<Desk, WireFault>
        requires { IsLine self }
        ensures desk { IfOk result IsDesk }
        ensures free { IfOk result (AreFree free) }
        ensures same { IfOk result (λ desk. (desk ≡ self.desk) × (self.behind ≡ free)) }
    {
        if self.behind != free {
            return Err(WireFault::Unexpected);
        }
        Ok(self.desk)
    }
}

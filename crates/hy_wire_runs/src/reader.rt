//! A receiver's taker over a wire that doesn't merge.
ghost use Rattle.std.specs.Prelude.{◌≡◌, ◌<◌, ◌≤◌, IfOk, OnOk, Some};
ghost use Rattle.hy_connect.specs.Takers.{ComesAsPut};
ghost use Rattle.hy_wire_runs.specs.Desks.{IsDesk, KeepsWords};
ghost use Rattle.hy_wire_runs.specs.Lines.{IsLine};
ghost use Rattle.hy_wire_runs.specs.Readers.{IsReader, IsReaderWith, TellsLeft, TellsNone, handed_out};

use crate::fault::WireFault;
use crate::line::Line;
use hy_connect::{Taken, WireTaker};
use hy_frame::{Bank, Frame, RowRef};
use hy_job::Wire;
use hy_mail::Desk;
use std::alloc::Global;

/// Where the rows go that come to a receiver.
pub trait Sink {
    /// Takes a row.
    fn put(&mut self, alloc: Global, row: &RowRef<'_>) -> Result<(), WireFault>;
}

/// What was left in a receiver's mailbox.
#[derive(Clone, Copy, Debug, PartialEq, Eq)]
pub enum Left {
    /// Nothing for now.
    Empty,
    /// Nothing at all: the sender has closed.
    End,
}

/// What a receiver has of its mailbox, and how many frames and failures came so far.
#[derive(Drop)]
pub struct Reader {
    pub(crate) taker: WireTaker,
    pub(crate) bank: Bank,
    pub frames: u32,
    pub fails: u32,
}

/// The receiver of this mailbox.
pub fn reader_of(alloc: Global, wire: &Wire, mailbox: u32, unit: usize) -> Result<Reader, WireFault>
    requires wire { ComesAsPut wire.now }
    requires there { mailbox < 4 }
    requires unit { (256 ≤ unit) × (unit ≤ 65536) }
    ensures reader { IfOk result IsReader }
    ensures from { IfOk result (λ r. r.taker.mailbox ≡ mailbox) }
{
    Ok(Reader {
        taker: WireTaker::new(alloc, wire, &[mailbox], 1)?,
        bank: Bank::new(unit, 4),
        frames: 0,
        fails: 0,
    })
}

impl Reader {
    /// What comes next. A frame is out until it is given back.
    fn take(&mut self, desk: &mut Desk) -> Taken
        requires desk { IsDesk desk.old }
        requires reader { IsReader self.old }
        ensures desk { IsDesk desk.new }
        ensures words { KeepsWords desk.old desk.new }
        ensures reader { IsReaderWith (handed_out result) self.new }
        ensures left { TellsNone result self.new.taker.closed }
    {
        self.taker.take(&mut desk.port(1), &mut self.bank)
    }

    /// Hands on the rows of a frame, and gives it back.
    fn hand_on<K: Sink>(
        &mut self,
        alloc: Global,
        frame: Frame,
        sink: &mut K,
    ) -> Result<(), WireFault>
        requires { IsReaderWith 1 self.old }
        ensures { OnOk result (IsReader self.new) }
    {
        for i in 0..frame.rows() {
            sink.put(alloc, &frame.row(i))?;
        }
        self.bank.give(frame);
        self.frames = self.frames.saturating_add(1);
        Ok(())
    }

    /// Takes one parcel. It tells whether that was all for now, or for good.
    fn step<K: Sink>(
        &mut self,
        alloc: Global,
        desk: &mut Desk,
        sink: &mut K,
    ) -> Result<Option<Left>, WireFault>
        requires desk { IsDesk desk.old }
        requires reader { IsReader self.old }
        ensures desk { OnOk result (IsDesk desk.new) }
        ensures words { OnOk result (KeepsWords desk.old desk.new) }
        ensures reader { OnOk result (IsReader self.new) }
        ensures left { IfOk result (TellsLeft self.new.taker.closed) }
    {
        match self.take(desk) {
            Taken::Frame(frame) => {
                self.hand_on(alloc, frame, sink)?;
                Ok(None)
            }
            Taken::Failed => {
                self.fails = self.fails.saturating_add(1);
                Ok(None)
            }
            Taken::Word => Ok(None),
            Taken::Empty => Ok(Some(Left::Empty)),
            Taken::Ended => Ok(Some(Left::End)),
            Taken::Kept => Err(WireFault::Unexpected),
        }
    }

    fn read_desk<K: Sink>(
        &mut self,
        alloc: Global,
        desk: &mut Desk,
        sink: &mut K,
    ) -> Result<Left, WireFault>
        requires desk { IsDesk desk.old }
        requires reader { IsReader self.old }
        ensures desk { OnOk result (IsDesk desk.new) }
        ensures words { OnOk result (KeepsWords desk.old desk.new) }
        ensures reader { OnOk result (IsReader self.new) }
        ensures left { IfOk result (λ left. TellsLeft self.new.taker.closed (Some left)) }
    {
        for _ in 0..1000 {
            if let Some(left) = self.step(alloc, desk, sink)? {
                return Ok(left);
            }
        }
        Err(WireFault::Unexpected)
    }
}

/// Takes what is in a receiver's mailbox, and hands on the rows.
#[tactic(auto, using(crate::proofs::LineRuns::looks_on))]
pub fn read<K: Sink>(
    alloc: Global,
    line: &mut Line,
    reader: &mut Reader,
    sink: &mut K,
) -> Result<Left, WireFault>
    requires line { IsLine line.old }
    requires reader { IsReader reader.old }
    ensures line { OnOk result (IsLine line.new) }
    ensures reader { OnOk result (IsReader reader.new) }
    ensures left { IfOk result (λ left. TellsLeft reader.new.taker.closed (Some left)) }
{
    reader.read_desk(alloc, &mut line.desk, sink)
}

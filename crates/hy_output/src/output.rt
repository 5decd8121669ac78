//! What goes out of a task.
ghost use Rattle.std.specs.Prelude.{◌≡◌, ◌≢◌, ◌+◌, ◌<◌, ℕ, ◌≤◌, ◌∷◌, [], length, true, false, None, Some, IfOk, OnOk, OnErr};
ghost use Rattle.hy_driver.specs.Rows.{values_of};
ghost use Rattle.hy_connect.specs.Outlets.{Lent, held_in};
ghost use Rattle.hy_output.specs.Ways.{AreAsFar, Closes, Fails, HasNoFail, HasShape, Posts, TellsOffer, frames_of, held_by, is_idle, mailbox_at, most_of, places, state_of};
ghost use Rattle.hy_output.specs.Outputs.{Begins, Extends, Flushes, Loses, Packs, Spoils, held, output_of};

use crate::keeper::Keeper;
use crate::way::Way;
use hy_connect::{Offer, WireWriter};
use hy_frame::{Append, Bank, Frame, NoMemory, RowBuf, Sent, WriterState};
use hy_mail::{Parcel, Port};
use std::alloc::Global;
use std::marker::Model;

/// What goes out of a task: rows are packed into a frame, and full frames go on.
#[derive(Drop)]
pub struct Output {
    alloc: Global,
    arity: usize,
    unit: usize,
    filling: Option<Frame>,
    way: Way,
}

impl Model for Output {
    ghost use Rattle.hy_output.specs.Outputs.{IsOutput, OutputOf, output_of};

    ghost Value = { OutputOf };

    ghost view = { λ o. output_of o.arity o.unit o.filling o.way };

    ghost invariant = { λ o. IsOutput (output_of o.arity o.unit o.filling o.way) };
}

impl Output {
    /// Rows of so many fields go over this wire, in frames of this size.
    pub fn over(alloc: Global, arity: usize, unit: usize, writer: WireWriter) -> Output
        requires { HasShape arity unit (Way.Wire writer) }
        ensures { result ≡ output_of arity unit None (Way.Wire writer) }
    {
        Output {
            alloc,
            arity,
            unit,
            filling: None,
            way: Way::Wire(writer),
        }
    }

    /// Rows of so many fields are kept, in frames of this size.
    pub fn kept(alloc: Global, arity: usize, unit: usize) -> Output
        ensures { result ≡ output_of arity unit None (Way.Kept (record { frames = []; state = WriterState.Initial })) }
    {
        Output {
            alloc,
            arity,
            unit,
            filling: None,
            way: Way::Kept(Keeper::new(alloc)),
        }
    }

    /// Opens it. It takes no memory.
    pub fn open(&mut self)
        requires { state_of self.old.way ≡ WriterState.Initial }
        ensures state { state_of self.new.way ≡ WriterState.Opened }
        ensures held { held self.new ≡ held self.old }
        ensures told { Packs self.old [] self.new }
        ensures same { self.new.filling ≡ self.old.filling }
        ensures posts { Posts Parcel.Open self.old.way self.new.way }
    {
        self.way.open();
    }

    /// Whether a parcel waits.
    pub fn waits(&self) -> bool
        ensures yes { result ≡ true → is_idle self.now.way → ⊥ }
        ensures no { result ≡ false → is_idle self.now.way }
    {
        self.way.waits()
    }

    /// How far its word has come.
    pub fn state(&self) -> WriterState
        ensures { result ≡ state_of self.now.way }
    {
        self.way.state()
    }

    /// Packs a row. Where the frame that is being packed has no room for it, that goes on first. After an
    /// Err only `fail` may follow.
    pub fn push(&mut self, bank: &mut Bank, row: &RowBuf) -> Result<(), NoMemory>
        requires opened { state_of self.old.way ≡ WriterState.Opened }
        requires width { length row.now ≡ self.old.arity }
        requires unit { bank.old.unit ≡ self.old.unit }
        requires held { held self.old ≤ bank.old.out }
        requires room { bank.old.out + most_of self.old.way + 1 ≤ bank.old.limit + held_in self.old.filling }
        ensures opened { state_of self.new.way ≡ WriterState.Opened }
        ensures bank { Lent (held self.old) (held self.new) bank.old bank.new }
        ensures ok { OnOk result (Packs self.old (values_of row.now ∷ []) self.new) }
        ensures err { OnErr result (Spoils self.old (values_of row.now ∷ []) self.new) }
    {
        if self.extend(row) {
            return Ok(());
        }
        self.flush(bank)?;
        self.begin(bank, row)
    }

    /// Adds a row to the frame that is being packed, where it has room.
    fn extend(&mut self, row: &RowBuf) -> bool
        requires { length row.now ≡ self.old.arity }
        ensures yes { result ≡ true → Extends self.old row.now self.new }
        ensures no { result ≡ false → self.new ≡ self.old }
    {
        let Some(frame) = &mut self.filling else {
            return false;
        };
        match frame.append(row) {
            Append::Appended => true,
            Append::NoRoom => false,
        }
    }

    /// Lets the frame that is being packed go on.
    fn flush(&mut self, bank: &mut Bank) -> Result<(), NoMemory>
        requires opened { state_of self.old.way ≡ WriterState.Opened }
        requires unit { bank.old.unit ≡ self.old.unit }
        requires held { held self.old ≤ bank.old.out }
        requires room { bank.old.out + most_of self.old.way ≤ bank.old.limit }
        ensures opened { state_of self.new.way ≡ WriterState.Opened }
        ensures bank { Lent (held self.old) (held self.new) bank.old bank.new }
        ensures ok { OnOk result (Flushes self.old self.new) }
        ensures err { OnErr result (Loses self.old self.new) }
    {
        let Some(frame) = self.filling.take() else {
            return Ok(());
        };
        self.way.send(bank, frame)
    }

    /// Begins a frame with a row.
    fn begin(&mut self, bank: &mut Bank, row: &RowBuf) -> Result<(), NoMemory>
        requires width { length row.now ≡ self.old.arity }
        requires unit { bank.old.unit ≡ self.old.unit }
        requires filling { self.old.filling ≡ None }
        requires room { bank.old.out < bank.old.limit }
        ensures ok { OnOk result (Begins self.old row.now self.new) }
        ensures err { OnErr result (self.new ≡ self.old) }
        ensures bank { Lent (held self.old) (held self.new) bank.old bank.new }
    {
        let mut frame = bank.take(self.alloc, row.len(), row.size())?;
        match frame.append(row) {
            Append::Appended => {}
            Append::NoRoom => unreachable!(),
        }
        self.filling = Some(frame);
        Ok(())
    }

    /// Lets what was packed go on, and ends the word. After an Err only `fail` may follow.
    pub fn finish(&mut self, bank: &mut Bank) -> Result<(), NoMemory>
        requires opened { state_of self.old.way ≡ WriterState.Opened }
        requires unit { bank.old.unit ≡ self.old.unit }
        requires held { held self.old ≤ bank.old.out }
        requires room { bank.old.out + most_of self.old.way ≤ bank.old.limit }
        ensures ok { OnOk result (Flushes self.old self.new) }
        ensures closed { OnOk result (state_of self.new.way ≡ WriterState.Closed) }
        ensures empty { OnOk result (held self.new ≡ 0) }
        ensures err { OnErr result (Spoils self.old [] self.new) }
        ensures opened { OnErr result (state_of self.new.way ≡ WriterState.Opened) }
        ensures clean { (word : ℕ → WriterState) → AreAsFar word self.old.way → OnOk result (HasNoFail self.new.way) }
        ensures bank { Lent (held self.old) (held self.new) bank.old bank.new }
    {
        self.flush(bank)?;
        self.way.close(bank);
        Ok(())
    }

    /// Gives up the rows that were not sent, and tells each receiver of a failure. It takes no memory.
    pub fn fail(&mut self, bank: &mut Bank)
        requires opened { state_of self.old.way ≡ WriterState.Opened }
        requires unit { bank.old.unit ≡ self.old.unit }
        requires held { held self.old ≤ bank.old.out }
        requires room { bank.old.out < bank.old.limit }
        ensures failed { state_of self.new.way ≡ WriterState.Failed }
        ensures empty { held self.new ≡ 0 }
        ensures filling { self.new.filling ≡ None }
        ensures bank { Lent (held self.old) 0 bank.old bank.new }
        ensures told { Fails self.old.way self.new.way }
        ensures arity { self.new.arity ≡ self.old.arity }
        ensures unit { self.new.unit ≡ self.old.unit }
    {
        if let Some(frame) = self.filling.take() {
            bank.give(frame);
        }
        self.way.fail(bank);
    }

    /// Ends the word of one that failed. It takes no memory.
    pub fn close_failed(&mut self, bank: &mut Bank)
        requires failed { state_of self.old.way ≡ WriterState.Failed }
        requires filling { self.old.filling ≡ None }
        requires unit { bank.old.unit ≡ self.old.unit }
        requires held { held self.old ≤ bank.old.out }
        ensures closed { state_of self.new.way ≡ WriterState.Closed }
        ensures empty { held self.new ≡ 0 }
        ensures bank { Lent (held self.old) 0 bank.old bank.new }
        ensures told { Closes self.old.way self.new.way }
        ensures posts { Posts Parcel.Close self.old.way self.new.way }
        ensures arity { self.new.arity ≡ self.old.arity }
        ensures unit { self.new.unit ≡ self.old.unit }
    {
        self.way.close(bank);
    }

    /// Puts the first parcel that waits. It takes no memory.
    pub fn offer<P: Port>(&mut self, port: &mut P) -> Offer
        requires sends { (k : ℕ) → k < places self.old.way → P.sends port.old (mailbox_at self.old.way k) }
        requires arity { (k : ℕ) → k < places self.old.way → P.arity port.old (mailbox_at self.old.way k) ≡ self.old.arity }
        requires words { AreAsFar (P.word port.old) self.old.way }
        ensures told { TellsOffer P.happens port.old port.new self.old.way self.new.way result }
        ensures rest { self.new ≡ output_of self.old.arity self.old.unit self.old.filling self.new.way }
        ensures held { held self.new ≡ held self.old }
        ensures words { AreAsFar (P.word port.new) self.new.way }
        ensures kept { P.keeps port.old port.new }
    {
        self.way.offer(port)
    }

    /// The frames that were kept, in order; none of a wire.
    pub fn into_frames(self) -> Vec<Sent>
        ensures { result.items ≡ frames_of self.way }
    {
        let Output { alloc, way, .. } = self;
        match way {
            Way::Kept(keeper) => keeper.into_frames(),
            Way::Wire(_) => Vec::new(alloc),
        }
    }
}

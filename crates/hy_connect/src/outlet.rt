//! What a writer holds for one of its receivers.
ghost use Rattle.std.specs.Prelude.{◌≡◌, ◌≢◌, ◌+◌, ◌<◌, ◌≤◌, ◌↔◌, ℕ, [], ◌∷◌, length, None, Some, IfOk, OnOk, OnErr, IsTrue, true, false};
ghost use Rattle.hy_driver.specs.Rows.{values_of};
ghost use Rattle.hy_frame.specs.Row.{row_size};
ghost use Rattle.hy_connect.specs.Filling.{IsFilledTo, LacksRoom, StaysWithin, StopsWithin};
ghost use Rattle.hy_connect.specs.Outlets.{Adds, Cuts, Empties, Exports, Extends, Grows, HasFilled, IsOutlet, Lent, Loses, Pops, Sends, closed, emptied, failed, flushed, frames_in, held_in, posted};

use hy_frame::{Append, Bank, Frame, NoMemory, RowBuf};
use hy_mail::Parcel;
use std::alloc::Global;
use std::collections::VecDeque;
use std::marker::Model;

/// For how many parcels a new outlet has room: an Open, a Fail or what is filled last, and a Close.
const LEAST: usize = 3;

/// What a writer holds for one of its receivers: the parcels that wait, and the frame that is being filled.
#[derive(Drop)]
pub(crate) struct Outlet {
    mailbox: u32,
    filling: Option<Frame>,
    waiting: VecDeque<Parcel>,
}

impl Model for Outlet {
    ghost use Rattle.std.specs.Prelude.{◌-◌};
    ghost use Rattle.std.specs.VecDeque.{deque_capacity, deque_len};
    ghost use Rattle.hy_connect.specs.Outlets.{OutletOf};

    ghost Value = { OutletOf };

    ghost view = { λ o. record { mailbox = o.mailbox; filling = o.filling; waits = o.waiting.items; spare = deque_capacity o.waiting - deque_len o.waiting } };
}

impl Outlet {
    pub(crate) fn new(alloc: Global, mailbox: u32) -> Result<Outlet, NoMemory>
        ensures mailbox { IfOk result (λ o. o.mailbox ≡ mailbox) }
        ensures filling { IfOk result (λ o. o.filling ≡ None) }
        ensures waits { IfOk result (λ o. o.waits ≡ []) }
        ensures spare { IfOk result (λ o. LEAST ≤ o.spare) }
    {
        Ok(Outlet {
            mailbox,
            filling: None,
            waiting: VecDeque::with_capacity(alloc, LEAST)?,
        })
    }

    /// The number of the receiver's mailbox.
    pub(crate) fn mailbox(&self) -> u32
        ensures { result ≡ self.now.mailbox }
    {
        self.mailbox
    }

    /// Whether a parcel waits.
    pub(crate) fn waits(&self) -> bool
        ensures yes { result ≡ true → self.now.waits ≢ [] }
        ensures no { result ≡ false → self.now.waits ≡ [] }
    {
        !self.waiting.is_empty()
    }

    /// Lets a parcel wait behind the others.
    pub(crate) fn post(&mut self, parcel: Parcel)
        requires { 0 < self.old.spare }
        ensures { self.new ≡ posted parcel self.old }
    {
        self.waiting.push_back_reserved(parcel);
    }

    /// Takes the first parcel that waits.
    pub(crate) fn pop(&mut self) -> Parcel
        requires { self.old.waits ≢ [] }
        ensures { Pops self.old result self.new }
    {
        let Some(parcel) = self.waiting.pop_front() else {
            unreachable!()
        };
        parcel
    }

    /// Puts a parcel that was taken back in front.
    pub(crate) fn put_back(&mut self, parcel: Parcel)
        requires { 0 < self.old.spare }
        ensures { Pops self.new parcel self.old }
    {
        self.waiting.push_front_reserved(parcel);
    }

    /// Takes the frame that is being filled.
    fn take_filling(&mut self) -> Option<Frame>
        ensures frame { result ≡ self.old.filling }
        ensures after { self.new ≡ emptied self.old }
    {
        self.filling.take()
    }

    /// Gives the frame that is being filled back.
    fn give_back(&mut self, bank: &mut Bank)
        requires { held_in self.old.filling ≤ bank.old.out }
        ensures outlet { self.new ≡ emptied self.old }
        ensures bank { Lent (held_in self.old.filling) 0 bank.old bank.new }
        ensures exports { Exports (frames_in self.old.waits) (frames_in self.new.waits) bank.old bank.new }
    {
        let Some(frame) = self.take_filling() else {
            return;
        };
        bank.give(frame);
    }

    /// Lets the frame that is being filled wait.
    fn flush(&mut self, bank: &mut Bank)
        requires held { held_in self.old.filling ≤ bank.old.out }
        requires room { held_in self.old.filling ≤ self.old.spare }
        ensures outlet { self.new ≡ flushed self.old }
        ensures bank { Lent (held_in self.old.filling) 0 bank.old bank.new }
        ensures exports { Exports (frames_in self.old.waits) (frames_in self.new.waits) bank.old bank.new }
    {
        let Some(frame) = self.take_filling() else {
            return;
        };
        self.post(Parcel::Frame(bank.export(frame)));
    }

    /// Lets a Fail wait, and gives what is being filled back.
    pub(crate) fn fail(&mut self, bank: &mut Bank)
        requires held { held_in self.old.filling ≤ bank.old.out }
        requires room { 0 < self.old.spare }
        ensures outlet { self.new ≡ failed self.old }
        ensures bank { Lent (held_in self.old.filling) 0 bank.old bank.new }
        ensures exports { Exports (frames_in self.old.waits) (frames_in self.new.waits) bank.old bank.new }
    {
        self.give_back(bank);
        self.post(Parcel::Fail);
    }

    /// Lets what is being filled wait, and a Close.
    pub(crate) fn close(&mut self, bank: &mut Bank)
        requires held { held_in self.old.filling ≤ bank.old.out }
        requires room { held_in self.old.filling + 1 ≤ self.old.spare }
        ensures outlet { self.new ≡ closed self.old }
        ensures bank { Lent (held_in self.old.filling) 0 bank.old bank.new }
        ensures exports { Exports (frames_in self.old.waits) (frames_in self.new.waits) bank.old bank.new }
    {
        self.flush(bank);
        self.post(Parcel::Close);
    }

    /// Makes room for a parcel, and behind it for a Fail or what is filled last, and a Close.
    fn reserve(&mut self) -> Result<(), NoMemory>
        ensures grows { Grows self.old self.new }
        ensures ok { OnOk result (LEAST ≤ self.new.spare) }
    {
        self.waiting.reserve(LEAST)?;
        Ok(())
    }

    /// Lets a frame wait. Where memory is wanting it goes back.
    pub(crate) fn send(&mut self, bank: &mut Bank, frame: Frame) -> Result<(), NoMemory>
        requires { 0 < bank.old.out }
        ensures ok { OnOk result (Sends self.old frame self.new) }
        ensures err { OnErr result (Grows self.old self.new) }
        ensures bank { Lent 1 0 bank.old bank.new }
        ensures exports { Exports (frames_in self.old.waits) (frames_in self.new.waits) bank.old bank.new }
    {
        if self.reserve().is_err() {
            bank.give(frame);
            return Err(NoMemory);
        }
        self.post(Parcel::Frame(bank.export(frame)));
        Ok(())
    }

    /// Lets the frame that is being filled wait. Where memory is wanting it goes back, and its rows are lost.
    fn send_filling(&mut self, bank: &mut Bank) -> Result<(), NoMemory>
        requires { held_in self.old.filling ≤ bank.old.out }
        ensures ok { OnOk result ((arity : ℕ) → IsOutlet arity 2 self.old → Empties arity self.old self.new) }
        ensures err { OnErr result ((arity : ℕ) → IsOutlet arity 2 self.old → Loses arity self.old self.new) }
        ensures none { self.old.filling ≡ None → self.new.waits ≡ self.old.waits }
        ensures parcels { length self.new.waits ≤ length self.old.waits + 1 }
        ensures bank { Lent (held_in self.old.filling) 0 bank.old bank.new }
        ensures exports { Exports (frames_in self.old.waits) (frames_in self.new.waits) bank.old bank.new }
    {
        let Some(frame) = self.take_filling() else {
            return Ok(());
        };
        self.send(bank, frame)
    }

    /// Adds a row to the frame that is being filled, where it has room.
    fn extend(&mut self, row: &RowBuf) -> bool
        requires { HasFilled (length row.now) self.old.filling }
        ensures yes { result ≡ true → Extends self.old row.now self.new }
        ensures no { result ≡ false → self.new ≡ self.old }
        ensures full { result ≡ false → LacksRoom self.old.filling (row_size row.now) }
    {
        let Some(frame) = &mut self.filling else {
            return false;
        };
        match frame.append(row) {
            Append::Appended => true,
            Append::NoRoom => false,
        }
    }

    /// Adds a row to the frame that is being filled. Where it has no room it waits, and the next frame is begun.
    pub(crate) fn append(
        &mut self,
        alloc: Global,
        bank: &mut Bank,
        row: &RowBuf,
    ) -> Result<(), NoMemory>
        requires held { held_in self.old.filling ≤ bank.old.out }
        requires room { bank.old.out + 1 ≤ bank.old.limit + held_in self.old.filling }
        requires outlet { IsOutlet (length row.now) 2 self.old }
        ensures ok { OnOk result (Adds (length row.now) self.old (values_of row.now ∷ []) self.new) }
        ensures err { OnErr result (Cuts (length row.now) self.old (values_of row.now ∷ []) self.new) }
        ensures stays { OnOk result (StaysWithin bank.old.unit (row_size row.now) self.old self.new) }
        ensures stops { OnErr result (StopsWithin bank.old.unit (row_size row.now) self.old self.new) }
        ensures parcels { length self.new.waits ≤ length self.old.waits + 1 }
        ensures bank { Lent (held_in self.old.filling) (held_in self.new.filling) bank.old bank.new }
        ensures exports { Exports (frames_in self.old.waits) (frames_in self.new.waits) bank.old bank.new }
    {
        if self.extend(row) {
            return Ok(());
        }
        self.send_filling(bank)?;
        self.begin(alloc, bank, row)
    }

    /// Begins a frame with a row.
    fn begin(&mut self, alloc: Global, bank: &mut Bank, row: &RowBuf) -> Result<(), NoMemory>
        requires filling { self.old.filling ≡ None }
        requires room { bank.old.out < bank.old.limit }
        ensures ok { OnOk result (IsOutlet (length row.now) 2 self.old → Adds (length row.now) self.old (values_of row.now ∷ []) self.new) }
        ensures err { OnErr result (self.new ≡ self.old) }
        ensures waits { self.new.waits ≡ self.old.waits }
        ensures filled { OnOk result (row_size row.now + 8 ≤ bank.old.unit → IsFilledTo bank.old.unit (row_size row.now + 4) self.new.filling) }
        ensures bank { Lent 0 (held_in self.new.filling) bank.old bank.new }
        ensures exports { Exports (frames_in self.old.waits) (frames_in self.new.waits) bank.old bank.new }
    {
        self.filling = Some(first_frame(alloc, bank, row)?);
        Ok(())
    }
}

/// A frame with this row.
#[tactic(auto, using(crate::proofs::Filling::one_filled))]
fn first_frame(alloc: Global, bank: &mut Bank, row: &RowBuf) -> Result<Frame, NoMemory>
    requires { bank.old.out < bank.old.limit }
    ensures arity { IfOk result (λ f. f.arity ≡ length row.now) }
    ensures rows { IfOk result (λ f. f.rows ≡ row.now ∷ []) }
    ensures filled { IfOk result (λ f. row_size row.now + 8 ≤ bank.old.unit → IsFilledTo bank.old.unit (row_size row.now + 4) (Some f)) }
    ensures ok { OnOk result (Lent 0 1 bank.old bank.new) }
    ensures err { OnErr result (Lent 0 0 bank.old bank.new) }
    ensures exports { (bank.new.exported ≡ bank.old.exported) × (bank.new.imported ≡ bank.old.imported) }
{
    let mut frame = bank.take(alloc, row.len(), row.size())?;
    match frame.append(row) {
        Append::Appended => Ok(frame),
        Append::NoRoom => unreachable!(),
    }
}

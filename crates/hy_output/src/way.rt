//! Where the frames of a task go.
ghost use Rattle.std.specs.Prelude.{◌≡◌, ◌≢◌, ◌⊎◌, ◌+◌, ◌<◌, ◌≤◌, ℕ, [], map, true, false, OnOk, OnErr};
ghost use Rattle.hy_driver.specs.Rows.{values_of};
ghost use Rattle.hy_connect.specs.Outlets.{Lent};
ghost use Rattle.hy_output.specs.Ways.{AreAsFar, Closes, Fails, HasArity, HasNoFail, HasShape, HasUnit, Posts, Sends, Tears, TellsOffer, mailbox_at, places, held_by, is_idle, most_of, state_of};

use crate::keeper::Keeper;
use hy_connect::{Offer, WireWriter};
use hy_frame::{Bank, Frame, FrameWriter, NoMemory, WriterState};
use hy_mail::{Parcel, Port};

/// Where the frames of a task go: over the wire that leaves its activity, or nowhere, until the task
/// hands them on.
#[derive(Drop)]
pub enum Way {
    Wire(WireWriter),
    Kept(Keeper),
}

impl Way {
    /// How far its word has come.
    pub(crate) fn state(&self) -> WriterState
        ensures { result ≡ state_of self.now }
    {
        match self {
            Way::Wire(writer) => writer.state(),
            Way::Kept(keeper) => keeper.state(),
        }
    }

    /// Whether a parcel waits.
    pub(crate) fn waits(&self) -> bool
        ensures yes { result ≡ true → is_idle self.now → ⊥ }
        ensures no { result ≡ false → is_idle self.now }
    {
        match self {
            Way::Wire(writer) => writer.waits(),
            Way::Kept(_) => false,
        }
    }

    /// Opens it. It takes no memory.
    pub(crate) fn open(&mut self)
        requires { state_of self.old ≡ WriterState.Initial }
        ensures state { state_of self.new ≡ WriterState.Opened }
        ensures held { held_by self.new ≡ held_by self.old }
        ensures shape { (arity unit : ℕ) → HasShape arity unit self.old → HasShape arity unit self.new }
        ensures told { Sends self.old [] self.new }
        ensures posts { Posts Parcel.Open self.old self.new }
    {
        match self {
            Way::Wire(writer) => writer.open(),
            Way::Kept(keeper) => keeper.set_state(WriterState::Opened),
        }
    }

    /// Lets a frame go on. After an Err only `fail` may follow.
    pub(crate) fn send(&mut self, bank: &mut Bank, frame: Frame) -> Result<(), NoMemory>
        requires opened { state_of self.old ≡ WriterState.Opened }
        requires shape { HasShape frame.arity frame.unit self.old }
        requires unit { bank.old.unit ≡ frame.unit }
        requires room { bank.old.out + most_of self.old ≤ bank.old.limit }
        requires out { held_by self.old + 1 ≤ bank.old.out }
        ensures opened { state_of self.new ≡ WriterState.Opened }
        ensures out { bank.new.out + (held_by self.old + 1) ≡ bank.old.out + held_by self.new }
        ensures bank { (bank.new.unit ≡ bank.old.unit) × (bank.new.limit ≡ bank.old.limit) }
        ensures shape { (arity unit : ℕ) → HasShape arity unit self.old → HasShape arity unit self.new }
        ensures ok { OnOk result (Sends self.old (map values_of frame.rows) self.new) }
        ensures err { OnErr result (Tears self.old (map values_of frame.rows) self.new) }
    {
        match self {
            Way::Wire(writer) => writer.next_frame(bank, frame),
            Way::Kept(keeper) => keeper.keep(bank, frame),
        }
    }

    /// Gives up the rows that were not sent, and tells each receiver of a failure. What was kept goes back. It
    /// takes no memory.
    pub(crate) fn fail(&mut self, bank: &mut Bank)
        requires opened { state_of self.old ≡ WriterState.Opened }
        requires unit { HasUnit bank.old.unit self.old }
        requires out { held_by self.old ≤ bank.old.out }
        requires room { bank.old.out < bank.old.limit }
        ensures failed { state_of self.new ≡ WriterState.Failed }
        ensures empty { held_by self.new ≡ 0 }
        ensures bank { Lent (held_by self.old) 0 bank.old bank.new }
        ensures shape { (arity unit : ℕ) → HasShape arity unit self.old → HasShape arity unit self.new }
        ensures told { Fails self.old self.new }
    {
        match self {
            Way::Wire(writer) => writer.fail(bank),
            Way::Kept(keeper) => {
                keeper.give_up(bank);
                keeper.set_state(WriterState::Failed);
            }
        }
    }

    /// Ends its word. It takes no memory.
    pub(crate) fn close(&mut self, bank: &mut Bank)
        requires ready { (state_of self.old ≡ WriterState.Opened) ⊎ (state_of self.old ≡ WriterState.Failed) }
        requires unit { HasUnit bank.old.unit self.old }
        requires out { held_by self.old ≤ bank.old.out }
        ensures closed { state_of self.new ≡ WriterState.Closed }
        ensures empty { held_by self.new ≡ 0 }
        ensures bank { Lent (held_by self.old) 0 bank.old bank.new }
        ensures told { Closes self.old self.new }
        ensures posts { state_of self.old ≡ WriterState.Failed → Posts Parcel.Close self.old self.new }
        ensures clean { HasNoFail self.old → HasNoFail self.new }
    {
        match self {
            Way::Wire(writer) => writer.close(bank),
            Way::Kept(keeper) => keeper.set_state(WriterState::Closed),
        }
    }

    /// Puts the first parcel that waits. It takes no memory.
    pub(crate) fn offer<P: Port>(&mut self, port: &mut P) -> Offer
        requires sends { (k : ℕ) → k < places self.old → P.sends port.old (mailbox_at self.old k) }
        requires arity { (k : ℕ) → k < places self.old → HasArity (P.arity port.old (mailbox_at self.old k)) self.old }
        requires words { AreAsFar (P.word port.old) self.old }
        ensures told { TellsOffer P.happens port.old port.new self.old self.new result }
        ensures held { held_by self.new ≡ held_by self.old }
        ensures words { AreAsFar (P.word port.new) self.new }
        ensures kept { P.keeps port.old port.new }
    {
        match self {
            Way::Wire(writer) => writer.offer(port),
            Way::Kept(_) => Offer::Nothing,
        }
    }
}

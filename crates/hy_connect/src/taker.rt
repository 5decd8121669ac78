//! What a task takes from.
ghost use Rattle.std.specs.Prelude.{◌≡◌, ◌<◌, ◌⊎◌, [], true, false, IfOk, length, replicate, slice_index_or};
ghost use Rattle.hy_connect.specs.Takers.{ComesAsPut, HaveClosed, IsGoing, TellsTaken};

use al_value::NoMemory;
use hy_frame::{Bank, Frame};
use hy_job::Wire;
use hy_mail::{Parcel, Port};
use std::alloc::Global;
use std::marker::Model;

/// What a take came to.
#[derive(Drop)]
pub enum Taken {
    /// The mailbox was empty.
    Empty,
    Frame(Frame),
    /// A frame, which the taker keeps at hand.
    Kept,
    /// An Open or a Close.
    Word,
    /// A Fail.
    Failed,
    /// Every sender's Close had been taken.
    Ended,
}

/// Takes what comes over a wire as it comes.
#[derive(Drop)]
pub struct WireTaker {
    mailbox: u32,
    closed: Vec<bool>,
}

impl Model for WireTaker {
    ghost use Rattle.hy_connect.specs.Takers.{TakerOf};

    ghost Value = { TakerOf };

    ghost view = { λ t. record { mailbox = t.mailbox; closed = t.closed.items } };
}

impl WireTaker {
    /// A taker from the one mailbox of these, which has so many senders, or from none where there is no sender. The
    /// wire is none that merges.
    pub fn new(
        alloc: Global,
        wire: &Wire,
        boxes: &[u32],
        senders: u32,
    ) -> Result<WireTaker, NoMemory>
        requires wire { ComesAsPut wire.now }
        requires boxes { ((length boxes.now ≡ 1) × (0 < senders)) ⊎ ((boxes.now ≡ []) × (senders ≡ 0)) }
        ensures mailbox { IfOk result (λ t. t.mailbox ≡ slice_index_or boxes.now 0 0) }
        ensures closed { IfOk result (λ t. t.closed ≡ replicate senders false) }
    {
        let mailbox = if boxes.is_empty() { 0 } else { boxes[0] };
        Ok(WireTaker {
            mailbox,
            closed: Vec::from_elem(alloc, false, senders as usize)?,
        })
    }

    /// Whether every sender's Close was taken.
    pub fn ended(&self) -> bool
        ensures yes { result ≡ true → HaveClosed self.now.closed }
        ensures no { result ≡ false → IsGoing self.now.closed }
    {
        have_closed(&self.closed)
    }

    /// Takes what comes next, where a sender has not closed. It takes no memory.
    pub fn take<P: Port>(&mut self, port: &mut P, bank: &mut Bank) -> Taken
        requires receives { IsGoing self.old.closed → P.receives port.old self.old.mailbox }
        requires senders { IsGoing self.old.closed → P.senders port.old self.old.mailbox ≡ length self.old.closed }
        requires room { bank.old.out < bank.old.limit }
        ensures told { TellsTaken P.happens port.old port.new bank.old bank.new self.old self.new result }
        ensures kept { P.keeps port.old port.new }
    {
        if self.ended() {
            return Taken::Ended;
        }
        let Some((sender, parcel)) = port.take(self.mailbox) else {
            return Taken::Empty;
        };
        match parcel {
            Parcel::Open => Taken::Word,
            Parcel::Frame(sent) => Taken::Frame(bank.import(sent)),
            Parcel::Fail => Taken::Failed,
            Parcel::Close => {
                self.closed[sender as usize] = true;
                Taken::Word
            }
        }
    }
}

/// Whether all of them are closed.
fn have_closed(closed: &[bool]) -> bool
    ensures yes { result ≡ true → HaveClosed closed.now }
    ensures no { result ≡ false → IsGoing closed.now }
{
    for flag in closed {
        if !*flag {
            return false;
        }
    }
    true
}

//! A task's port over passes of shared mailboxes and a seat at the abort word.
ghost use Rattle.std.specs.Prelude.{◌≡◌, ◌<◌, [], ◌∷◌, ◌++◌, length, true, All, IfErr, OnErr, OnOk};
ghost use Rattle.hy_abort.specs.Seats.{IsSeatOf};
ghost use Rattle.hy_mail.specs.Passes.{IsSendOf, IsTakeOf};
ghost use Rattle.hy_mail.specs.Seated.{IsBoxAt, IsSentAt, IsTakenAt, TellsPutAt, TellsTakeAt, arity_in, has, place_in, word_at};
ghost use Rattle.hy_mail.specs.Words.{HasArity, may};

use crate::mailbox::{Mailbox, SendPass, TakePass};
use crate::parcel::{Parcel, PutAnswer};
use crate::port::Port;
use al_value::List;
use hy_abort::{AbortSeat, AbortWord};
use std::alloc::Global;
use std::marker::Model;
use std::sync::Wait;

/// A task's port, which other threads' ports stand beside: it holds the task's passes of the mailboxes, each beside
/// its mailbox's number, and its seat at the abort word. Its calls may wait for other threads.
#[derive(Drop)]
pub struct SeatPort<'a, W: Wait + Sync> {
    rt: &'a W,
    boxes: &'a [Mailbox],
    word: &'a AbortWord,
    seat: AbortSeat,
    sends: Vec<(u32, SendPass)>,
    takes: Vec<(u32, TakePass)>,
}

impl<'a, W: Wait + Sync> Model for SeatPort<'a, W> {
    ghost use Rattle.hy_mail.specs.Seated.{IsSeated, PortState};

    ghost Value = { PortState };

    ghost view = { λ p. record { boxes = p.boxes.now; word = p.word.now; seat = p.seat; sends = p.sends.items; takes = p.takes.items } };

    ghost invariant = { λ p. IsSeated p.boxes.now p.word.now p.seat p.sends.items p.takes.items };
}

/// What a port was made of.
#[derive(Drop)]
pub struct SeatParts {
    pub seat: AbortSeat,
    pub sends: List<(u32, SendPass)>,
    pub takes: List<(u32, TakePass)>,
}

impl<'a, W: Wait + Sync> SeatPort<'a, W> {
    /// A port without passes.
    pub fn new(
        rt: &'a W,
        alloc: Global,
        boxes: &'a [Mailbox],
        word: &'a AbortWord,
        seat: AbortSeat,
    ) -> SeatPort<'a, W>
        requires { IsSeatOf word.now seat }
        ensures { result ≡ record { boxes = boxes.now; word = word.now; seat = seat; sends = []; takes = [] } }
    {
        SeatPort {
            rt,
            boxes,
            word,
            seat,
            sends: Vec::new(alloc),
            takes: Vec::new(alloc),
        }
    }

    /// Takes over a pass to put by, or hands it back where memory is wanting.
    pub fn give_send(&mut self, mailbox: u32, pass: SendPass) -> Result<(), SendPass>
        requires { IsSentAt self.old.boxes (mailbox, pass) }
        ensures ok { OnOk result (self.new ≡ record self.old { sends = self.old.sends ++ (mailbox, pass) ∷ [] }) }
        ensures err { OnErr result (self.new ≡ self.old) }
        ensures back { IfErr result (λ back. back ≡ pass) }
    {
        if self.sends.reserve(1).is_err() {
            return Err(pass);
        }
        self.sends.push_reserved((mailbox, pass));
        Ok(())
    }

    /// Takes over a pass to take by, or hands it back where memory is wanting.
    pub fn give_take(&mut self, mailbox: u32, pass: TakePass) -> Result<(), TakePass>
        requires { IsTakenAt self.old.boxes (mailbox, pass) }
        ensures ok { OnOk result (self.new ≡ record self.old { takes = self.old.takes ++ (mailbox, pass) ∷ [] }) }
        ensures err { OnErr result (self.new ≡ self.old) }
        ensures back { IfErr result (λ back. back ≡ pass) }
    {
        if self.takes.reserve(1).is_err() {
            return Err(pass);
        }
        self.takes.push_reserved((mailbox, pass));
        Ok(())
    }

    /// Ends the port, and gives its seat and passes back.
    pub fn into_parts(self) -> SeatParts
        ensures parts { (result.seat ≡ self.entry.seat) × (result.sends ≡ self.entry.sends) × (result.takes ≡ self.entry.takes) }
        ensures seat { IsSeatOf self.entry.word result.seat }
        ensures sends { All (IsSentAt self.entry.boxes) result.sends }
        ensures takes { All (IsTakenAt self.entry.boxes) result.takes }
    {
        SeatParts {
            seat: self.seat,
            sends: List::from_vec(self.sends),
            takes: List::from_vec(self.takes),
        }
    }
}

impl<'a, W: Wait + Sync> Port for SeatPort<'a, W> {
    ghost use Rattle.std.specs.Prelude.{◌≡◌};
    ghost use Rattle.std.proofs.Common.{refl, ◌∙◌};
    ghost use Rattle.hy_mail.specs.Seated.{PortStep, ReceivesAt, SendsAt, arity_in, refused_at, senders_in, word_at};
    ghost use Rattle.hy_mail.specs.SeatedLaws.{port_counts, port_kept, port_plans, port_puts, port_roles, port_takes, port_words};

    ghost word = { λ p. word_at p.sends };

    ghost sends = { SendsAt };

    ghost receives = { ReceivesAt };

    ghost senders = { λ p. senders_in p.boxes };

    ghost arity = { λ p. arity_in p.boxes };

    ghost refused = { λ p. refused_at p.sends p.takes };

    ghost happens = { PortStep };

    ghost keeps = { λ p q. (q.boxes ≡ p.boxes) × (q.word ≡ p.word) };

    fn put(&mut self, mailbox: u32, parcel: Parcel) -> PutAnswer {
        put_by(self.rt, self.boxes, &mut self.sends, mailbox, parcel)
    }

    fn take(&mut self, mailbox: u32) -> Option<(u32, Parcel)> {
        take_by(self.rt, self.boxes, &mut self.takes, mailbox)
    }

    fn raise(&mut self) {
        self.word.raise(&mut self.seat);
    }

    fn raised(&mut self) -> bool {
        self.word.raised(&mut self.seat)
    }

    ghost words = { port_words };

    ghost counts = { port_counts };

    ghost roles = { port_roles };

    ghost plans = { port_plans };

    ghost puts = { port_puts };

    ghost takes = { port_takes };

    ghost kept = { port_kept };

    ghost kept_at_first = { λ p. (refl, refl) };

    ghost kept_on = { λ p q r h k. (k.0 ∙ h.0, k.1 ∙ h.1) };
}

/// The place of the first pass of a mailbox.
fn place_of<P>(passes: &[(u32, P)], mailbox: u32) -> Option<usize>
    ensures { result ≡ place_in passes.now mailbox }
{
    passes.iter().position(|(number, _)| *number == mailbox)
}

/// Puts by the pass of this mailbox.
fn put_by<W: Wait>(
    rt: &W,
    boxes: &[Mailbox],
    sends: &mut Vec<(u32, SendPass)>,
    mailbox: u32,
    parcel: Parcel,
) -> PutAnswer
    requires seated { All (IsSentAt boxes.now) sends.old.items }
    requires there { has sends.old.items mailbox ≡ true }
    requires fits { may (word_at sends.old.items mailbox) parcel ≡ true }
    requires arity { HasArity (arity_in boxes.now mailbox) parcel }
    ensures told { TellsPutAt boxes.now mailbox sends.old.items parcel sends.new.items result }
    ensures seated { All (IsSentAt boxes.now) sends.new.items }
{
    let Some(place) = place_of(sends, mailbox) else {
        unreachable!()
    };
    let (_, pass) = &mut sends[place];
    boxes[mailbox as usize].put(rt, pass, parcel)
}

/// Takes by the pass of this mailbox.
fn take_by<W: Wait>(
    rt: &W,
    boxes: &[Mailbox],
    takes: &mut Vec<(u32, TakePass)>,
    mailbox: u32,
) -> Option<(u32, Parcel)>
    requires seated { All (IsTakenAt boxes.now) takes.old.items }
    requires there { has takes.old.items mailbox ≡ true }
    ensures told { TellsTakeAt boxes.now mailbox takes.old.items takes.new.items result }
    ensures seated { All (IsTakenAt boxes.now) takes.new.items }
{
    let Some(place) = place_of(takes, mailbox) else {
        unreachable!()
    };
    let (_, pass) = &mut takes[place];
    boxes[mailbox as usize].take(rt, pass)
}

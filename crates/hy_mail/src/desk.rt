//! The mailboxes of one thread.
ghost use Rattle.std.specs.Prelude.{◌≡◌, ◌==◌, All, IfOk, true};
ghost use Rattle.std.specs.List.{IsDistinct};
ghost use Rattle.hy_mail.specs.Words.{HasArity, may};
ghost use Rattle.hy_mail.specs.Events.{Raise, TellsPut, TellsTake};
ghost use Rattle.hy_mail.specs.Desks.{DeskStep, Receives, Sends, box, fresh_desk, word_of};

use crate::desk_box::DeskBox;
use crate::parcel::{Parcel, PutAnswer};
use crate::plan::BoxPlan;
use crate::port::Port;
use al_value::NoMemory;
use std::alloc::Global;
use std::marker::Model;

/// The mailboxes of one thread, and its abort word.
#[derive(Drop)]
pub struct Desk {
    boxes: Vec<DeskBox>,
    raised: bool,
}

impl Model for Desk {
    ghost use Rattle.hy_mail.specs.Desks.{DeskState};

    ghost Value = { DeskState };

    ghost view = { λ d. record { boxes = d.boxes.items; raised = d.raised } };
}

impl Desk {
    /// A desk with these mailboxes, all empty, and a word that is not raised. It takes all memory that its ports
    /// will need.
    pub fn new(alloc: Global, boxes: &[BoxPlan]) -> Result<Desk, NoMemory>
        requires { All (λ plan. IsDistinct ◌==◌ plan.senders) boxes.now }
        ensures { IfOk result (λ d. d ≡ fresh_desk boxes.now) }
    {
        let mut made = Vec::new(alloc);
        made.reserve(boxes.len())?;
        for plan in boxes {
            made.push_reserved(DeskBox::new(alloc, plan)?);
        }
        Ok(Desk {
            boxes: made,
            raised: false,
        })
    }

    /// The port of one task.
    pub fn port(&mut self, task: u32) -> DeskPort
        ensures same_desk { result.desk.ghost_name ≡ self.entry.ghost_name }
        ensures desk { result.desk.now ≡ self.old }
        ensures task { result.task ≡ task }
    {
        DeskPort { desk: self, task }
    }

    fn put_as(&mut self, task: u32, mailbox: u32, parcel: Parcel) -> PutAnswer
        requires sender { Sends self.old task mailbox }
        requires fits { may (word_of self.old task mailbox) parcel ≡ true }
        requires arity { HasArity (box self.old mailbox).arity parcel }
        ensures { TellsPut (DeskStep task) self.old mailbox parcel self.new result }
    {
        let desk_box = &mut self.boxes[mailbox as usize];
        let Some(sender) = desk_box.seat_of(task) else {
            unreachable!()
        };
        if desk_box.is_full() {
            desk_box.refuse();
            return PutAnswer::Full(parcel);
        }
        desk_box.put(sender, parcel);
        PutAnswer::Put
    }

    fn take_as(&mut self, task: u32, mailbox: u32) -> Option<(u32, Parcel)>
        requires { Receives self.old task mailbox }
        ensures { TellsTake (DeskStep task) self.old mailbox self.new result }
    {
        let desk_box = &mut self.boxes[mailbox as usize];
        let front = desk_box.take();
        if front.is_none() {
            desk_box.refuse();
        }
        front
    }

    fn raise(&mut self)
        ensures { DeskStep 0 self.old Raise self.new }
    {
        self.raised = true;
    }

    fn is_raised(&self) -> bool
        ensures { result ≡ self.now.raised }
    {
        self.raised
    }
}

/// A desk, as one task sees it.
#[derive(Drop)]
pub struct DeskPort<'a> {
    desk: &'a mut Desk,
    task: u32,
}

impl<'a> Port for DeskPort<'a> {
    ghost use Rattle.std.specs.Prelude.{◌≡◌, length};
    ghost use Rattle.std.proofs.Common.{refl, ap, ◌∙◌};
    ghost use Rattle.hy_mail.specs.Desks.{DeskStep, Receives, Sends, box, word_of};
    ghost use Rattle.hy_mail.specs.DeskLaws.{desk_counts, desk_plans, desk_puts, desk_roles, desk_takes, desk_words};

    ghost word = { λ p. word_of p.desk.now p.task };

    ghost sends = { λ p. Sends p.desk.now p.task };

    ghost receives = { λ p. Receives p.desk.now p.task };

    ghost senders = { λ p m. length (box p.desk.now m).senders };

    ghost arity = { λ p m. (box p.desk.now m).arity };

    ghost refused = { λ p m. (box p.desk.now m).refused };

    ghost happens = { λ p e q. (q.desk.ghost_name ≡ p.desk.ghost_name) × (q.task ≡ p.task) × DeskStep p.task p.desk.now e q.desk.now };

    ghost keeps = { λ p q. (q.desk.ghost_name ≡ p.desk.ghost_name) × (q.task ≡ p.task) };

    fn put(&mut self, mailbox: u32, parcel: Parcel) -> PutAnswer {
        self.desk.put_as(self.task, mailbox, parcel)
    }

    fn take(&mut self, mailbox: u32) -> Option<(u32, Parcel)> {
        self.desk.take_as(self.task, mailbox)
    }

    fn raise(&mut self) {
        self.desk.raise();
    }

    fn raised(&mut self) -> bool {
        self.desk.is_raised()
    }

    ghost words = { λ old new e m h. ap (λ t. word_of new.desk.now t m) h.1 ∙ desk_words old.task old.desk.now new.desk.now e m h.2 };

    ghost counts = { λ old new e m h. desk_counts old.task old.desk.now new.desk.now e m h.2 };

    ghost roles = { λ old new e h. desk_roles old.task new.task old.desk.now new.desk.now e h.1 h.2 };

    ghost plans = { λ old new e m h. desk_plans old.task old.desk.now new.desk.now e m h.2 };

    ghost puts = { λ old new m p h. desk_puts old.task old.desk.now new.desk.now m p h.2 };

    ghost takes = { λ old new m s p h. desk_takes old.task old.desk.now new.desk.now m s p h.2 };

    ghost kept = { λ old new e h. (h.0, h.1) };

    ghost kept_at_first = { λ p. (refl, refl) };

    ghost kept_on = { λ p q r h k. (k.0 ∙ h.0, k.1 ∙ h.1) };
}

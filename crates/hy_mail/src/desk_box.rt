//! One mailbox of a desk.
ghost use Rattle.std.specs.Prelude.{◌≡◌, ◌<◌, ◌≤◌, ◌==◌, ◌^◌, length, IfOk, IfSome, IsTrue, ◌↔◌};
ghost use Rattle.std.specs.List.{IsDistinct};
ghost use Rattle.hy_mail.specs.Words.{HasArity};
ghost use Rattle.hy_mail.specs.Desks.{Found, fresh_box, pushed, refusing, seat_of};

use crate::parcel::{Parcel, Posted};
use crate::plan::BoxPlan;
use al_value::NoMemory;
use hy_frame::WriterState;
use std::alloc::Global;
use std::collections::VecDeque;
use std::marker::Model;

/// One mailbox of a desk.
#[derive(Drop)]
pub(crate) struct DeskBox {
    queue: VecDeque<Posted>,
    senders: Vec<u32>,
    words: Vec<WriterState>,
    receiver: u32,
    capacity: usize,
    arity: usize,
    refused: u64,
}

impl Model for DeskBox {
    ghost use Rattle.std.specs.Prelude.{◌≤◌, ◌^◌, ◌≡◌, length, All};
    ghost use Rattle.std.specs.VecDeque.{deque_capacity};
    ghost use Rattle.hy_mail.specs.Desks.{BoxState, IsPostedIn};

    ghost Value = { BoxState };

    ghost view = { λ b. record { queue = b.queue.items; senders = b.senders.items; words = b.words.items; receiver = b.receiver; capacity = b.capacity; arity = b.arity; refused = b.refused } };

    ghost invariant = { λ b. (b.capacity ≤ deque_capacity b.queue) × (length b.words.items ≡ length b.senders.items) × (length b.senders.items ≤ 2 ^ 32) × All (IsPostedIn (length b.senders.items) b.arity) b.queue.items };
}

impl DeskBox {
    /// A mailbox without parcels.
    pub(crate) fn new(alloc: Global, plan: &BoxPlan) -> Result<DeskBox, NoMemory>
        requires { IsDistinct ◌==◌ plan.now.senders }
        ensures { IfOk result (λ b. b ≡ fresh_box plan.now) }
    {
        let senders = numbered(alloc, plan.senders.as_slice())?;
        let words = Vec::from_elem(alloc, WriterState::Initial, senders.len())?;
        let queue = VecDeque::with_capacity(alloc, plan.capacity)?;
        Ok(DeskBox {
            queue,
            senders,
            words,
            receiver: plan.receiver,
            capacity: plan.capacity,
            arity: plan.arity,
            refused: 0,
        })
    }

    /// The number of a task among the senders.
    pub(crate) fn seat_of(&self, task: u32) -> Option<usize>
        ensures seat { result ≡ seat_of self.now.senders task }
        ensures in_range { IfSome result (λ s. s < length self.now.words) }
    {
        self.senders.iter().position(|sender| *sender == task)
    }

    /// Whether no more parcel goes in.
    pub(crate) fn is_full(&self) -> bool
        ensures { IsTrue result ↔ self.now.capacity ≤ length self.now.queue }
    {
        self.queue.len() >= self.capacity
    }

    /// Puts a parcel of a sender behind the others.
    pub(crate) fn put(&mut self, sender: usize, parcel: Parcel)
        requires room { length self.old.queue < self.old.capacity }
        requires sender { sender < length self.old.words }
        requires arity { HasArity self.old.arity parcel }
        ensures { self.new ≡ pushed self.old sender parcel }
    {
        let word = self.words[sender];
        self.words[sender] = parcel.leads(word);
        self.queue.push_back_reserved(Posted {
            from: sender as u32,
            parcel,
        });
    }

    /// Takes the front.
    pub(crate) fn take(&mut self) -> Option<(u32, Parcel)>
        ensures { Found self.old self.new result }
    {
        let Posted { from, parcel } = self.queue.pop_front()?;
        Some((from, parcel))
    }

    /// Counts that the mailbox was found full or empty.
    pub(crate) fn refuse(&mut self)
        ensures { self.new ≡ refusing self.old }
    {
        self.refused = self.refused.saturating_add(1);
    }
}

/// The tasks in their order. No two are equal, so each has a number of 32 bits.
fn numbered(alloc: Global, tasks: &[u32]) -> Result<Vec<u32>, NoMemory>
    requires { IsDistinct ◌==◌ tasks.now }
    ensures tasks { IfOk result (λ numbers. numbers.items ≡ tasks.now) }
    ensures few { IfOk result (λ numbers. length numbers.items ≤ 2 ^ 32) }
{
    Ok(Vec::from_slice(alloc, tasks)?)
}

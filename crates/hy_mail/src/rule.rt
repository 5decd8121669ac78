//! The rule that a mailbox of threads keeps between any two steps, and the kinds of step on it.

use crate::parcel::{Parcel, Posted};
use crossbeam_queue::protocol::{Join, Lesson, Outcome, Protocol, Split};
use std::collections::LinkedList;
use std::marker::PhantomData;

/// What a pass of a mailbox knows: whether it takes or sends, its number as a sender, how many numbers it has dealt,
/// the arity of the mailbox, what it put and took, and what the senders that it took in had put. Proofs alone have
/// such values.
pub struct MailView {
    pub takes: bool,
    pub sends: bool,
    pub from: u32,
    pub made: u32,
    pub arity: usize,
    pub put: LinkedList<Parcel>,
    pub took: LinkedList<Posted>,
    pub known: LinkedList<LinkedList<Parcel>>,
}

/// What each sender put is what was taken of it, and then what the mailbox holds of it.
pub struct InOrder;

impl Protocol<Posted, MailView> for InOrder {
    ghost use Rattle.hy_mail.specs.Mails.{Mails, maker};

    ghost holds = { Mails };

    ghost first = { maker };
}

/// The arity of a mailbox, which the call that makes it picks.
pub trait Made {
    ghost use Rattle.std.specs.Prelude.{ℕ};

    ghost arity: { ℕ };
}

impl Made for std::marker::Brand {
    ghost arity = { 0 };
}

/// The next number goes to a new pass.
pub struct Deal<K: Made> {
    of: PhantomData<K>,
}

impl<K: Made> Split<MailView> for Deal<K> {
    ghost use Rattle.hy_mail.specs.Mails.{dealt, sender};

    ghost left = { λ v. dealt K.arity v };

    ghost right = { λ v. sender v.made K.arity };
}

/// A sender's pass is taken in.
pub struct TakeIn;

impl Join<MailView> for TakeIn {
    ghost use Rattle.hy_mail.specs.Mails.{joined, spent as nothing};

    ghost both = { joined };

    ghost spent = { nothing };
}

pub struct Push;

impl Outcome<Posted, MailView> for Push {
    ghost use Rattle.std.specs.Prelude.{◌≡◌};
    ghost use Rattle.hy_mail.specs.Mails.{pushing};

    ghost then = { λ v x w. w ≡ pushing v x };
}

impl Lesson<Posted, MailView> for Push {
    ghost use Rattle.hy_mail.specs.Mails.{KnowsPut};

    ghost fact = { KnowsPut };
}

pub struct Pop;

impl Outcome<Posted, MailView> for Pop {
    ghost use Rattle.hy_mail.specs.Mails.{Popped};

    ghost then = { Popped };
}

impl Lesson<Posted, MailView> for Pop {
    ghost use Rattle.hy_mail.specs.Mails.{KnowsWords};

    ghost fact = { KnowsWords };
}

/// What is known once all senders were taken in.
pub struct Settled;

impl Lesson<Posted, MailView> for Settled {
    ghost use Rattle.hy_mail.specs.Mails.{KnowsAll};

    ghost fact = { KnowsAll };
}

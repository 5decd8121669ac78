//! A mailbox that threads share, and its passes.
ghost use Rattle.std.specs.Prelude.{◌≡◌, ◌<◌, [], ◌∷◌, ◌++◌, ℕ, length, map, false, slice_index_or, true, IfOk};
ghost use Rattle.std.specs.List.{Contains};
ghost use Rattle.crossbeam_queue.specs.Passes.{IsPassOf, view};
ghost use Rattle.hy_mail.specs.declared.parcel.Parcel.TheVariants.{Close};
ghost use Rattle.hy_mail.specs.DeskRuns.{of_sender};
ghost use Rattle.hy_mail.specs.Mails.{IsMaker, IsTaker, KnowsAll, dealt, joined};
ghost use Rattle.hy_mail.specs.Passes.{AreFresh, AreNumbered, AreSendsOf, IsSendOf, IsTakeOf, Settles, TellsMailPut, TellsMailTake, fresh_by, fresh_take};
ghost use Rattle.hy_mail.specs.Tokens.{id_of};
ghost use Rattle.hy_mail.specs.Words.{HasArity, may};

use crate::parcel::{Parcel, Posted, PutAnswer};
use crate::rule::{Deal, InOrder, Made, MailView, Pop, Push, Settled, TakeIn};
use al_value::NoMemory;
use crossbeam_queue::{Pass, RuledArrayQueue};
use hy_frame::WriterState;
use std::alloc::Global;
use std::marker::{Brand, Model};
use std::sync::Wait;

type Line = RuledArrayQueue<Posted, MailView, InOrder>;

type Token = Pass<Posted, MailView>;

/// A mailbox that threads share. Contracts see which one it is, how many senders it has, how many parcels it holds at
/// most, and the arity of its frames. What it holds they can't see, since others put and take meanwhile.
#[derive(Drop)]
pub struct Mailbox {
    line: Line,
    senders: u32,
    arity: usize,
}

impl Model for Mailbox {
    ghost use Rattle.crossbeam_queue.specs.Passes.{ruled_capacity};
    ghost use Rattle.hy_mail.specs.Passes.{MailboxState};
    ghost use Rattle.hy_mail.specs.Tokens.{id_of};

    ghost Value = { MailboxState };

    ghost view = { λ m. record { id = id_of m.line; senders = m.senders; capacity = ruled_capacity m.line; arity = m.arity } };
}

/// A sender's pass at a mailbox. Contracts see its number, what it put, how far its word has come, and how often it
/// found the mailbox full.
#[derive(Drop)]
pub struct SendPass {
    token: Token,
    number: u32,
    word: WriterState,
    refused: u64,
}

impl Model for SendPass {
    ghost use Rattle.std.specs.Prelude.{◌≡◌, []};
    ghost use Rattle.hy_mail.specs.Mails.{IsSender};
    ghost use Rattle.hy_mail.specs.Passes.{SendState};

    ghost Value = { SendState };

    ghost view = { λ p. record { mailbox = p.token.table_id; number = p.number; arity = p.token.me.0.client.arity; word = p.word; put = p.token.me.0.client.put; refused = p.refused } };

    ghost invariant = { λ p. (p.token.me.1 ≡ []) × IsSender p.number p.word p.token.me.0.client };
}

/// The taker's pass at a mailbox. Contracts see what it took, and how often it found the mailbox empty.
#[derive(Drop)]
pub struct TakePass {
    token: Token,
    refused: u64,
}

impl Model for TakePass {
    ghost use Rattle.std.specs.Prelude.{◌≡◌, []};
    ghost use Rattle.hy_mail.specs.Mails.{IsTaker};
    ghost use Rattle.hy_mail.specs.Passes.{TakeState};

    ghost Value = { TakeState };

    ghost view = { λ p. record { mailbox = p.token.table_id; senders = p.token.me.0.client.made; arity = p.token.me.0.client.arity; took = p.token.me.0.client.took; refused = p.refused } };

    ghost invariant = { λ p. (p.token.me.1 ≡ []) × IsTaker p.token.me.0.client };
}

impl Mailbox {
    /// An empty mailbox with a pass for each sender, by number, and the taker's. It takes all memory that their calls
    /// will need.
    pub fn new(
        alloc: Global,
        senders: u32,
        capacity: usize,
        arity: usize,
    ) -> Result<(Mailbox, Vec<SendPass>, TakePass), NoMemory>
        requires some { 0 < senders }
        requires room { 0 < capacity }
        ensures mailbox { IfOk result (λ r. (r.0.senders ≡ senders) × (r.0.capacity ≡ capacity) × (r.0.arity ≡ arity)) }
        ensures count { IfOk result (λ r. length r.1.items ≡ senders) }
        ensures senders { IfOk result (λ r. AreFresh r.0 r.1.items) }
        ensures taker { IfOk result (λ r. r.2 ≡ fresh_take r.0) }
    {
        let (line, mut maker) = Line::ruled(alloc, capacity)?;
        let mut passes = Vec::new(alloc);
        passes.reserve(senders as usize)?;
        for number in 0..senders {
            let pass = deal::<Brand>(&line, &mut maker, number, arity);
            passes.push_reserved(pass);
        }
        let taker = TakePass {
            token: maker,
            refused: 0,
        };
        Ok((
            Mailbox {
                line,
                senders,
                arity,
            },
            passes,
            taker,
        ))
    }

    /// Puts the parcel, or hands it back where the mailbox was full at this call's step. Where others take all the
    /// time, nothing is said of whether it returns.
    pub fn put<W: Wait>(&self, rt: &W, pass: &mut SendPass, parcel: Parcel) -> PutAnswer
        requires mine { IsSendOf self.now pass.old }
        requires fits { may pass.old.word parcel ≡ true }
        requires arity { HasArity self.now.arity parcel }
        ensures { TellsMailPut self.now pass.old parcel pass.new result }
    {
        let word = parcel.leads(pass.word);
        let posted = Posted {
            from: pass.number,
            parcel,
        };
        match self.line.push_as::<Push, W>(rt, &mut pass.token, posted) {
            Ok(()) => {
                pass.word = word;
                PutAnswer::Put
            }
            Err(back) => {
                pass.refused = pass.refused.saturating_add(1);
                PutAnswer::Full(back.parcel)
            }
        }
    }

    /// Takes the front, with its sender's number, or nothing where the mailbox was empty at this call's step.
    pub fn take<W: Wait>(&self, rt: &W, pass: &mut TakePass) -> Option<(u32, Parcel)>
        requires mine { IsTakeOf self.now pass.old }
        ensures { TellsMailTake pass.old pass.new result }
    {
        match self.line.pop_as::<Pop, W>(rt, &mut pass.token) {
            Some(posted) => Some((posted.from, posted.parcel)),
            None => {
                pass.refused = pass.refused.saturating_add(1);
                None
            }
        }
    }

    /// Ends a mailbox, once each sender's Close was taken: what was taken of each sender is what that sender put. The
    /// passes come in the order of their numbers.
    pub fn settle(self, senders: Vec<SendPass>, taker: TakePass)
        requires senders { AreSendsOf self senders.items }
        requires taker { IsTakeOf self taker }
        requires closed { (k : ℕ) → k < self.senders → Contains (of_sender k taker.took) Close }
        ensures { Settles senders.items taker.took }
    {
        let Mailbox { line, .. } = self;
        let mut all = taker.token;
        gather(&line, &mut all, senders);
        learn(&line, &mut all);
    }
}

/// The pass of the next number. The first one settles the arity.
fn deal<K: Made>(line: &Line, maker: &mut Token, number: u32, arity: usize) -> SendPass
    requires picked { K.arity ≡ arity }
    requires mine { IsPassOf line.now maker.old }
    requires maker { IsMaker number arity (view maker.old) }
    ensures mine { IsPassOf line.now maker.new }
    ensures maker { view maker.new ≡ dealt arity (view maker.old) }
    ensures dealt { result ≡ fresh_by (id_of line.now) arity number }
{
    let token = line.another::<Deal<K>>(maker);
    SendPass {
        token,
        number,
        word: WriterState::Initial,
        refused: 0,
    }
}

/// The token then knows what the sender put.
fn take_in(line: &Line, all: &mut Token, pass: SendPass)
    requires mine { IsPassOf line.now all.old × (pass.mailbox ≡ id_of line.now) }
    requires taker { ((view all.old).takes ≡ true) × ((view all.old).sends ≡ false) }
    requires next { pass.number ≡ length (view all.old).known }
    ensures mine { IsPassOf line.now all.new }
    ensures known { view all.new ≡ record (view all.old) { known = (view all.old).known ++ pass.put ∷ [] } }
{
    line.absorb::<TakeIn>(all, pass.token);
}

/// The token then knows what each sender put.
fn gather(line: &Line, all: &mut Token, senders: Vec<SendPass>)
    requires mine { IsPassOf line.now all.old }
    requires taker { IsTaker (view all.old) }
    requires senders { AreNumbered (id_of line.now) senders.items }
    ensures mine { IsPassOf line.now all.new }
    ensures known { view all.new ≡ record (view all.old) { known = map (λ s. s.put) senders.items } }
{
    for pass in senders {
        take_in(line, all, pass);
    }
}

/// Of each sender that was taken in, what it put is what was taken of it and what is left.
fn learn(line: &Line, all: &mut Token)
    requires mine { IsPassOf line.now all.old }
    requires taker { (view all.old).takes ≡ true }
    ensures { (items : _) × KnowsAll (view all.old) items }
{
    line.learn_as::<Settled>(all);
}

//! What a merging taker knows of its senders.
ghost use Rattle.std.specs.Prelude.{◌≡◌, ◌≢◌, ◌+◌, ◌<◌, ◌≤◌, [], length, IfNone, IfOk, IfSome, true, false};
ghost use Rattle.hy_frame.specs.FrameText.{AllRows};
ghost use Rattle.hy_frame.specs.Row.{IsRow};
ghost use Rattle.hy_mail.specs.Words.{HasArity};
ghost use Rattle.hy_connect.specs.Outlets.{held_in};
ghost use Rattle.hy_connect.specs.Sources.{AllClosed, AreBare, AreNew, HasGiven, IsWanted, Lacks, LetGo, LetsGo, NoneLacks, Returns, TellsLeast, TellsOne, TellsTake, advanced, bare, closing, first_at, first_in, first_of, frames_held, given, hand, is_before, keeping, lesser_of, new_source};

use crate::taker::Taken;
use al_value::{NoMemory, SortKey};
use hy_frame::{Bank, Frame, RowRef};
use hy_mail::{Parcel, Port};
use hy_rows::cmp_rows;
use std::alloc::Global;
use std::marker::Model;

/// A sender of a merging wire: its mailbox, whether its Close was taken, and the frame at hand, of which so many rows
/// were given.
#[derive(Drop)]
pub(crate) struct Source {
    mailbox: u32,
    closed: bool,
    frame: Option<Frame>,
    next: usize,
}

impl Model for Source {
    ghost use Rattle.hy_connect.specs.Sources.{SourceOf};

    ghost Value = { SourceOf };

    ghost view = { λ s. record { mailbox = s.mailbox; closed = s.closed; frame = s.frame; next = s.next } };
}

impl Source {
    pub(crate) fn new(mailbox: u32) -> Source
        ensures { result ≡ new_source mailbox }
    {
        Source {
            mailbox,
            closed: false,
            frame: None,
            next: 0,
        }
    }

    pub(crate) fn is_closed(&self) -> bool
        ensures { result ≡ self.now.closed }
    {
        self.closed
    }

    /// The first row at hand.
    pub(crate) fn first(&self) -> Option<RowRef<'_>>
        ensures { result ≡ first_of (hand self.now) }
    {
        let Some(frame) = &self.frame else {
            return None;
        };
        if self.next < frame.rows() {
            Some(frame.row(self.next))
        } else {
            None
        }
    }

    /// Whether a row is at hand.
    fn has_row(&self) -> bool
        ensures yes { result ≡ true → hand self.now ≢ [] }
        ensures no { result ≡ false → hand self.now ≡ [] }
    {
        let Some(frame) = &self.frame else {
            return false;
        };
        self.next < frame.rows()
    }

    /// Whether the sender hasn't closed and no row of it is at hand.
    fn lacks(&self) -> bool
        ensures yes { result ≡ true → Lacks self.now }
        ensures no { result ≡ false → Lacks self.now → ⊥ }
    {
        !self.closed && !self.has_row()
    }

    /// The row that was given last.
    pub(crate) fn given(&self) -> RowRef<'_>
        requires { HasGiven self.now }
        ensures row { result ≡ given self.now }
        ensures fields { IsRow (length (given self.now)) (given self.now) }
    {
        let Some(frame) = &self.frame else {
            unreachable!()
        };
        frame.row(self.next - 1)
    }

    /// Goes on to the next row at hand.
    pub(crate) fn advance(&mut self)
        requires { hand self.old ≢ [] }
        ensures { self.new ≡ advanced self.old }
    {
        let Some(frame) = &self.frame else {
            unreachable!()
        };
        if frame.rows() <= self.next {
            unreachable!()
        }
        self.next += 1;
    }

    fn take_frame(&mut self) -> Option<Frame>
        ensures frame { result ≡ self.old.frame }
        ensures after { self.new ≡ bare self.old }
    {
        self.frame.take()
    }

    /// Gives the frame at hand back.
    pub(crate) fn give_back(&mut self, bank: &mut Bank)
        requires { held_in self.old.frame ≤ bank.old.out }
        ensures source { self.new ≡ bare self.old }
        ensures bank { Returns (held_in self.old.frame) 0 bank.old bank.new }
    {
        let Some(frame) = self.take_frame() else {
            return;
        };
        bank.give(frame);
    }

    /// Gives the frame at hand back where all its rows were given.
    pub(crate) fn let_go(&mut self, bank: &mut Bank)
        requires { held_in self.old.frame ≤ bank.old.out }
        ensures source { LetsGo self.old self.new }
        ensures bank { Returns (held_in self.old.frame) (held_in self.new.frame) bank.old bank.new }
    {
        if self.has_row() {
            return;
        }
        self.give_back(bank);
    }

    /// Keeps a frame at hand, or hands it on.
    fn keep(&mut self, frame: Frame, hands_on: bool) -> Taken
        ensures handed { hands_on ≡ true → (result ≡ Taken.Frame frame) × (self.new ≡ self.old) }
        ensures kept { hands_on ≡ false → (result ≡ Taken.Kept) × (self.new ≡ keeping frame self.old) }
        ensures rows { AllRows frame.arity frame.rows }
    {
        // Its count tells what the frame's rows are.
        let _rows = frame.rows();
        if hands_on {
            return Taken::Frame(frame);
        }
        self.frame = Some(frame);
        self.next = 0;
        Taken::Kept
    }

    fn close(&mut self)
        ensures { self.new ≡ closing self.old }
    {
        self.closed = true;
    }

    /// Takes what comes next of the sender, and gives the frame that was at hand back. A frame that comes is kept, or
    /// handed on.
    pub(crate) fn take<P: Port>(&mut self, hands_on: bool, port: &mut P, bank: &mut Bank) -> Taken
        requires receives { P.receives port.old self.old.mailbox }
        requires one { P.senders port.old self.old.mailbox ≡ 1 }
        requires held { held_in self.old.frame ≤ bank.old.out }
        requires room { bank.old.out < bank.old.limit }
        ensures told { TellsTake P.happens port.old port.new bank.old bank.new hands_on self.old self.new result }
        ensures rows { AllRows (P.arity port.old self.old.mailbox) (hand self.new) }
        ensures kept { P.keeps port.old port.new }
    {
        self.give_back(bank);
        let Some(parcel) = take_one(self.mailbox, port) else {
            return Taken::Empty;
        };
        match parcel {
            Parcel::Open => Taken::Word,
            Parcel::Frame(sent) => self.keep(bank.import(sent), hands_on),
            Parcel::Fail => Taken::Failed,
            Parcel::Close => {
                self.close();
                Taken::Word
            }
        }
    }
}

/// Takes the front of a mailbox with one sender.
fn take_one<P: Port>(mailbox: u32, port: &mut P) -> Option<Parcel>
    requires receives { P.receives port.old mailbox }
    requires one { P.senders port.old mailbox ≡ 1 }
    ensures took { TellsOne P.happens port.old mailbox port.new result }
    ensures arity { IfSome result (λ parcel. HasArity (P.arity port.old mailbox) parcel) }
    ensures kept { P.keeps port.old port.new }
{
    let Some((_, parcel)) = port.take(mailbox) else {
        return None;
    };
    Some(parcel)
}

/// What is known of the senders that put into these mailboxes before anything was taken.
pub(crate) fn make_sources(alloc: Global, boxes: &[u32]) -> Result<Vec<Source>, NoMemory>
    ensures { IfOk result (λ sources. AreNew boxes.now sources.items) }
{
    let mut sources = Vec::with_capacity(alloc, boxes.len())?;
    for mailbox in boxes {
        sources.push(Source::new(*mailbox))?;
    }
    Ok(sources)
}

/// Whether every sender's Close was taken.
pub(crate) fn all_closed(sources: &[Source]) -> bool
    ensures yes { result ≡ true → AllClosed sources.now }
    ensures no { result ≡ false → AllClosed sources.now → ⊥ }
{
    for source in sources {
        if !source.is_closed() {
            return false;
        }
    }
    true
}

/// The first of them whose row has to be taken before it is known which row is next.
pub(crate) fn wanted(sources: &[Source]) -> Option<usize>
    ensures some { IfSome result (λ s. IsWanted sources.now s) }
    ensures none { IfNone result (NoneLacks sources.now) }
{
    for (s, source) in sources.iter().enumerate() {
        if source.lacks() {
            return Some(s);
        }
    }
    None
}

/// Gives each frame back of which all rows were given.
pub(crate) fn let_all_go(sources: &mut Vec<Source>, bank: &mut Bank)
    requires { frames_held sources.old.items ≤ bank.old.out }
    ensures sources { LetGo sources.old.items sources.new.items }
    ensures bank { Returns (frames_held sources.old.items) (frames_held sources.new.items) bank.old bank.new }
{
    for s in 0..sources.len() {
        sources[s].let_go(bank);
    }
}

/// Gives each frame back.
pub(crate) fn give_all_back(sources: &mut Vec<Source>, bank: &mut Bank)
    requires { frames_held sources.old.items ≤ bank.old.out }
    ensures sources { AreBare sources.old.items sources.new.items }
    ensures bank { Returns (frames_held sources.old.items) (frames_held sources.new.items) bank.old bank.new }
{
    for s in 0..sources.len() {
        sources[s].give_back(bank);
    }
}

/// Whether the first row of the sender in place `k` is less than that of the one in place `least`, if there is one.
fn is_less(keys: &[SortKey], sources: &[Source], k: usize, least: Option<usize>) -> bool
    requires there { k < length sources.now }
    requires least { IfSome least (λ j. j < length sources.now) }
    ensures { result ≡ is_before keys.now (first_at sources.now k) (first_in sources.now least) }
{
    let Some(row) = sources[k].first() else {
        return false;
    };
    let Some(j) = least else {
        return true;
    };
    let Some(other) = sources[j].first() else {
        return true;
    };
    cmp_rows(keys, &row, &other).is_lt()
}

/// The place `k`, where its sender's first row is less than that of the one in place `least`, and else that place.
fn lesser(keys: &[SortKey], sources: &[Source], k: usize, least: Option<usize>) -> Option<usize>
    requires there { k < length sources.now }
    requires least { IfSome least (λ j. j < length sources.now) }
    ensures { result ≡ lesser_of keys.now sources.now k least }
{
    if is_less(keys, sources, k, least) {
        Some(k)
    } else {
        least
    }
}

/// The first sender whose first row at hand is the least by the keys. There are so few senders that a look at each costs
/// less than a heap of their rows, and takes no memory.
pub(crate) fn least_of(keys: &[SortKey], sources: &[Source]) -> Option<usize>
    ensures { TellsLeast keys.now sources.now result }
{
    let mut least = None;
    for k in 0..sources.len() {
        least = lesser(keys, sources, k, least);
    }
    least
}

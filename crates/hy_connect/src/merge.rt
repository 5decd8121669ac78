//! What a task takes from where the wire merges.
ghost use Rattle.std.specs.Prelude.{◌≡◌, ◌≢◌, ◌<◌, ◌≤◌, ℕ, None, length, true, false, IfNone, IfOk, IfSome};
ghost use Rattle.hy_connect.specs.Merges.{BeginsBy, GivesUp, IsMerging, IsNewMerger, MayTake, TellsMergeTake, TellsMerged, current_row, merge_keys, senders, source};
ghost use Rattle.hy_frame.specs.Row.{IsRow};
ghost use Rattle.hy_connect.specs.Sources.{AllClosed, HoldRows, IsWanted, NoneLacks, Returns, frames_held};

use crate::source::{
    Source, all_closed, give_all_back, least_of, let_all_go, make_sources, wanted,
};
use crate::taker::Taken;
use al_value::{List, NoMemory, SortKey};
use hy_frame::{Bank, RowRef};
use hy_job::Wire;
use hy_mail::Port;
use std::alloc::Global;
use std::marker::Model;

/// What `next_row` came to.
#[derive(Drop)]
pub enum Merged {
    /// The least of the first rows at hand is the current one.
    Row,
    /// The sender of this number hasn't closed and has no row at hand, so it isn't known which row is next.
    Need(u32),
    /// All senders have closed, and no row is at hand.
    End,
}

/// Takes what comes over a merging wire, from a mailbox for each sender, and gives the rows in the order of the keys
/// where each sender's rows are in that order.
#[derive(Drop)]
pub struct MergeTaker {
    keys: List<SortKey>,
    sources: Vec<Source>,
    current: Option<usize>,
    given_up: bool,
}

impl Model for MergeTaker {
    ghost use Rattle.hy_connect.specs.Merges.{IsMerger, MergerOf, merger_of};

    ghost Value = { MergerOf };

    ghost view = { λ t. merger_of t.keys t.sources.items t.current t.given_up };

    ghost invariant = { λ t. IsMerger (merger_of t.keys t.sources.items t.current t.given_up) };
}

impl MergeTaker {
    /// A taker over this wire from these mailboxes, one for each sender, in the order of the senders.
    pub fn new(
        alloc: Global,
        wire: &Wire,
        boxes: &[u32],
        senders: u32,
    ) -> Result<MergeTaker, NoMemory>
        requires wire { IsMerging wire.now }
        requires boxes { length boxes.now ≡ senders }
        ensures made { IfOk result (λ m. IsNewMerger wire.now boxes.now m) }
        ensures begins { IfOk result (λ m. BeginsBy wire.now senders m) }
    {
        let keys = copy_keys(alloc, wire)?;
        let sources = make_sources(alloc, boxes)?;
        Ok(MergeTaker {
            keys,
            sources,
            current: None,
            given_up: false,
        })
    }

    /// Whether every sender's Close was taken.
    pub fn ended(&self) -> bool
        ensures yes { result ≡ true → AllClosed self.now.sources }
        ensures no { result ≡ false → AllClosed self.now.sources → ⊥ }
    {
        all_closed(&self.sources)
    }

    /// Whose row has to be taken before `next_row` can tell which is next: the first such sender, where there is one.
    pub fn wanted(&self) -> Option<u32>
        ensures some { IfSome result (λ s. IsWanted self.now.sources s) }
        ensures none { IfNone result (NoneLacks self.now.sources) }
    {
        let s = wanted(&self.sources)?;
        Some(s as u32)
    }

    /// Takes what comes next of the sender that `wanted` names. A frame is kept at hand, or
    /// handed on after `give_up`. It takes no memory.
    pub fn take<P: Port>(&mut self, port: &mut P, bank: &mut Bank) -> Taken
        requires may { MayTake self.old }
        requires receives { (s : ℕ) → s < senders self.old → P.receives port.old (source self.old s).mailbox }
        requires one { (s : ℕ) → s < senders self.old → P.senders port.old (source self.old s).mailbox ≡ 1 }
        requires held { frames_held self.old.sources ≤ bank.old.out }
        requires room { bank.old.out < bank.old.limit }
        ensures told { TellsMergeTake P.happens port.old port.new bank.old bank.new self.old self.new result }
        ensures rows { (width : ℕ) → ((s : ℕ) → s < senders self.old → P.arity port.old (source self.old s).mailbox ≡ width) → HoldRows width self.old.sources → HoldRows width self.new.sources }
        ensures frames { self.old.given_up ≡ true → frames_held self.new.sources ≤ frames_held self.old.sources }
        ensures kept { P.keeps port.old port.new }
    {
        self.current = None;
        let Some(s) = wanted(&self.sources) else {
            return Taken::Ended;
        };
        self.sources[s].take(self.given_up, port, bank)
    }

    /// Goes on to the next row: the least by the keys of the first rows at hand, and of such rows that of the first
    /// sender. Gives back each frame whose rows are done. It takes no memory.
    pub fn next_row(&mut self, bank: &mut Bank) -> Merged
        requires held { frames_held self.old.sources ≤ bank.old.out }
        ensures told { TellsMerged bank.old bank.new self.old self.new result }
    {
        self.current = None;
        let_all_go(&mut self.sources, bank);
        if let Some(s) = wanted(&self.sources) {
            return Merged::Need(s as u32);
        }
        let Some(k) = least_of(self.keys.as_slice(), &self.sources) else {
            return Merged::End;
        };
        self.sources[k].advance();
        self.current = Some(k);
        Merged::Row
    }

    /// The row that `next_row` went on to.
    pub fn current(&self) -> RowRef<'_>
        requires { self.now.current ≢ None }
        ensures row { result ≡ current_row self.now }
        ensures fields { IsRow (length (current_row self.now)) (current_row self.now) }
    {
        let Some(k) = self.current else {
            unreachable!()
        };
        self.sources[k].given()
    }

    /// Gives back the frames at hand. From then on frames that come are handed on.
    pub fn give_up(&mut self, bank: &mut Bank)
        requires held { frames_held self.old.sources ≤ bank.old.out }
        ensures told { GivesUp self.old self.new }
        ensures bank { Returns (frames_held self.old.sources) 0 bank.old bank.new }
    {
        self.current = None;
        self.given_up = true;
        give_all_back(&mut self.sources, bank);
    }
}

/// A copy of the keys of a wire.
fn copy_keys(alloc: Global, wire: &Wire) -> Result<List<SortKey>, NoMemory>
    ensures { IfOk result (λ keys. keys ≡ merge_keys wire.now) }
{
    match wire {
        Wire::Merge(keys) => Ok(List::from_vec(Vec::from_slice(alloc, keys.as_slice())?)),
        Wire::OneToOne | Wire::Hash(_) | Wire::Broadcast | Wire::Gather => Ok(List::new(alloc)),
    }
}

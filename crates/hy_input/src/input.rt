//! One input of a task.
ghost use Rattle.std.specs.Prelude.{◌≡◌, ◌≢◌, ◌+◌, ◌-◌, ◌<◌, ◌≤◌, ℕ, [], length, slice_index_or, None, Some, true, false};
ghost use Rattle.hy_frame.specs.FrameText.{AllRows};
ghost use Rattle.hy_frame.specs.Row.{IsRow};
ghost use Rattle.hy_connect.specs.Outlets.{held_in};
ghost use Rattle.hy_connect.specs.Sources.{HoldRows, IsWanted, Returns, frame_rows, frames_held};
ghost use Rattle.hy_connect.specs.Merges.{senders, source};
ghost use Rattle.hy_input.specs.Inputs.{ComesAs, GivesUp, HasEnded, HasGiven, HasOne, HoldsRows, IsStill, KeepsRows, ReceivesBy, TellsAdvanced, TellsBank, TellsCame, TellsTakenOfMerge, Wants, given, hand, has_given_up, held, held_by, input_of, kept_by};

use crate::taker::{Taker, take_plain};
use hy_connect::{MergeTaker, Merged, Taken};
use hy_frame::{Bank, Frame, RowRef};
use hy_mail::Port;
use std::marker::Model;

/// What a take came to.
#[derive(Clone, Copy, Debug, PartialEq, Eq)]
pub enum Came {
    /// The mailbox was empty.
    Empty,
    /// A frame.
    Rows,
    /// An Open or a Close.
    Word,
    /// A Fail.
    Failed,
}

/// What comes into a task at one input. A frame that comes is kept at hand, and its rows are gone
/// through one by one.
#[derive(Drop)]
pub struct Input {
    taker: Taker,
    from: u32,
    frame: Option<Frame>,
    next: usize,
    given_up: bool,
}

impl Model for Input {
    ghost use Rattle.hy_input.specs.Inputs.{InputOf, IsInput, input_of};

    ghost Value = { InputOf };

    ghost view = { λ i. input_of i.taker i.from i.frame i.next i.given_up };

    ghost invariant = { λ i. IsInput (input_of i.taker i.from i.frame i.next i.given_up) };
}

impl Input {
    /// An input of a task in this partition.
    pub fn new(taker: Taker, partition: u32) -> Input
        requires { HasOne taker }
        ensures { result ≡ input_of taker partition None 0 false }
    {
        Input {
            taker,
            from: partition,
            frame: None,
            next: 0,
            given_up: false,
        }
    }

    /// Whether every sender's Close was taken.
    pub fn has_ended(&self) -> bool
        ensures yes { result ≡ true → HasEnded self.now }
        ensures no { result ≡ false → HasEnded self.now → ⊥ }
    {
        match &self.taker {
            Taker::One(taker) => taker.ended(),
            Taker::Many(taker) => taker.ended(),
            Taker::Merge(taker) => taker.ended(),
        }
    }

    /// Whether a row of the frame at hand is left.
    fn has_left(&self) -> bool
        ensures yes { result ≡ true → hand self.now ≢ [] }
        ensures no { result ≡ false → hand self.now ≡ [] }
    {
        let Some(frame) = &self.frame else {
            return false;
        };
        self.next < frame.rows()
    }

    /// Whether nothing can be gone on to before something is taken.
    pub fn wants(&self) -> bool
        ensures yes { result ≡ true → Wants self.now }
        ensures no { result ≡ false → Wants self.now → ⊥ }
    {
        match &self.taker {
            Taker::One(taker) => !self.has_left() && !taker.ended(),
            Taker::Many(taker) => !self.has_left() && !taker.ended(),
            Taker::Merge(taker) => taker.wanted().is_some(),
        }
    }

    /// The row that `advance` went on to.
    pub fn row(&self) -> RowRef<'_>
        requires { HasGiven self.now }
        ensures row { result ≡ given self.now }
        ensures fields { IsRow (length (given self.now)) (given self.now) }
    {
        match &self.taker {
            Taker::One(_) => row_before(&self.frame, self.next),
            Taker::Many(_) => row_before(&self.frame, self.next),
            Taker::Merge(taker) => taker.current(),
        }
    }

    /// Goes on to the next row, or answers false where none comes any more. A frame whose rows are done
    /// goes back.
    pub fn advance(&mut self, bank: &mut Bank) -> bool
        requires ready { Wants self.old → ⊥ }
        requires held { held self.old ≤ bank.old.out }
        ensures told { TellsAdvanced self.old self.new result }
        ensures still { IsStill self.old self.new }
        ensures rows { (width : ℕ) → HoldsRows self.old width → KeepsRows width self.old self.new result }
        ensures bank { Returns (held self.old) (held self.new) bank.old bank.new }
    {
        if let Taker::Merge(taker) = &mut self.taker {
            return match taker.next_row(bank) {
                Merged::Row => true,
                Merged::End => false,
                Merged::Need(_) => unreachable!(),
            };
        }
        if self.go_on() {
            return true;
        }
        self.let_go(bank);
        false
    }

    /// Goes on to the next row of the frame at hand, where one is left.
    fn go_on(&mut self) -> bool
        ensures some { result ≡ true → hand self.old ≢ [] }
        ensures yes { result ≡ true → self.new ≡ input_of self.old.taker self.old.from self.old.frame (self.old.next + 1) self.old.given_up }
        ensures no { result ≡ false → (hand self.old ≡ []) × (self.new ≡ self.old) }
    {
        let Some(frame) = &self.frame else {
            return false;
        };
        if self.next < frame.rows() {
            self.next += 1;
            return true;
        }
        false
    }

    /// Takes what comes next. A frame is kept at hand, or goes back at once after `give_up`. It takes no
    /// memory.
    pub fn take<P: Port>(&mut self, port: &mut P, bank: &mut Bank) -> Came
        requires wants { Wants self.old }
        requires receives { ReceivesBy (P.receives port.old) (P.senders port.old) self.old.taker }
        requires held { held self.old ≤ bank.old.out }
        requires room { bank.old.out < bank.old.limit }
        ensures told { TellsCame P.happens port.old port.new self.old self.new result }
        ensures still { IsStill self.old self.new }
        ensures rows { (width : ℕ) → ComesAs (P.arity port.old) self.old width → HoldsRows self.old width → HoldsRows self.new width }
        ensures none { has_given_up self.old ≡ true → held self.old ≡ 0 → held self.new ≡ 0 }
        ensures bank { TellsBank (held self.old) (held self.new) bank.old bank.new result }
        ensures kept { P.keeps port.old port.new }
    {
        if let Taker::Merge(taker) = &mut self.taker {
            return take_merged(taker, port, bank);
        }
        self.let_go(bank);
        match take_plain(&mut self.taker, port, bank) {
            Taken::Empty => Came::Empty,
            Taken::Frame(frame) => {
                self.keep(bank, frame);
                Came::Rows
            }
            Taken::Word => Came::Word,
            Taken::Failed => Came::Failed,
            Taken::Kept | Taken::Ended => unreachable!(),
        }
    }

    /// Keeps a frame that came at hand, or gives it back.
    fn keep(&mut self, bank: &mut Bank, frame: Frame)
        requires none { self.old.frame ≡ None }
        requires out { 0 < bank.old.out }
        ensures input { self.new ≡ kept_by self.old.given_up frame self.old }
        ensures rows { AllRows frame.arity frame.rows }
        ensures bank { Returns (1 + held_by self.old.taker) (held self.new) bank.old bank.new }
    {
        // Its count tells what the frame's rows are.
        let _rows = frame.rows();
        if self.given_up {
            bank.give(frame);
            return;
        }
        self.frame = Some(frame);
        self.next = 0;
    }

    /// Lets the frame at hand go back.
    fn let_go(&mut self, bank: &mut Bank)
        requires { held_in self.old.frame ≤ bank.old.out }
        ensures input { self.new ≡ input_of self.old.taker self.old.from None 0 self.old.given_up }
        ensures bank { Returns (held_in self.old.frame) 0 bank.old bank.new }
    {
        self.next = 0;
        if let Some(frame) = self.frame.take() {
            bank.give(frame);
        }
    }

    /// Gives all frames at hand back. From then on frames that come go back at once. It takes no memory.
    pub fn give_up(&mut self, bank: &mut Bank)
        requires { held self.old ≤ bank.old.out }
        ensures told { GivesUp self.old self.new }
        ensures still { IsStill self.old self.new }
        ensures rows { (width : ℕ) → HoldsRows self.old width → HoldsRows self.new width }
        ensures bank { Returns (held self.old) 0 bank.old bank.new }
    {
        self.let_go(bank);
        self.given_up = true;
        if let Taker::Merge(taker) = &mut self.taker {
            taker.give_up(bank);
        }
    }
}

/// The row before this place of a frame.
fn row_before(frame: &Option<Frame>, next: usize) -> RowRef<'_>
    requires some { 0 < next }
    requires there { next ≤ length (frame_rows frame.now) }
    ensures row { result ≡ slice_index_or (frame_rows frame.now) (next - 1) [] }
    ensures fields { IsRow (length (slice_index_or (frame_rows frame.now) (next - 1) [])) (slice_index_or (frame_rows frame.now) (next - 1) []) }
{
    let Some(frame) = frame else { unreachable!() };
    frame.row(next - 1)
}

/// Takes what comes next of a merge.
fn take_merged<P: Port>(taker: &mut MergeTaker, port: &mut P, bank: &mut Bank) -> Came
    requires wants { (s : ℕ) × IsWanted taker.old.sources s }
    requires receives { (s : ℕ) → s < senders taker.old → P.receives port.old (source taker.old s).mailbox × (P.senders port.old (source taker.old s).mailbox ≡ 1) }
    requires held { frames_held taker.old.sources ≤ bank.old.out }
    requires room { bank.old.out < bank.old.limit }
    ensures told { TellsTakenOfMerge P.happens port.old port.new taker.old taker.new result }
    ensures rows { (width : ℕ) → ((s : ℕ) → s < senders taker.old → P.arity port.old (source taker.old s).mailbox ≡ width) → HoldRows width taker.old.sources → HoldRows width taker.new.sources }
    ensures frames { taker.old.given_up ≡ true → frames_held taker.new.sources ≤ frames_held taker.old.sources }
    ensures bank { TellsBank (frames_held taker.old.sources) (frames_held taker.new.sources) bank.old bank.new result }
    ensures kept { P.keeps port.old port.new }
{
    match taker.take(port, bank) {
        Taken::Empty => Came::Empty,
        Taken::Frame(frame) => {
            bank.give(frame);
            Came::Rows
        }
        Taken::Kept => Came::Rows,
        Taken::Word => Came::Word,
        Taken::Failed => Came::Failed,
        Taken::Ended => unreachable!(),
    }
}

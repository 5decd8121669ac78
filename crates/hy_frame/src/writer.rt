//! What a writer of frames is.
ghost use Rattle.std.specs.Prelude.{◌≡◌, ◌⊎◌, ◌+◌, ◌≤◌};

use crate::bank::Bank;
use crate::fault::NoMemory;
use crate::frame::Frame;

/// How far a writer's word has come.
#[derive(Clone, Copy, Debug, PartialEq, Eq)]
pub enum WriterState {
    Initial,
    Opened,
    Failed,
    Closed,
}

/// What takes frames: it is opened, takes any number of them, and is closed, perhaps after it
/// failed. A writer's room is reserved when it is made.
pub trait FrameWriter {
    ghost use Rattle.std.specs.Prelude.{ℕ};
    ghost use Rattle.hy_frame.specs.declared.writer.WriterState.{WriterState};

    // How far the writer's word has come.
    ghost at: { Self → WriterState };

    // How many fields its rows have, and the size of its frames.
    ghost arity: { Self → ℕ };

    ghost unit: { Self → ℕ };

    // How many frames it holds, and how many more one call of `next_frame` may need.
    ghost held: { Self → ℕ };

    ghost most: { Self → ℕ };

    fn state(&self) -> WriterState
        ensures { result ≡ at self.now };

    fn open(&mut self)
        requires { at self.old ≡ WriterState.Initial }
        ensures opened { at self.new ≡ WriterState.Opened }
        ensures held { held self.new ≡ held self.old }
        ensures made { (arity self.new ≡ arity self.old) × (unit self.new ≡ unit self.old) × (most self.new ≡ most self.old) };

    /// Takes a frame, which is spent also where memory is wanting; then `fail` must follow.
    fn next_frame(&mut self, bank: &mut Bank, frame: Frame) -> Result<(), NoMemory>
        requires opened { at self.old ≡ WriterState.Opened }
        requires arity { frame.arity ≡ arity self.old }
        requires units { (frame.unit ≡ unit self.old) × (bank.old.unit ≡ unit self.old) }
        requires room { bank.old.out + most self.old ≤ bank.old.limit }
        requires out { held self.old + 1 ≤ bank.old.out }
        ensures opened { at self.new ≡ WriterState.Opened }
        ensures out { bank.new.out + (held self.old + 1) ≡ bank.old.out + held self.new }
        ensures bank { (bank.new.unit ≡ bank.old.unit) × (bank.new.limit ≡ bank.old.limit) }
        ensures made { (arity self.new ≡ arity self.old) × (unit self.new ≡ unit self.old) × (most self.new ≡ most self.old) };

    /// Gives back the frames that the writer holds.
    fn fail(&mut self, bank: &mut Bank)
        requires opened { at self.old ≡ WriterState.Opened }
        requires units { bank.old.unit ≡ unit self.old }
        requires out { held self.old ≤ bank.old.out }
        ensures failed { at self.new ≡ WriterState.Failed }
        ensures empty { held self.new ≡ 0 }
        ensures out { bank.new.out + held self.old ≡ bank.old.out }
        ensures bank { (bank.new.unit ≡ bank.old.unit) × (bank.new.limit ≡ bank.old.limit) }
        ensures made { (arity self.new ≡ arity self.old) × (unit self.new ≡ unit self.old) × (most self.new ≡ most self.old) };

    fn close(&mut self, bank: &mut Bank)
        requires ready { (at self.old ≡ WriterState.Opened) ⊎ (at self.old ≡ WriterState.Failed) }
        requires units { bank.old.unit ≡ unit self.old }
        requires out { held self.old ≤ bank.old.out }
        ensures closed { at self.new ≡ WriterState.Closed }
        ensures empty { held self.new ≡ 0 }
        ensures out { bank.new.out + held self.old ≡ bank.old.out }
        ensures bank { (bank.new.unit ≡ bank.old.unit) × (bank.new.limit ≡ bank.old.limit) };
}

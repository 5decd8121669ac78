//! What keeps frames.
ghost use Rattle.std.specs.Prelude.{◌≡◌, ◌+◌, ◌<◌, ◌≤◌, ◌++◌, ◌∷◌, [], OnOk, OnErr, IfOk};
ghost use Rattle.hy_connect.specs.Outlets.{Lent};
ghost use Rattle.hy_frame.specs.declared.writer.WriterState.{WriterState as State};

use hy_frame::{Bank, Frame, NoMemory, Sent, WriterState};
use std::alloc::Global;
use std::marker::Model;

/// Keeps the frames of a task that has no wire, until the task hands them on.
#[derive(Drop)]
pub struct Keeper {
    frames: Vec<Sent>,
    state: WriterState,
}

impl Model for Keeper {
    ghost use Rattle.hy_output.specs.Keeper.{KeeperOf};

    ghost Value = { KeeperOf };

    ghost view = { λ k. record { frames = k.frames.items; state = k.state } };
}

impl Keeper {
    pub(crate) fn new(alloc: Global) -> Keeper
        ensures { result ≡ record { frames = []; state = WriterState.Initial } }
    {
        Keeper {
            frames: Vec::new(alloc),
            state: WriterState::Initial,
        }
    }

    pub(crate) fn state(&self) -> WriterState
        ensures { result ≡ self.now.state }
    {
        self.state
    }

    /// Goes on to this state.
    pub(crate) fn set_state(&mut self, state: WriterState)
        ensures { self.new ≡ record { frames = self.old.frames; state = state } }
    {
        self.state = state;
    }

    /// Keeps a frame. Where memory is wanting it goes back.
    pub(crate) fn keep(&mut self, bank: &mut Bank, frame: Frame) -> Result<(), NoMemory>
        requires { 0 < bank.old.out }
        ensures ok { OnOk result (self.new ≡ record { frames = self.old.frames ++ frame ∷ []; state = self.old.state }) }
        ensures err { OnErr result (self.new ≡ self.old) }
        ensures bank { Lent 1 0 bank.old bank.new }
    {
        if self.frames.reserve(1).is_err() {
            bank.give(frame);
            return Err(NoMemory);
        }
        self.frames.push_reserved(bank.export(frame));
        Ok(())
    }

    /// Lets all frames go back.
    pub(crate) fn give_up(&mut self, bank: &mut Bank)
        requires { bank.old.out < bank.old.limit }
        ensures keeper { self.new ≡ record { frames = []; state = self.old.state } }
        ensures bank { Lent 0 0 bank.old bank.new }
    {
        while let Some(sent) = self.frames.pop() {
            let frame = bank.import(sent);
            bank.give(frame);
        }
    }

    /// The frames that were kept, in order.
    pub fn into_frames(self) -> Vec<Sent>
        ensures { result.items ≡ self.frames }
    {
        self.frames
    }
}

//! What comes into a task, its operator, and what goes out.

ghost use Rattle.std.specs.Prelude.{◌≡◌, ◌≢◌, ◌+◌, ◌^◌, ◌<◌, ◌≤◌, ℕ, length, replicate, true, false, OnOk, IfOk, IfErr, IfSome, IfNone};
ghost use Rattle.hy_frame.specs.Bank.{BankOf};
ghost use Rattle.hy_frame.specs.declared.writer.WriterState.{WriterState as StateOf};
ghost use Rattle.hy_mail.specs.declared.parcel.Parcel.{Parcel as ParcelOf};
ghost use Rattle.hy_driver.specs.declared.phase.Phase.{Phase as PhaseOf};
ghost use Rattle.hy_connect.specs.Outlets.{Lent};
ghost use Rattle.hy_output.specs.Ways.{AreAsFar, HasNoFail, Posts, is_idle, mailbox_at, places, state_of};
ghost use Rattle.hy_input.specs.Inputs.{ComesAs, ReceivesBy, Wants};
ghost use Rattle.hy_pipeline.specs.Laws.{Opens};
ghost use Rattle.hy_worker.specs.Worker.{AllHaveEnded, IsFirstWanting, IsInStep, IsReady, IsWhole, Lasts, ended_at, held_inputs, input_at, pipeline};
ghost use Rattle.hy_worker.specs.Calls.{ClosesFailed, GaveUp, GivesAllUp, OperatorStays, TellsFinished, TellsOffered, TellsTook, TellsTurned, TellsWent};

use crate::laws::HasWorker;
use hy_connect::Offer;
use hy_driver::{Driver, Phase};
use hy_frame::{Bank, RowBuf, WriterState};
use hy_input::{Came, Input};
use hy_mail::Port;
use hy_output::Output;
use hy_store::{Next, OpFault};
use std::alloc::Global;

/// What a task is made of.
#[derive(Drop)]
pub struct Parts<D: Driver + Drop> {
    pub inputs: Vec<Input>,
    pub operator: D,
    pub output: Output,
}

/// What comes into a task, its operator, and what goes out. They share one bank, which is lent to each
/// call. After a call that faulted only `give_up` may follow, and behind it `close_failed`; what comes may be taken
/// and what waits may be put at any time.
#[derive(Drop)]
pub struct Pipeline<D: Driver + Drop> {
    inputs: Vec<Input>,
    operator: D,
    output: Output,
    ended: Vec<bool>,
    phase: Phase,
    row: RowBuf,
}

impl<D: Driver + Drop> HasWorker for Pipeline<D> {
    ghost use Rattle.hy_worker.specs.Worker.{worker_of};

    ghost worker = { λ p. worker_of p.inputs.items (D.seen p.operator) p.output p.ended.items p.phase (D.stored p.operator) (D.hands p.operator) };
}

impl<D: Driver + Drop> Pipeline<D> {
    /// A pipeline of a new operator's parts. Where memory is wanting they come back.
    pub fn new(alloc: Global, parts: Parts<D>) -> Result<Pipeline<D>, Parts<D>>
        requires working { (D.seen parts.operator).phase ≡ PhaseOf.Working }
        ensures inputs { IfOk result (λ p. (⟦<Pipeline<D> as HasWorker>⟧.worker p).inputs ≡ parts.inputs.items) }
        ensures operator { IfOk result (λ p. p.operator ≡ parts.operator) }
        ensures output { IfOk result (λ p. (⟦<Pipeline<D> as HasWorker>⟧.worker p).output ≡ parts.output) }
        ensures ended { IfOk result (λ p. (⟦<Pipeline<D> as HasWorker>⟧.worker p).ended ≡ replicate (length parts.inputs.items) false) }
        ensures phase { IfOk result (λ p. (⟦<Pipeline<D> as HasWorker>⟧.worker p).phase ≡ PhaseOf.Working) }
        ensures back { IfErr result (λ back. back ≡ parts) }
    {
        let Ok(ended) = Vec::from_elem(alloc, false, parts.inputs.len()) else {
            return Err(parts);
        };
        let Parts {
            inputs,
            operator,
            output,
        } = parts;
        Ok(Pipeline {
            inputs,
            operator,
            output,
            ended,
            phase: Phase::Working,
            row: RowBuf::new(alloc),
        })
    }

    /// What it was made of, as it is now.
    pub fn into_parts(self) -> Parts<D>
        ensures inputs { result.inputs.items ≡ (⟦<Pipeline<D> as HasWorker>⟧.worker self).inputs }
        ensures operator { result.operator ≡ self.operator }
        ensures output { result.output ≡ (⟦<Pipeline<D> as HasWorker>⟧.worker self).output }
    {
        Parts {
            inputs: self.inputs,
            operator: self.operator,
            output: self.output,
        }
    }

    /// How many inputs there are.
    pub fn count(&self) -> u32
        requires few { length (⟦<Pipeline<D> as HasWorker>⟧.worker self.now).inputs < 2 ^ 32 }
        ensures { result ≡ length (⟦<Pipeline<D> as HasWorker>⟧.worker self.now).inputs }
    {
        self.inputs.len() as u32
    }

    /// What the operator's last call came to.
    pub fn phase(&self) -> Phase
        ensures { result ≡ (⟦<Pipeline<D> as HasWorker>⟧.worker self.now).phase }
    {
        self.phase
    }

    /// How far the output's word has come.
    pub fn state(&self) -> WriterState
        ensures { result ≡ state_of (⟦<Pipeline<D> as HasWorker>⟧.worker self.now).output.way }
    {
        self.output.state()
    }

    /// Whether a parcel waits to be put.
    pub fn waits(&self) -> bool
        ensures yes { result ≡ true → is_idle (⟦<Pipeline<D> as HasWorker>⟧.worker self.now).output.way → ⊥ }
        ensures no { result ≡ false → is_idle (⟦<Pipeline<D> as HasWorker>⟧.worker self.now).output.way }
    {
        self.output.waits()
    }

    /// Whether the input was ended for the operator.
    pub fn has_ended(&self, input: u32) -> bool
        requires { input < length (⟦<Pipeline<D> as HasWorker>⟧.worker self.now).ended }
        ensures { result ≡ ended_at (⟦<Pipeline<D> as HasWorker>⟧.worker self.now).ended input }
    {
        self.ended[input as usize]
    }

    /// Whether something has to be taken at the input before it can be gone on at.
    pub fn wants(&self, input: u32) -> bool
        requires { input < length (⟦<Pipeline<D> as HasWorker>⟧.worker self.now).inputs }
        ensures yes { result ≡ true → Wants (input_at (⟦<Pipeline<D> as HasWorker>⟧.worker self.now).inputs input) }
        ensures no { result ≡ false → Wants (input_at (⟦<Pipeline<D> as HasWorker>⟧.worker self.now).inputs input) → ⊥ }
    {
        self.inputs[input as usize].wants()
    }

    /// Whether the input can be gone on at: it was not ended, and nothing has to be taken before.
    pub fn is_ready(&self, input: u32) -> bool
        requires there { input < length (⟦<Pipeline<D> as HasWorker>⟧.worker self.now).inputs }
        requires counted { length (⟦<Pipeline<D> as HasWorker>⟧.worker self.now).ended ≡ length (⟦<Pipeline<D> as HasWorker>⟧.worker self.now).inputs }
        ensures yes { result ≡ true → IsReady (⟦<Pipeline<D> as HasWorker>⟧.worker self.now) input }
        ensures no { result ≡ false → IsReady (⟦<Pipeline<D> as HasWorker>⟧.worker self.now) input → ⊥ }
    {
        !self.has_ended(input) && !self.wants(input)
    }

    /// The first input that can be gone on at.
    pub fn ready(&self) -> Option<u32>
        requires few { length (⟦<Pipeline<D> as HasWorker>⟧.worker self.now).inputs < 2 ^ 32 }
        requires counted { length (⟦<Pipeline<D> as HasWorker>⟧.worker self.now).ended ≡ length (⟦<Pipeline<D> as HasWorker>⟧.worker self.now).inputs }
        ensures some { IfSome result (λ k. IsReady (⟦<Pipeline<D> as HasWorker>⟧.worker self.now) k) }
        ensures none { IfNone result ((k : ℕ) → IsReady (⟦<Pipeline<D> as HasWorker>⟧.worker self.now) k → ⊥) }
    {
        for k in 0..self.count() {
            if self.is_ready(k) {
                return Some(k);
            }
        }
        None
    }

    /// The first input, from this one on, at which something has to be taken.
    pub fn wanting(&self, from: u32) -> Option<u32>
        requires few { length (⟦<Pipeline<D> as HasWorker>⟧.worker self.now).inputs < 2 ^ 32 }
        ensures some { IfSome result (λ k. IsFirstWanting (⟦<Pipeline<D> as HasWorker>⟧.worker self.now).inputs from k) }
        ensures none { IfNone result ((k : ℕ) → from ≤ k → k < length (⟦<Pipeline<D> as HasWorker>⟧.worker self.now).inputs → Wants (input_at (⟦<Pipeline<D> as HasWorker>⟧.worker self.now).inputs k) → ⊥) }
    {
        for k in from..self.count() {
            if self.wants(k) {
                return Some(k);
            }
        }
        None
    }

    /// Whether the Close of every sender was taken, at every input.
    pub fn is_over(&self) -> bool
        ensures yes { result ≡ true → AllHaveEnded (⟦<Pipeline<D> as HasWorker>⟧.worker self.now).inputs }
        ensures no { result ≡ false → AllHaveEnded (⟦<Pipeline<D> as HasWorker>⟧.worker self.now).inputs → ⊥ }
    {
        for input in &self.inputs {
            if !input.has_ended() {
                return false;
            }
        }
        true
    }

    /// A turn of the operator. A row that it gives is packed.
    pub fn turn(&mut self, bank: &mut Bank) -> Result<Next, OpFault>
        requires whole { IsWhole (⟦<Pipeline<D> as HasWorker>⟧.worker self.old) bank.old }
        requires step { IsInStep (⟦<Pipeline<D> as HasWorker>⟧.worker self.old) }
        requires going { (⟦<Pipeline<D> as HasWorker>⟧.worker self.old).phase ≢ PhaseOf.GivenUp }
        requires opened { state_of (⟦<Pipeline<D> as HasWorker>⟧.worker self.old).output.way ≡ StateOf.Opened }
        ensures told { TellsTurned (⟦<Pipeline<D> as HasWorker>⟧.worker self.old) (⟦<Pipeline<D> as HasWorker>⟧.worker self.new) result }
        ensures opened { state_of (⟦<Pipeline<D> as HasWorker>⟧.worker self.new).output.way ≡ StateOf.Opened }
        ensures inputs { (⟦<Pipeline<D> as HasWorker>⟧.worker self.new).inputs ≡ (⟦<Pipeline<D> as HasWorker>⟧.worker self.old).inputs }
        ensures lasts { Lasts (⟦<Pipeline<D> as HasWorker>⟧.worker self.old) (⟦<Pipeline<D> as HasWorker>⟧.worker self.new) }
        ensures whole { IsWhole (⟦<Pipeline<D> as HasWorker>⟧.worker self.new) bank.new }
        ensures step { OnOk result (IsInStep (⟦<Pipeline<D> as HasWorker>⟧.worker self.new)) }
    {
        match self.operator.next(bank, &mut self.row) {
            Ok(Next::Row) => {
                self.phase = Phase::Working;
                match self.output.push(bank, &self.row) {
                    Ok(()) => Ok(Next::Row),
                    Err(_) => Err(OpFault::NoMemory),
                }
            }
            Ok(Next::Work) => {
                self.phase = Phase::Working;
                Ok(Next::Work)
            }
            Ok(Next::NeedInput) => {
                self.phase = Phase::Hungry;
                Ok(Next::NeedInput)
            }
            Ok(Next::End) => {
                self.phase = Phase::Ended;
                Ok(Next::End)
            }
            Err(fault) => Err(fault),
        }
    }

    /// Goes on at an input that is ready: a row at hand is fed to the operator, and where none comes any more the
    /// input is ended for it.
    pub fn go_on(&mut self, input: u32, bank: &mut Bank) -> Result<(), OpFault>
        requires ready { IsReady (⟦<Pipeline<D> as HasWorker>⟧.worker self.old) input }
        requires whole { IsWhole (⟦<Pipeline<D> as HasWorker>⟧.worker self.old) bank.old }
        requires step { IsInStep (⟦<Pipeline<D> as HasWorker>⟧.worker self.old) }
        requires hungry { (⟦<Pipeline<D> as HasWorker>⟧.worker self.old).phase ≡ PhaseOf.Hungry }
        ensures told { TellsWent input (⟦<Pipeline<D> as HasWorker>⟧.worker self.old) (⟦<Pipeline<D> as HasWorker>⟧.worker self.new) result }
        ensures output { (⟦<Pipeline<D> as HasWorker>⟧.worker self.new).output ≡ (⟦<Pipeline<D> as HasWorker>⟧.worker self.old).output }
        ensures turns { (⟦<Pipeline<D> as HasWorker>⟧.worker self.new).operator.turns ≤ (⟦<Pipeline<D> as HasWorker>⟧.worker self.old).operator.turns + (⟦<Pipeline<D> as HasWorker>⟧.worker self.old).operator.fixed.cost }
        ensures lasts { Lasts (⟦<Pipeline<D> as HasWorker>⟧.worker self.old) (⟦<Pipeline<D> as HasWorker>⟧.worker self.new) }
        ensures whole { IsWhole (⟦<Pipeline<D> as HasWorker>⟧.worker self.new) bank.new }
        ensures step { OnOk result (IsInStep (⟦<Pipeline<D> as HasWorker>⟧.worker self.new)) }
    {
        if self.inputs[input as usize].advance(bank) {
            let row = self.inputs[input as usize].row();
            return match self.operator.feed(bank, input, row) {
                Ok(()) => {
                    self.phase = Phase::Working;
                    Ok(())
                }
                Err(fault) => Err(fault),
            };
        }
        match self.operator.end(bank, input) {
            Ok(()) => {
                self.ended[input as usize] = true;
                Ok(())
            }
            Err(fault) => Err(fault),
        }
    }

    /// Takes what comes next at an input. It takes no memory.
    pub fn take<P: Port>(&mut self, input: u32, port: &mut P, bank: &mut Bank) -> Came
        requires there { input < length (⟦<Pipeline<D> as HasWorker>⟧.worker self.old).inputs }
        requires wants { Wants (input_at (⟦<Pipeline<D> as HasWorker>⟧.worker self.old).inputs input) }
        requires receives { ReceivesBy (P.receives port.old) (P.senders port.old) (input_at (⟦<Pipeline<D> as HasWorker>⟧.worker self.old).inputs input).taker }
        requires comes { ComesAs (P.arity port.old) (input_at (⟦<Pipeline<D> as HasWorker>⟧.worker self.old).inputs input) ((⟦<Pipeline<D> as HasWorker>⟧.worker self.old).operator.fixed.width input) }
        requires whole { IsWhole (⟦<Pipeline<D> as HasWorker>⟧.worker self.old) bank.old }
        ensures told { TellsTook P.happens port.old port.new input (⟦<Pipeline<D> as HasWorker>⟧.worker self.old) (⟦<Pipeline<D> as HasWorker>⟧.worker self.new) result }
        ensures operator { self.new.operator ≡ self.old.operator }
        ensures lasts { Lasts (⟦<Pipeline<D> as HasWorker>⟧.worker self.old) (⟦<Pipeline<D> as HasWorker>⟧.worker self.new) }
        ensures whole { IsWhole (⟦<Pipeline<D> as HasWorker>⟧.worker self.new) bank.new }
        ensures step { IsInStep (⟦<Pipeline<D> as HasWorker>⟧.worker self.old) → IsInStep (⟦<Pipeline<D> as HasWorker>⟧.worker self.new) }
        ensures kept { P.keeps port.old port.new }
    {
        self.inputs[input as usize].take(port, bank)
    }

    /// Opens the output. It takes no memory.
    pub fn open(&mut self)
        requires initial { state_of (⟦<Pipeline<D> as HasWorker>⟧.worker self.old).output.way ≡ StateOf.Initial }
        ensures told { Opens (pipeline (⟦<Pipeline<D> as HasWorker>⟧.worker self.old)) (pipeline (⟦<Pipeline<D> as HasWorker>⟧.worker self.new)) }
        ensures state { state_of (⟦<Pipeline<D> as HasWorker>⟧.worker self.new).output.way ≡ StateOf.Opened }
        ensures posts { Posts ParcelOf.Open (⟦<Pipeline<D> as HasWorker>⟧.worker self.old).output.way (⟦<Pipeline<D> as HasWorker>⟧.worker self.new).output.way }
        ensures inputs { (⟦<Pipeline<D> as HasWorker>⟧.worker self.new).inputs ≡ (⟦<Pipeline<D> as HasWorker>⟧.worker self.old).inputs }
        ensures stays { OperatorStays (⟦<Pipeline<D> as HasWorker>⟧.worker self.old) (⟦<Pipeline<D> as HasWorker>⟧.worker self.new) }
        ensures operator { self.new.operator ≡ self.old.operator }
        ensures lasts { Lasts (⟦<Pipeline<D> as HasWorker>⟧.worker self.old) (⟦<Pipeline<D> as HasWorker>⟧.worker self.new) }
        ensures whole { (bank : BankOf) → IsWhole (⟦<Pipeline<D> as HasWorker>⟧.worker self.old) bank → IsWhole (⟦<Pipeline<D> as HasWorker>⟧.worker self.new) bank }
        ensures step { IsInStep (⟦<Pipeline<D> as HasWorker>⟧.worker self.old) → IsInStep (⟦<Pipeline<D> as HasWorker>⟧.worker self.new) }
    {
        self.output.open();
    }

    /// Lets what was packed go on, and ends the output's word.
    pub fn finish(&mut self, bank: &mut Bank) -> Result<(), OpFault>
        requires opened { state_of (⟦<Pipeline<D> as HasWorker>⟧.worker self.old).output.way ≡ StateOf.Opened }
        requires whole { IsWhole (⟦<Pipeline<D> as HasWorker>⟧.worker self.old) bank.old }
        ensures told { TellsFinished (⟦<Pipeline<D> as HasWorker>⟧.worker self.old) (⟦<Pipeline<D> as HasWorker>⟧.worker self.new) result }
        ensures clean { (word : ℕ → StateOf) → AreAsFar word (⟦<Pipeline<D> as HasWorker>⟧.worker self.old).output.way → OnOk result (HasNoFail (⟦<Pipeline<D> as HasWorker>⟧.worker self.new).output.way) }
        ensures inputs { (⟦<Pipeline<D> as HasWorker>⟧.worker self.new).inputs ≡ (⟦<Pipeline<D> as HasWorker>⟧.worker self.old).inputs }
        ensures stays { OperatorStays (⟦<Pipeline<D> as HasWorker>⟧.worker self.old) (⟦<Pipeline<D> as HasWorker>⟧.worker self.new) }
        ensures operator { self.new.operator ≡ self.old.operator }
        ensures lasts { Lasts (⟦<Pipeline<D> as HasWorker>⟧.worker self.old) (⟦<Pipeline<D> as HasWorker>⟧.worker self.new) }
        ensures whole { IsWhole (⟦<Pipeline<D> as HasWorker>⟧.worker self.new) bank.new }
        ensures step { IsInStep (⟦<Pipeline<D> as HasWorker>⟧.worker self.old) → IsInStep (⟦<Pipeline<D> as HasWorker>⟧.worker self.new) }
    {
        match self.output.finish(bank) {
            Ok(()) => Ok(()),
            Err(_) => Err(OpFault::NoMemory),
        }
    }

    /// Puts the first parcel that waits. It takes no memory.
    pub fn offer<P: Port>(&mut self, port: &mut P) -> Offer
        requires sends { (k : ℕ) → k < places (⟦<Pipeline<D> as HasWorker>⟧.worker self.old).output.way → P.sends port.old (mailbox_at (⟦<Pipeline<D> as HasWorker>⟧.worker self.old).output.way k) }
        requires arity { (k : ℕ) → k < places (⟦<Pipeline<D> as HasWorker>⟧.worker self.old).output.way → P.arity port.old (mailbox_at (⟦<Pipeline<D> as HasWorker>⟧.worker self.old).output.way k) ≡ (⟦<Pipeline<D> as HasWorker>⟧.worker self.old).output.arity }
        requires words { AreAsFar (P.word port.old) (⟦<Pipeline<D> as HasWorker>⟧.worker self.old).output.way }
        ensures told { TellsOffered P.happens port.old port.new (⟦<Pipeline<D> as HasWorker>⟧.worker self.old) (⟦<Pipeline<D> as HasWorker>⟧.worker self.new) result }
        ensures words { AreAsFar (P.word port.new) (⟦<Pipeline<D> as HasWorker>⟧.worker self.new).output.way }
        ensures state { state_of (⟦<Pipeline<D> as HasWorker>⟧.worker self.new).output.way ≡ state_of (⟦<Pipeline<D> as HasWorker>⟧.worker self.old).output.way }
        ensures inputs { (⟦<Pipeline<D> as HasWorker>⟧.worker self.new).inputs ≡ (⟦<Pipeline<D> as HasWorker>⟧.worker self.old).inputs }
        ensures stays { OperatorStays (⟦<Pipeline<D> as HasWorker>⟧.worker self.old) (⟦<Pipeline<D> as HasWorker>⟧.worker self.new) }
        ensures operator { self.new.operator ≡ self.old.operator }
        ensures lasts { Lasts (⟦<Pipeline<D> as HasWorker>⟧.worker self.old) (⟦<Pipeline<D> as HasWorker>⟧.worker self.new) }
        ensures whole { (bank : BankOf) → IsWhole (⟦<Pipeline<D> as HasWorker>⟧.worker self.old) bank → IsWhole (⟦<Pipeline<D> as HasWorker>⟧.worker self.new) bank }
        ensures step { IsInStep (⟦<Pipeline<D> as HasWorker>⟧.worker self.old) → IsInStep (⟦<Pipeline<D> as HasWorker>⟧.worker self.new) }
        ensures kept { P.keeps port.old port.new }
    {
        self.output.offer(port)
    }

    /// Gives up the operator and the inputs, and tells each receiver of a failure. From then on frames that come go
    /// back at once. It takes no memory.
    pub fn give_up(&mut self, bank: &mut Bank)
        requires opened { state_of (⟦<Pipeline<D> as HasWorker>⟧.worker self.old).output.way ≡ StateOf.Opened }
        requires whole { IsWhole (⟦<Pipeline<D> as HasWorker>⟧.worker self.old) bank.old }
        ensures told { GivesAllUp (⟦<Pipeline<D> as HasWorker>⟧.worker self.old) (⟦<Pipeline<D> as HasWorker>⟧.worker self.new) }
        ensures lasts { Lasts (⟦<Pipeline<D> as HasWorker>⟧.worker self.old) (⟦<Pipeline<D> as HasWorker>⟧.worker self.new) }
        ensures whole { IsWhole (⟦<Pipeline<D> as HasWorker>⟧.worker self.new) bank.new }
    {
        self.operator.give_up(bank);
        self.phase = Phase::GivenUp;
        give_inputs_up(&mut self.inputs, bank);
        self.output.fail(bank);
    }

    /// Ends the word of an output that failed. It takes no memory.
    pub fn close_failed(&mut self, bank: &mut Bank)
        requires failed { state_of (⟦<Pipeline<D> as HasWorker>⟧.worker self.old).output.way ≡ StateOf.Failed }
        requires whole { IsWhole (⟦<Pipeline<D> as HasWorker>⟧.worker self.old) bank.old }
        ensures told { ClosesFailed (⟦<Pipeline<D> as HasWorker>⟧.worker self.old) (⟦<Pipeline<D> as HasWorker>⟧.worker self.new) }
        ensures operator { self.new.operator ≡ self.old.operator }
        ensures lasts { Lasts (⟦<Pipeline<D> as HasWorker>⟧.worker self.old) (⟦<Pipeline<D> as HasWorker>⟧.worker self.new) }
        ensures whole { IsWhole (⟦<Pipeline<D> as HasWorker>⟧.worker self.new) bank.new }
    {
        self.output.close_failed(bank);
    }
}

/// Gives up each input.
fn give_inputs_up(inputs: &mut Vec<Input>, bank: &mut Bank)
    requires { held_inputs inputs.old.items ≤ bank.old.out }
    ensures inputs { GaveUp inputs.old.items inputs.new.items }
    ensures bank { Lent (held_inputs inputs.old.items) (held_inputs inputs.new.items) bank.old bank.new }
{
    for k in 0..inputs.len() {
        inputs[k].give_up(bank);
    }
}

//! A task's way to its mailboxes and to the abort word.
ghost use Rattle.std.specs.Prelude.{◌≡◌, ◌<◌, true, ℕ, IfSome};
ghost use Rattle.hy_frame.specs.declared.writer.WriterState.{WriterState};
ghost use Rattle.hy_mail.specs.declared.parcel.Parcel.{Parcel as Put_in};
ghost use Rattle.hy_mail.specs.Words.{HasArity, may};
ghost use Rattle.hy_mail.specs.Events.{Event, Look, Put, Raise, TellsPut, TellsTake, Took, refused_after, word_after};

use crate::parcel::{Parcel, PutAnswer};

/// A task's way to its mailboxes and to the abort word. What a call did is told as one event between the port before
/// and the port after: `put` put this parcel or found the mailbox full, `take` took this parcel of this sender or
/// found the mailbox empty, `raise` raised the word, and `raised` looked and saw this. What the event means for the
/// mailboxes is each port's own: on a desk it is the change of the desk.
pub trait Port {
    /// How far this task's word at a mailbox has come.
    ghost word: { Self → ℕ → WriterState };

    /// The task is a sender of this mailbox.
    ghost sends: { Self → ℕ → Type 0 };

    /// The task is the receiver of this mailbox.
    ghost receives: { Self → ℕ → Type 0 };

    /// How many senders this mailbox has.
    ghost senders: { Self → ℕ → ℕ };

    /// How many fields the rows of this mailbox's frames have.
    ghost arity: { Self → ℕ → ℕ };

    /// How often a call found this mailbox full or empty. It stands still at the end of 64 bits.
    ghost refused: { Self → ℕ → ℕ };

    /// This event is all that happened between the first port and the second.
    ghost happens: { Self → Event → Self → Type 0 };

    /// The second port is the first one's task's, at the same mailboxes and the same word.
    ghost keeps: { Self → Self → Type 0 };

    /// Puts the parcel, or hands it back where the mailbox was full at this call's step.
    fn put(&mut self, mailbox: u32, parcel: Parcel) -> PutAnswer
        requires sender { sends self.old mailbox }
        requires fits { may (word self.old mailbox) parcel ≡ true }
        requires arity { HasArity (arity self.old mailbox) parcel }
        ensures put { TellsPut happens self.old mailbox parcel self.new result }
        ensures kept { keeps self.old self.new };

    /// Takes the front, with its sender's number, or nothing where the mailbox was empty at this call's step.
    fn take(&mut self, mailbox: u32) -> Option<(u32, Parcel)>
        requires { receives self.old mailbox }
        ensures took { TellsTake happens self.old mailbox self.new result }
        ensures sender { IfSome result (λ x. x.0 < senders self.old mailbox) }
        ensures arity { IfSome result (λ x. HasArity (arity self.old mailbox) x.1) }
        ensures kept { keeps self.old self.new };

    /// Raises the abort word.
    fn raise(&mut self)
        ensures raised { happens self.old Raise self.new }
        ensures kept { keeps self.old self.new };

    /// Whether the abort word was raised at this call's step.
    fn raised(&mut self) -> bool
        ensures looked { happens self.old (Look result) self.new }
        ensures kept { keeps self.old self.new };

    /// A put takes its mailbox's word on, and nothing else does.
    ghost words: { (old new : Self) (e : Event) (m : ℕ) → happens old e new → word new m ≡ word_after e m (word old m) };

    /// A refusal raises its mailbox's count, and nothing else does.
    ghost counts: { (old new : Self) (e : Event) (m : ℕ) → happens old e new → refused new m ≡ refused_after e m (refused old m) };

    /// A port stays its task's.
    ghost roles: { (old new : Self) (e : Event) → happens old e new → ((m : ℕ) → sends old m → sends new m) × ((m : ℕ) → receives old m → receives new m) };

    /// Mailboxes stay as they were made.
    ghost plans: { (old new : Self) (e : Event) (m : ℕ) → happens old e new → (senders new m ≡ senders old m) × (arity new m ≡ arity old m) };

    /// What was put might come next in the task's word.
    ghost puts: { (old new : Self) (m : ℕ) (p : Put_in) → happens old (Put m p) new → (may (word old m) p ≡ true) × HasArity (arity old m) p };

    /// What was taken is of one of the mailbox's senders.
    ghost takes: { (old new : Self) (m s : ℕ) (p : Put_in) → happens old (Took m s p) new → (s < senders old m) × HasArity (arity old m) p };

    /// What happens keeps the port, and so do several things, or none.
    ghost kept: { (old new : Self) (e : Event) → happens old e new → keeps old new };

    ghost kept_at_first: { (p : Self) → keeps p p };

    ghost kept_on: { (p q r : Self) → keeps p q → keeps q r → keeps p r };
}

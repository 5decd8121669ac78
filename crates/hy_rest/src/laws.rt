//! The laws of what may still be put, and worked cases.

ghost use Rattle.std.specs.Prelude.{List};
ghost use Rattle.hy_rest.specs.Rest.{ContinuesThen, FreeAlive, FreeContinues, FreeFinished, HeldAlive, HeldContinues, HeldFinished, IdleContinues, InOrderAlive, InOrderContinues, InOrderFinished, FinishesWithNone, NoneIsOpen, RunsToEnd, ThroughAlive, ThroughContinues, ThroughFinished};
ghost use Rattle.hy_rest.specs.Cases.{AliveHasSome, EndedStaysAway, FeedIsHeld, FinishedOwesNone, FreeMoves, FreeStands, InOrderStands, PassesThrough, SendIsOwed, WordsBegin, WordsGoOn};

/// The present state of a task, or of a part of one, as the laws see it.
pub trait Resting<F, A> {
    /// What may still be taken.
    ghost may: { Self → List F → Type 0 };

    /// The output for what is taken.
    ghost out: { Self → List F → List A → Type 0 };

    /// The lists of what was taken for which it stands, where it does not keep them.
    ghost stands: { Self → List F → Type 0 };

    /// What it may still put for what is still to be taken.
    ghost rest: { Self → List F → List A → Type 0 };
}

/// The laws of both forms of what may still be put: what a step has to show of what is owed and
/// held, how steps are put together, that a step that changes nothing leaves it, when there is
/// something to put, and when nothing is left. It does nothing: its clauses speak of the states
/// before, between and after two steps.
pub fn rest_laws<F, A, Old: Resting<F, A>, New: Resting<F, A>, Last: Resting<F, A>>()
    ensures in_order { (old : Old) (new : New) → InOrderContinues (Old.may old) (New.may new) (Old.out old) (New.out new) }
    ensures free { (old : Old) (new : New) → FreeContinues (Old.may old) (New.may new) (Old.out old) (New.out new) }
    ensures for_each { (old : Old) (new : New) → HeldContinues (Old.may old) (New.may new) (Old.stands old) (New.stands new) (Old.out old) (New.out new) }
    ensures then_on { (old : Old) (new : New) (last : Last) → ContinuesThen (Old.rest old) (New.rest new) (Last.rest last) }
    ensures idle { (old : Old) → IdleContinues (Old.rest old) }
    ensures in_order_alive { (old : Old) → InOrderAlive (Old.may old) (Old.out old) }
    ensures free_alive { (old : Old) → FreeAlive (Old.may old) (Old.out old) }
    ensures for_each_alive { (old : Old) → HeldAlive (Old.may old) (Old.stands old) (Old.out old) }
    ensures finished { (last : Last) → InOrderFinished (Last.may last) (Last.out last) }
    ensures free_finished { (last : Last) → FreeFinished (Last.may last) (Last.out last) }
    ensures for_each_finished { (last : Last) → HeldFinished (Last.may last) (Last.stands last) (Last.out last) }
    ensures with_none { (last : Last) → FinishesWithNone (Last.rest last) }
    ensures to_end { (old : Old) (last : Last) → RunsToEnd (Old.rest old) (Last.rest last) }
    ensures none_open { NoneIsOpen A }
{}

/// A part of which what is taken goes through others before it works on it, and what it makes before
/// that is put, as the laws see it.
pub trait Passage<F, G, B, A> {
    /// What may still be taken, and what the one that works may still be given.
    ghost may: { Self → List F → Type 0 };

    ghost may_work: { Self → List G → Type 0 };

    /// What the one that works is given of what is taken.
    ghost into: { Self → List F → List G };

    /// What it may still make for that.
    ghost works: { Self → List G → List B → Type 0 };

    /// What may be put of what it makes.
    ghost out: { Self → List B → List A → Type 0 };
}

/// The laws by which one that works, with others before and behind it, is one whole: a step of the
/// one that works, or of the others, is a step of the whole. It does nothing: its clauses speak of
/// the states before and after a step.
pub fn passage_laws<F, G, B, A, Old: Passage<F, G, B, A>, New: Passage<F, G, B, A>>()
    ensures continues { (old : Old) (new : New) → ThroughContinues (Old.into old) (New.into new) (Old.works old) (New.works new) (Old.out old) (New.out new) }
    ensures alive { (new : New) → ThroughAlive (New.may new) (New.may_work new) (New.into new) (New.works new) (New.out new) }
    ensures finished { (new : New) → ThroughFinished (New.into new) (New.works new) (New.out new) }
{}

/// What states that owe and hold rows may put, which steps lead from one to another, and which words
/// senders put. It does nothing: its clauses are worked cases.
pub fn rest_cases()
    ensures in_order { InOrderStands }
    ensures free_moves { FreeMoves }
    ensures free_stands { FreeStands }
    ensures sends { SendIsOwed }
    ensures feeds { FeedIsHeld }
    ensures ended { EndedStaysAway }
    ensures alive { AliveHasSome }
    ensures finished { FinishedOwesNone }
    ensures through { PassesThrough }
    ensures words_begin { WordsBegin }
    ensures words_go_on { WordsGoOn }
{}

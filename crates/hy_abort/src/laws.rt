//! What the rule of the word says, and worked cases of it.

ghost use Rattle.hy_abort.specs.Cases.{JoinedCountOnce, LooksDontRaise, LooksTellMore, LooksTellNoLess, NoneIsMissing, NoneRaisesTwice, RaiseIsNotUnseen, RaiseIsSeen, SeenNeedsRaised, TwoRaisesAreNoOther, TwoRaisesAreTwo, TwoSeatsRaised};
ghost use Rattle.hy_abort.specs.Laws.{Begins, DealKeeps, LookKeeps, NeverWraps, RaiseKeeps, SeenIsRaised, TakeInKeeps, WordIsSum};

/// The rule of the abort word: it holds at the start, each kind of step keeps it, and what it says of the word. It
/// does nothing: its clauses speak of every state that meets the rule.
pub fn abort_laws()
    ensures begins { Begins }
    ensures look { LookKeeps }
    ensures raise { RaiseKeeps }
    ensures deal { DealKeeps }
    ensures take_in { TakeInKeeps }
    ensures sum { WordIsSum }
    ensures never_wraps { NeverWraps }
    ensures seen { SeenIsRaised }
{}

/// What meets the rule and what doesn't, and what seats tell. It does nothing: its clauses are worked cases.
pub fn abort_cases()
    ensures two_raises { TwoRaisesAreTwo }
    ensures no_other { TwoRaisesAreNoOther }
    ensures joined { JoinedCountOnce }
    ensures none_missing { NoneIsMissing }
    ensures none_twice { NoneRaisesTwice }
    ensures seen_needs_raised { SeenNeedsRaised }
    ensures two_seats { TwoSeatsRaised }
    ensures looks_more { LooksTellMore }
    ensures looks_dont_raise { LooksDontRaise }
    ensures looks_no_less { LooksTellNoLess }
    ensures raise_seen { RaiseIsSeen }
    ensures raise_not_unseen { RaiseIsNotUnseen }
{}

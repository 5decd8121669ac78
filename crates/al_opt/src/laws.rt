//! Laws of traces, and worked cases of them and of room.

ghost use Rattle.al_opt.specs.Determined.{SetsAreDetermined, TracesAreOne, WalksAreOne};
ghost use Rattle.al_opt.specs.RoomCases.{FourFillFour, FourInThree, NestedHasNone, NoneInFour, SelectHasFour};
ghost use Rattle.al_opt.specs.TraceCases.{EitherIsDetermined, OneRuleIsDetermined, TwoRulesAreDetermined};

/// Each rule rewrites a plan to one at most, so a set has one walk over a plan, and a plan has one
/// legal trace and one plan that it leads to. It does nothing: its clauses speak of every plan.
pub fn trace_laws()
    ensures sets { SetsAreDetermined }
    ensures walks { WalksAreOne }
    ensures traces { TracesAreOne }
{}

/// Which small sets of rules leave no choice. It does nothing: its clauses are worked cases.
pub fn trace_cases()
    ensures one_rule { OneRuleIsDetermined }
    ensures two_rules { TwoRulesAreDetermined }
    ensures either { EitherIsDetermined → ⊥ }
{}

/// How many operators and conjuncts small plans have, and what is left beside them. It does
/// nothing: its clauses are worked cases.
pub fn room_cases()
    ensures select { SelectHasFour }
    ensures nested { NestedHasNone }
    ensures four { FourFillFour }
    ensures three { FourInThree → ⊥ }
    ensures none { NoneInFour → ⊥ }
{}

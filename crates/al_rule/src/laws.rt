//! Laws over what plans allow, of which many rules are instances, and worked cases of a walk.

ghost use Rattle.al_rule.specs.WalkCases.{FirstInputFirst, IdleWalkCounts, SecondInputFirst, SecondRuleFirst, WalkGoesBack, WalkGoesDown, WalkStops, WalksFollow};
ghost use Rattle.al_rule.specs.Laws.{ChainsRefine, SelectPassesOrder, SelectPassesDistinct, PairsDecide};

/// The law of chains of operators that work on each row alone. It does nothing: its clause speaks
/// of every two chains.
pub fn chain_laws()
    ensures { ChainsRefine }
{}

/// The laws of selects over orders and distincts, both ways.
pub fn select_laws()
    ensures order { SelectPassesOrder }
    ensures distinct { SelectPassesDistinct }
{}

/// The laws of joins and left joins over the same inputs.
pub fn join_laws()
    ensures { PairsDecide }
{}

/// Which steps are a walk of small sets of rules, and which are none. It does nothing: its clauses
/// are worked cases.
pub fn walk_cases()
    ensures goes_down { WalkGoesDown }
    ensures goes_back { WalkGoesBack → ⊥ }
    ensures stops { WalkStops → ⊥ }
    ensures follow { WalksFollow }
    ensures idle { IdleWalkCounts → ⊥ }
    ensures first_input { FirstInputFirst }
    ensures second_input { SecondInputFirst → ⊥ }
    ensures second_rule { SecondRuleFirst → ⊥ }
{}

ghost use Rattle.al_agg.specs.Lists.{StatesAreOfLists, SumOfTwo, SumBelowZero, SumOfNoneIsZero, CountHasHalves};

/// Fields are those of a state where they are those of some list of values, and only there. It
/// does nothing: its clauses speak of all fields.
pub fn state_laws()
    ensures lists { StatesAreOfLists }
    ensures sum_of_two { SumOfTwo }
    ensures sum_below_zero { SumBelowZero }
    ensures sum_of_none { SumOfNoneIsZero }
    ensures count { CountHasHalves }
{}

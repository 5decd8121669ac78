//! Worked cases of aggregates without keys.

ghost use Rattle.hy_aggregate.specs.Cases.{EachIsJoined, FirstAlone, GivesBeforeItEnds, OneRowComes, RowIsSeen, StatesJoin};

/// Which row comes of the rows that are taken, and what states stand for. It does nothing: its
/// clauses are worked cases.
pub fn aggregate_cases()
    ensures row { OneRowComes }
    ensures join { StatesJoin }
    ensures first { FirstAlone }
    ensures each { EachIsJoined }
    ensures gives { GivesBeforeItEnds }
    ensures seen { RowIsSeen }
{}

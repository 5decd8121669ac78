//! The law of the drivers of a sort, and worked cases.

ghost use Rattle.hy_sort.specs.Laws.{HandsToEmit};
ghost use Rattle.hy_sort.specs.Cases.{EndsBehindTheLast, GivesTheNext, KeysHaveDirections, NoneIsLeftOut, OrderingIsWork, TiesAreFree};

/// What the first driver of a sort hands on is what the second is made of. It does nothing: its clause
/// speaks of whatever is handed on.
pub fn sort_laws()
    ensures { HandsToEmit }
{}

/// Which rows are handed on, and in which order they are given. It does nothing: its clauses are
/// worked cases.
pub fn sort_cases()
    ensures kept { NoneIsLeftOut }
    ensures directions { KeysHaveDirections }
    ensures ties { TiesAreFree }
    ensures orders { OrderingIsWork }
    ensures gives { GivesTheNext }
    ensures ends { EndsBehindTheLast }
{}

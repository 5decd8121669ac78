//! Worked cases.

ghost use Rattle.hy_stream.specs.Cases.{ChecksFault, ItemsAreBehind, LimitGoesOn, OneIsEmpty, RowsAreShared, SecondIsOpen, UnionCutsEach, UnionsAreEven, WindowsMove};

/// What comes of rows, how limits move, which rows a scan gives, and when a check fails. It does
/// nothing: its clauses are worked cases.
pub fn stream_cases()
    ensures limits { LimitGoesOn }
    ensures windows { WindowsMove }
    ensures unions { UnionCutsEach }
    ensures inputs { SecondIsOpen }
    ensures even { UnionsAreEven }
    ensures checks { ChecksFault }
    ensures shares { RowsAreShared }
    ensures one { OneIsEmpty }
    ensures items { ItemsAreBehind }
{}

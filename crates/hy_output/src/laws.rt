//! Worked cases. The function does nothing: its clauses are what it is for.

ghost use Rattle.hy_output.specs.Cases.{FailComesBehind, FramesAreKeptInOrder, FrontsAreLeft, FullFramesGoOn, RowsArePackedInOrder};

/// What calls of small outputs may do, and what they may not.
pub fn output_cases()
    ensures kept { FramesAreKeptInOrder }
    ensures packed { RowsArePackedInOrder }
    ensures full { FullFramesGoOn }
    ensures fronts { FrontsAreLeft }
    ensures fails { FailComesBehind }
{}

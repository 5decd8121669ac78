//! Worked cases.

ghost use Rattle.hy_rows.specs.Cases.{EndsOwingNone, GivesTheFirst};

/// What a driver gives that owes rows in order, and when it ends. It does nothing: its clauses are
/// worked cases.
pub fn row_cases()
    ensures first { GivesTheFirst }
    ensures ends { EndsOwingNone }
{}

//! What holds of every nested plan, and worked cases. The functions do nothing: their clauses are what
//! they are for.

ghost use Rattle.hy_subplan.specs.Cases.{EqualKeysAreStretch, OtherKeyBreaks, StretchHasTwoTurns};
ghost use Rattle.hy_subplan.specs.Nesting.{NestedPlansGive};

/// A nested plan with an aggregate at its root gives a row over any rows.
pub fn subplan_laws()
    ensures { NestedPlansGive }
{}

/// Which rows are a stretch, and what goes on with one.
pub fn subplan_cases()
    ensures stretch { EqualKeysAreStretch }
    ensures breaks { OtherKeyBreaks }
    ensures turns { StretchHasTwoTurns }
{}

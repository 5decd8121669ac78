//! What holds of the operators of sound jobs, and worked cases.

ghost use Rattle.hy_operator.specs.Cases.{ChecksAreNamed, DistinctIsHandedKeys, EachIsGivenItsOwn, FirstOnesHandOn, KindsAreTold, ListedIfThere, OneBeginsInFirst, RowsAreHanded, ProjectSuits, SettingsAreKept, TurnsAreCounted, UnionSuits, WantedIsThere};
ghost use Rattle.hy_operator.specs.Laws.{ActivitiesFit};

/// An activity of a sound job fits the rows that it sees, so that its operator may be made. It does
/// nothing: its clause speaks of every activity.
pub fn operator_laws()
    ensures { ActivitiesFit }
{}

/// What operators are given, which rows suit them, and how new ones begin. It does nothing: its
/// clauses are worked cases.
pub fn operator_cases()
    ensures given { EachIsGivenItsOwn }
    ensures first { FirstOnesHandOn }
    ensures wanted { WantedIsThere }
    ensures handed { RowsAreHanded }
    ensures keys { DistinctIsHandedKeys }
    ensures project { ProjectSuits }
    ensures union_ { UnionSuits }
    ensures one { OneBeginsInFirst }
    ensures turns { TurnsAreCounted }
    ensures kinds { KindsAreTold }
    ensures listed { ListedIfThere }
    ensures checks { ChecksAreNamed }
    ensures settings { SettingsAreKept }
{}

ghost use Rattle.hy_group.specs.Cases.{GroupsAreGivenOnce, GroupsHaveOwnKeys, GroupsStandForRows, NullIsOneGroup, OthersAreNew, EachAggregateHasState, StatesStandBehindKeys};

/// To which groups rows are added, for which rows groups stand, and what is given of groups. It does nothing: its clauses are
/// worked cases.
pub fn group_cases()
    ensures null { NullIsOneGroup }
    ensures others { OthersAreNew }
    ensures stand { GroupsStandForRows }
    ensures own_keys { GroupsHaveOwnKeys }
    ensures fields { StatesStandBehindKeys }
    ensures given { GroupsAreGivenOnce }
    ensures states { EachAggregateHasState }
{}

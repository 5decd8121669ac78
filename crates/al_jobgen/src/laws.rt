ghost use Rattle.al_jobgen.specs.LiteralCases.{ValuesInBoth, TooLargeInSecond, TooLargeInNested};
ghost use Rattle.al_jobgen.specs.Agree.{ExpressionsAgree, ConditionsAgree, ValuesAgree, CutsAgree, RenamesAgree, KeysAgree, HashesAgree, HashedRowsAgree, InterleavesAgree};
ghost use Rattle.al_jobgen.specs.Agree.{AssignsAgree, UnnestsAgree, OrdersAgree, SortsAgree, AggregatesAgree, AggregateRowsAgree, KindsAgree};
ghost use Rattle.al_jobgen.specs.Agree.{ValuesReturn, JoinsAgree, GroupingsAgree, StretchesAgree, DistinctsAgree};
ghost use Rattle.al_jobgen.specs.Agree.{NestedPlansAgree, SubplansAgree, GroupRowsAgree, StretchRowsAgree, RowWiseAgrees, StatesJoin, PiecesAreGrouped, PiecesAreDistinct, PartsJoin};
ghost use Rattle.al_jobgen.specs.Agree.{AssignedRowsAgree, SelectedRowsAgree, CutRowsAgree, ExpandedRowsAgree, RenamedRowsAgree, ChecksAgree, JoinedRowsAreWide};
ghost use Rattle.al_jobgen.specs.Agree.{ValuesStay, ItemsAreValues, TakenAreValues, NestedHasValues, AggregatesAreValues};

/// Rows by column agree with rows by variable, and so do nested plans; joined states give what the
/// plan gives over all rows; and what is made of values is values. It does nothing: its clauses
/// speak of every row that has a value for each variable.
pub fn column_laws()
    ensures expressions { ExpressionsAgree }
    ensures conditions { ConditionsAgree }
    ensures values { ValuesAgree }
    ensures cuts { CutsAgree }
    ensures renames { RenamesAgree }
    ensures keys { KeysAgree }
    ensures hashes { HashesAgree }
    ensures hashed_rows { HashedRowsAgree }
    ensures interleaves { InterleavesAgree }
    ensures assigns { AssignsAgree }
    ensures unnests { UnnestsAgree }
    ensures orders { OrdersAgree }
    ensures sorts { SortsAgree }
    ensures aggregates { AggregatesAgree }
    ensures aggregate_rows { AggregateRowsAgree }
    ensures kinds { KindsAgree }
    ensures returns { ValuesReturn }
    ensures joins { JoinsAgree }
    ensures groupings { GroupingsAgree }
    ensures stretches { StretchesAgree }
    ensures distincts { DistinctsAgree }
    ensures nested { NestedPlansAgree }
    ensures subplans { SubplansAgree }
    ensures group_rows { GroupRowsAgree }
    ensures stretch_rows { StretchRowsAgree }
    ensures row_wise { RowWiseAgrees }
    ensures states_join { StatesJoin }
    ensures pieces { PiecesAreGrouped }
    ensures distinct_pieces { PiecesAreDistinct }
    ensures parts { PartsJoin }
    ensures assigned_rows { AssignedRowsAgree }
    ensures selected_rows { SelectedRowsAgree }
    ensures cut_rows { CutRowsAgree }
    ensures expanded_rows { ExpandedRowsAgree }
    ensures renamed_rows { RenamedRowsAgree }
    ensures checks { ChecksAgree }
    ensures joined_wide { JoinedRowsAreWide }
    ensures values_stay { ValuesStay }
    ensures items { ItemsAreValues }
    ensures taken { TakenAreValues }
    ensures nested_values { NestedHasValues }
    ensures aggregate_values { AggregatesAreValues }
{}

/// Jobs whose literals are values, and jobs whose are not. It does nothing.
pub fn literal_cases()
    ensures values_in_both { ValuesInBoth }
    ensures too_large_in_second { TooLargeInSecond }
    ensures too_large_in_nested { TooLargeInNested }
{}

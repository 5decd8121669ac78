ghost use Rattle.al_cases.specs.RefineCases.{AnyForLeast, CheckForScan, EmptyProjectFits, GreatestForLeast, InnerResultFits, LeastForAny, LeastInPlace, NotingInPlace, PushedForAbove, ScanFits, ScanForCheck};
ghost use Rattle.al_cases.specs.Cases.{ScanIsFree, EmptyIsOneRow, AssignAdds, SelectDropsNull, ProjectCuts, ResultCuts, UnnestGivesPieces, UnnestKeepsOrder, SubplanCounts, JoinDropsAlone, NullsDoNotJoin, LeftJoinAlone, NullIsAGroup, GroupForEachKey, NoRowsNoGroup, DistinctNull, UnionKeepsAll, NothingIsCounted, OrderRises, OrderFalls, TiesAreFree, LimitTakesAny, LimitSkips, CheckSeesAll, ChecksFaultBoth, CheckPasses};

/// Small plans, and which lists of rows they allow. It does nothing: its clauses are worked cases.
pub fn worked_cases()
    ensures scan { ScanIsFree }
    ensures empty { EmptyIsOneRow }
    ensures assign { AssignAdds }
    ensures select { SelectDropsNull }
    ensures project { ProjectCuts }
    ensures result_cuts { ResultCuts }
    ensures unnest { UnnestGivesPieces }
    ensures unnest_ordered { UnnestKeepsOrder }
    ensures subplan { SubplanCounts }
    ensures join { JoinDropsAlone }
    ensures join_null { NullsDoNotJoin }
    ensures left_join { LeftJoinAlone }
    ensures group { NullIsAGroup }
    ensures each_key { GroupForEachKey }
    ensures no_group { NoRowsNoGroup }
    ensures distinct { DistinctNull }
    ensures union { UnionKeepsAll }
    ensures aggregate { NothingIsCounted }
    ensures order { OrderRises }
    ensures order_falls { OrderFalls }
    ensures ties { TiesAreFree }
    ensures limit { LimitTakesAny }
    ensures limit_skips { LimitSkips }
    ensures check { CheckSeesAll }
    ensures two_checks { ChecksFaultBoth }
    ensures check_passes { CheckPasses }
{}

/// Small plans that fit or may stand for one another, and some that don't. It does nothing: its
/// clauses are worked cases.
pub fn refine_cases()
    ensures least_for_any { LeastForAny }
    ensures any_for_least { AnyForLeast → ⊥ }
    ensures greatest_for_least { GreatestForLeast → ⊥ }
    ensures pushed_for_above { PushedForAbove → ⊥ }
    ensures check_for_scan { CheckForScan → ⊥ }
    ensures scan_for_check { ScanForCheck → ⊥ }
    ensures least_in_place { LeastInPlace }
    ensures noting_in_place { NotingInPlace → ⊥ }
    ensures scan_fits { ScanFits }
    ensures empty_project_fits { EmptyProjectFits → ⊥ }
    ensures inner_result_fits { InnerResultFits → ⊥ }
{}

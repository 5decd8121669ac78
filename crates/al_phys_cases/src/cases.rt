ghost use Rattle.al_phys_cases.specs.StretchCases.{HashGroupsStretches, StretchesAreGrouped};
ghost use Rattle.al_phys_cases.specs.EachPartCases.{DistinctInParts, DistinctOverHash, LimitInParts, LocalLimitInParts, ProjectInParts, ResultInParts, UnionInParts};
ghost use Rattle.al_phys_cases.specs.InnerCases.{NestedIsFree, OrderInside, DistinctInside, TwoPairs, RestDecides, RestAllows};
ghost use Rattle.al_phys_cases.specs.PartCases.{ScanDeals, SelectInParts, HashMoves, BroadcastCopies, GatherMixes, MergeOrders, GroupOverHash, GroupInParts, CountsAreJoined, HashJoinPairs, LeftJoinKeeps, LoopJoinPairs};
ghost use Rattle.al_phys_cases.specs.StandCases.{ScanStands, CopiesStand, OtherScanStands, MergeStands, GatherStands, SortStands, LeftCopiesStand, OtherKeyStands, RootlessStands, CheckStands, UncheckedStands};

/// Small physical plans on two partitions, and which parts they allow. It does nothing: its clauses
/// are worked cases.
pub fn part_cases()
    ensures scan { ScanDeals }
    ensures select { SelectInParts }
    ensures hash { HashMoves }
    ensures broadcast { BroadcastCopies }
    ensures gather { GatherMixes }
    ensures merge { MergeOrders }
    ensures group { GroupOverHash }
    ensures group_in_parts { GroupInParts }
    ensures aggregate { CountsAreJoined }
    ensures hash_join { HashJoinPairs }
    ensures left_join { LeftJoinKeeps }
    ensures loop_join { LoopJoinPairs }
{}

/// Physical plans on two partitions that stand for a small plan, and some that don't. It does
/// nothing: its clauses are worked cases.
pub fn stand_cases()
    ensures scan { ScanStands }
    ensures copies { CopiesStand → ⊥ }
    ensures other_scan { OtherScanStands → ⊥ }
    ensures merge { MergeStands }
    ensures gather { GatherStands → ⊥ }
    ensures sort { SortStands → ⊥ }
    ensures left_copies { LeftCopiesStand → ⊥ }
    ensures other_key { OtherKeyStands → ⊥ }
    ensures rootless { RootlessStands → ⊥ }
    ensures check { CheckStands → ⊥ }
    ensures unchecked { UncheckedStands → ⊥ }
{}

/// Nested plans over a few outer rows, and joins with two pairs and with more than their keys. It
/// does nothing: its clauses are worked cases.
pub fn inner_cases()
    ensures nested { NestedIsFree }
    ensures order { OrderInside }
    ensures distinct { DistinctInside }
    ensures two_pairs { TwoPairs }
    ensures rest_decides { RestDecides }
    ensures rest_allows { RestAllows }
{}

/// Operators that work on each part by itself, and which parts they allow. It does nothing: its
/// clauses are worked cases.
pub fn each_part_cases()
    ensures limit { LimitInParts }
    ensures local_limit { LocalLimitInParts }
    ensures project { ProjectInParts }
    ensures result_cuts { ResultInParts }
    ensures distinct { DistinctInParts }
    ensures distinct_hash { DistinctOverHash }
    ensures union { UnionInParts }
    ensures stretches { StretchesAreGrouped }
    ensures hash_group { HashGroupsStretches → ⊥ }
{}

//! Worked cases of what contracts see of joins.

ghost use Rattle.hy_join.specs.Cases.{FieldsOfNull, FreeUntilTheEnd, NullHasNoHash, NullOwesItself, OwesItselfAlone, OwesPairs, PairsBringTurns, PartnersHaveHashes, PlacesAreCounted, RestDecides};

/// What the drivers of a join may still give, and when they end. It does nothing: its clauses are
/// worked cases.
pub fn join_cases()
    ensures order { FreeUntilTheEnd }
    ensures fields { FieldsOfNull }
    ensures pairs { OwesPairs }
    ensures alone { OwesItselfAlone }
    ensures null { NullOwesItself }
    ensures rest { RestDecides }
    ensures turns { PairsBringTurns }
    ensures hashes { NullHasNoHash }
    ensures places { PlacesAreCounted }
    ensures partners { PartnersHaveHashes }
{}

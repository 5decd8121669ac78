ghost use Rattle.al_phys.specs.Laws.{MetIsServed, PartsAreMany, DeliveredHolds, GatherIsPlaced, GatherIsNeeded, GatherIsNeedless};

/// The laws of parts: what their properties serve, and which properties the parts have that a
/// physical plan allows. It does nothing: its clauses speak of every plan.
pub fn phys_laws()
    ensures met { MetIsServed }
    ensures many { PartsAreMany }
    ensures delivered { DeliveredHolds }
{}

/// Small physical plans that are placed, and that are not. It does nothing: its clauses are worked
/// cases.
pub fn placed_cases()
    ensures placed { GatherIsPlaced }
    ensures needed { GatherIsNeeded }
    ensures needless { GatherIsNeedless }
{}

ghost use Rattle.al_plan.specs.Laws.{OrderIsFree, RowsAreWithin, LiveOnce, ChecksAddNone, ChecksPass, OuterIsIdle, RefinesItself, RefinesThrough, ReplacesItself, ReplacesThrough, ReplacesUnder};

/// The laws of what plans allow, and of one plan that stands for another. It does nothing: its
/// clauses speak of every plan.
pub fn plan_laws()
    ensures free { OrderIsFree }
    ensures within { RowsAreWithin }
    ensures live_once { LiveOnce }
    ensures checks_add_none { ChecksAddNone }
    ensures checks_pass { ChecksPass }
    ensures outer_idle { OuterIsIdle }
    ensures refines_itself { RefinesItself }
    ensures refines_through { RefinesThrough }
    ensures replaces_itself { ReplacesItself }
    ensures replaces_through { ReplacesThrough }
    ensures replaces_under { ReplacesUnder }
{}

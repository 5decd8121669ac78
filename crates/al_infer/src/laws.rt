ghost use Rattle.al_infer.specs.Laws.{AcceptedFits, AcceptedIsUnrefused, AcceptedScans};

/// The laws of acceptance. It does nothing: its clauses speak of every file.
pub fn acceptance_laws()
    ensures exact { AcceptedIsUnrefused }
    ensures fits { AcceptedFits }
    ensures scans { AcceptedScans }
{}

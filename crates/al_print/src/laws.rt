ghost use Rattle.al_print.specs.Laws.{ReadsBack};

/// The law of canonical text. It does nothing: its clause speaks of every plan file.
pub fn printing_laws()
    ensures reads_back { ReadsBack }
{}

ghost use Rattle.std.specs.Prelude.{◌≡◌, MatchOption};
ghost use Rattle.al_words.specs.Verbs.{spelled};
ghost use Rattle.al_words.specs.declared.verb.Verb.{Verb as Named};

/// What a command does, as its first word says.
#[derive(Clone, Copy, Debug, PartialEq, Eq)]
pub(crate) enum Verb {
    Check,
    Explain,
    Plain,
    Step,
    Run,
    Gen,
    Drill,
    Frames,
}

impl Verb {
    pub(crate) fn from_word(word: &str) -> Option<Verb>
        ensures { MatchOption result ((v : Named) → word.now ≡ spelled v → ⊥) (λ v. word.now ≡ spelled v) }
    {
        match word {
            "check" => Some(Verb::Check),
            "explain" => Some(Verb::Explain),
            "plain" => Some(Verb::Plain),
            "step" => Some(Verb::Step),
            "run" => Some(Verb::Run),
            "gen" => Some(Verb::Gen),
            "drill" => Some(Verb::Drill),
            "frames" => Some(Verb::Frames),
            _ => None,
        }
    }
}

ghost use Rattle.al_answer_cases.specs.ListCases.{CountAnswers, GroupAnswers, JoinAnswers, UnhashedAnswers};
ghost use Rattle.al_answer_cases.specs.RecordCases.{CountSettles, GroupSettles, HalfTakenSettles, JoinSettles, NoMatchSettles, NoPairSettles, TwiceTakenSettles, WrongHomeSettles};

/// Answers of a group behind a hash exchange, of a join and of a count, on two partitions, and lists
/// that are none. It does nothing: its clauses are worked cases.
pub fn list_cases()
    ensures group { GroupAnswers }
    ensures unhashed { UnhashedAnswers }
    ensures join { JoinAnswers }
    ensures count { CountAnswers }
{}

/// Records of the tasks of a group, a join and a count, on two partitions, and records that do not
/// fit together. It does nothing: its clauses are worked cases.
pub fn record_cases()
    ensures group { GroupSettles }
    ensures wrong_home { WrongHomeSettles → ⊥ }
    ensures count { CountSettles }
    ensures twice_taken { TwiceTakenSettles → ⊥ }
    ensures half_taken { HalfTakenSettles → ⊥ }
    ensures join { JoinSettles }
    ensures no_match { NoMatchSettles → ⊥ }
    ensures no_pair { NoPairSettles → ⊥ }
{}

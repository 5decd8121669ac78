ghost use Rattle.al_answer.specs.Answer.{AnswersAreAllowed, FaultsAreFaults, JobComputes};
ghost use Rattle.al_answer.specs.AnswerCases.{MixedIsAnswer, ShortIsNone, TurnedIsNone, WideIsNone};
ghost use Rattle.al_answer.specs.Fault.{ChecksFault, FlowsFault, JobFaults};

/// Where all tasks of a compiled job completed and their records fit together, the result hands on
/// an answer that the physical plan allows. Such an answer is one of the plan as it was read, and a
/// fault of the physical plan is one too. A check that received a row which is not TRUE faults,
/// where it and what stands below it did whole runs; and where a check of a compiled job's last
/// stage stopped its task, all tasks before having completed, the physical plan faults by its name.
/// It does nothing: its clauses speak of all records.
pub fn answer_laws()
    ensures computes { JobComputes }
    ensures read { AnswersAreAllowed }
    ensures faults { FaultsAreFaults }
    ensures checks { ChecksFault }
    ensures flows { FlowsFault }
    ensures fails { JobFaults }
{}

/// Lists that are answers of a small physical plan on two partitions, and lists that are none. It
/// does nothing: its clauses are worked cases.
pub fn answer_cases()
    ensures mixed { MixedIsAnswer }
    ensures turned { TurnedIsNone }
    ensures short { ShortIsNone }
    ensures wide { WideIsNone }
{}

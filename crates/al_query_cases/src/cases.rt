ghost use Rattle.al_query_cases.specs.DueCases.{AbsentPlan, CutsBefore, GenNeedsNothing, MayEndSo, NoWords, RunIsUnserved};

use al_words::one_command;

/// Words and files, and which statuses are due for them. It does nothing: its clauses are worked
/// cases.
pub fn due_cases()
    ensures absent { AbsentPlan }
    ensures no_words { NoWords }
    ensures run { RunIsUnserved }
    ensures cut { CutsBefore }
    ensures may_end { MayEndSo }
{
    one_command();
}

/// What `gen` is due to end by. It does nothing: its clause is a worked case.
pub fn gen_cases()
    ensures { GenNeedsNothing }
{}

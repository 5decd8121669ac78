//! Laws of a task's steps. The functions do nothing: their clauses are what they are for.

ghost use Rattle.hy_task.specs.Cases.{EndsWithoutDuties, FailWaitsInOne, FaultsAreOutcomes, FaultsAreRaised, FilledIsOwed, FinishedLeavesNothing, HandsOnByWay, PlacesAreReceivers, RowsAtHandAreToCome, SendersAreOfEdges, TellsWhatIsLeft, ThroughHasTested};
ghost use Rattle.hy_task.specs.Laws.{CameAfterGoes, CameGoes, CloseGoes, EndGoes, EndIsDone, FailGoes, FailedCloseGoes, FailedSightGoes, FailureGoes, FaultGoes, FaultHasCause, FedFaultHasCause, FeedGoes, LookGoes, NewIsNew, NoneAfterGoes, NoneGoes, OpenGoes, PutGoes, RaiseGoes, SightGoes, SpoilGoes, TurnGoes};

/// A task, by its parts and what it knows of the abort word.
pub trait HasWork {
    ghost use Rattle.hy_task.specs.Standing.{WorkOf};

    ghost work: { Self → WorkOf };
}

/// What the calls that a step makes come to: it is a step of the task as its record sees it, behind
/// which what is true between steps is true again. It does nothing: its clauses speak of any tasks.
pub fn standing_laws<T: HasWork>()
    ensures new { (t : T) → NewIsNew (T.work t) }
    ensures opens { (old new : T) → OpenGoes (T.work old) (T.work new) }
    ensures feeds { (old new : T) → FeedGoes (T.work old) (T.work new) }
    ensures ends { (old new : T) → EndGoes (T.work old) (T.work new) }
    ensures turns { (old new : T) → TurnGoes (T.work old) (T.work new) }
    ensures closes { (old new : T) → CloseGoes (T.work old) (T.work new) }
    ensures finds_none { (old new : T) → NoneGoes (T.work old) (T.work new) }
    ensures came { (old new : T) → CameGoes (T.work old) (T.work new) }
    ensures puts { (old new : T) → PutGoes (T.work old) (T.work new) }
    ensures looks { (old new : T) → LookGoes (T.work old) (T.work new) }
    ensures sees { (old new : T) → SightGoes (T.work old) (T.work new) }
    ensures sees_failed { (old new : T) → FailedSightGoes (T.work old) (T.work new) }
    ensures raises { (old new : T) → RaiseGoes (T.work old) (T.work new) }
    ensures faults { (old new : T) → FaultGoes (T.work old) (T.work new) }
    ensures cause { (old new : T) → FaultHasCause (T.work old) (T.work new) }
    ensures fed_cause { (old new : T) → FedFaultHasCause (T.work old) (T.work new) }
    ensures spoils { (old new : T) → SpoilGoes (T.work old) (T.work new) }
    ensures fail_came { (old new : T) → FailGoes (T.work old) (T.work new) }
    ensures came_after { (old new : T) → CameAfterGoes (T.work old) (T.work new) }
    ensures none_after { (old new : T) → NoneAfterGoes (T.work old) (T.work new) }
    ensures tells_failure { (old new : T) → FailureGoes (T.work old) (T.work new) }
    ensures closes_failed { (old new : T) → FailedCloseGoes (T.work old) (T.work new) }
    ensures done { (t : T) → EndIsDone (T.work t) }
{}

/// What is true of small tasks between their steps, and what is not. It does nothing: its clauses are
/// worked cases.
pub fn standing_cases()
    ensures places { PlacesAreReceivers }
    ensures senders { SendersAreOfEdges }
    ensures tells { TellsWhatIsLeft }
    ensures through { ThroughHasTested }
    ensures filled { FilledIsOwed }
    ensures no_fail { FailWaitsInOne }
    ensures hands_on { HandsOnByWay }
    ensures finished { FinishedLeavesNothing }
    ensures at_hand { RowsAtHandAreToCome }
    ensures raised { FaultsAreRaised }
    ensures ends { EndsWithoutDuties }
    ensures outcomes { FaultsAreOutcomes }
{}

//! What contracts see of inputs, an operator and an output, and worked cases.

ghost use Rattle.hy_worker.specs.Cases.{AllIsLetGo, BoxesApart, EachHasEnded, FailedCloses, FaultsHaveCauses, FinishCloses, FirstOneWants, GoingOnFeeds, NewHoldNone, NothingIsKept, OffersWhatWaits, ParcelsCome, PartsLast, ReadyWithRows, RoomIsCounted, SpentHoldNone, TakesOfOneSender, TurnsAreUsed, WholeCounts};
ghost use Rattle.hy_worker.specs.Laws.{EmptyClosesNone, EmptyIsNoStep, EmptyTestsNone, GivingUpClosesNone, LastsThen, NewInputsHoldNone, NewMergesHoldNone, NoneIsOut, TaskHasRoom};

/// What works on the rows of a task.
pub trait HasWorker {
    ghost use Rattle.hy_worker.specs.Worker.{WorkerOf};

    ghost worker: { Self → WorkerOf };
}

/// A take that found nothing is no step of its task, giving up takes no Close, what no call changes no calls change, new
/// inputs hold nothing, and the limit of a task's bank is enough, of which nothing is out at the end. It does nothing: its clauses speak of any
/// pipelines.
pub fn worker_laws<T: HasWorker>()
    ensures empty { (old new : T) → EmptyIsNoStep (T.worker old) (T.worker new) }
    ensures empty_closes { (old new : T) → EmptyClosesNone (T.worker old) (T.worker new) }
    ensures empty_tests { (old new : T) → EmptyTestsNone (T.worker old) (T.worker new) }
    ensures gave_up { (old new : T) → GivingUpClosesNone (T.worker old) (T.worker new) }
    ensures lasts { (first second third : T) → LastsThen (T.worker first) (T.worker second) (T.worker third) }
    ensures room { TaskHasRoom }
    ensures none_out { (t : T) → NoneIsOut (T.worker t) }
    ensures new_merges { NewMergesHoldNone }
    ensures new_inputs { NewInputsHoldNone }
{}

/// What is true of small pipelines between calls, and what their calls may tell and may not. It does nothing: its
/// clauses are worked cases.
pub fn worker_cases()
    ensures ready { ReadyWithRows }
    ensures wanting { FirstOneWants }
    ensures over { EachHasEnded }
    ensures apart { BoxesApart }
    ensures spent { SpentHoldNone }
    ensures room { RoomIsCounted }
    ensures whole { WholeCounts }
    ensures lasts { PartsLast }
    ensures went { GoingOnFeeds }
    ensures turned { TurnsAreUsed }
    ensures came { ParcelsCome }
    ensures finished { FinishCloses }
    ensures offered { OffersWhatWaits }
    ensures gave_up { NothingIsKept }
    ensures closed { FailedCloses }
    ensures took { TakesOfOneSender }
    ensures faults { FaultsHaveCauses }
    ensures let_go { AllIsLetGo }
    ensures new { NewHoldNone }
{}

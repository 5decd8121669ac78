//! Laws of every task's parts. The function does nothing: its clauses are what it is for.

ghost use Rattle.hy_pipeline.specs.Cases.{ChecksTest, FailedOwes, FramesAreRows, HandsAreLeft, HandsOfBoth, KeptComesFirst, LeftComesLast, NewWaysAreOfEdges, OfferedToSecond, PutForOne, RowsAreOwed, SwappedAreApart, WaitsForSecond};
ghost use Rattle.hy_pipeline.specs.Laws.{ComeIsStep, EndedIsStep, EndedRests, FedIsStep, FinishIsStep, LivingAreAlive, NewAreNew, OpenIsStep, PutIsStep, TurnIsStep, WaitingIsFront};
ghost use Rattle.hy_pipeline.specs.Tests.{BroughtAreRows, ComeAreUntested, EndedAreTested, FedAreTested, TurnedAreTested};
ghost use Rattle.hy_pipeline.specs.Tasks.{EndIsDone, EndedMayPut, FailMoves, FailedTakeMoves, FaultMoves, LivingMayPut, LookMoves, PutMoves, RaiseMoves, SightMoves, TakeMoves, WorkMoves};

use hy_course::HasParts;

/// What comes into a task, its operator and what goes out.
pub trait HasPipeline {
    ghost use Rattle.hy_pipeline.specs.Pipeline.{PipelineOf};

    ghost pipeline: { Self → PipelineOf };
}

/// Each call of an input, of the operator or of the output is a step of the task's parts, with what it
/// fed, gave, let go on, took or put; a new task's parts begin as its activity asks, living ones have
/// something to do, and ended ones nothing but what waits. It does nothing: its clauses speak of any parts.
pub fn pipeline_laws<T: HasPipeline>()
    ensures fed { (old new : T) → FedIsStep (T.pipeline old) (T.pipeline new) }
    ensures ended { (old new : T) → EndedIsStep (T.pipeline old) (T.pipeline new) }
    ensures turned { (old new : T) → TurnIsStep (T.pipeline old) (T.pipeline new) }
    ensures opened { (old new : T) → OpenIsStep (T.pipeline old) (T.pipeline new) }
    ensures finished { (old new : T) → FinishIsStep (T.pipeline old) (T.pipeline new) }
    ensures taken { (old new : T) → ComeIsStep (T.pipeline old) (T.pipeline new) }
    ensures put { (old new : T) → PutIsStep (T.pipeline old) (T.pipeline new) }
    ensures new { (t : T) → NewAreNew (T.pipeline t) }
    ensures living { (t : T) → LivingAreAlive (T.pipeline t) }
    ensures living_put { (t : T) → LivingMayPut (T.pipeline t) }
    ensures ended_put { (t : T) → EndedMayPut (T.pipeline t) }
    ensures ended_rests { (t : T) → EndedRests (T.pipeline t) }
    ensures brought { BroughtAreRows }
    ensures fed_tested { (old new : T) → FedAreTested (T.pipeline old) (T.pipeline new) }
    ensures ended_tested { (old new : T) → EndedAreTested (T.pipeline old) (T.pipeline new) }
    ensures turned_tested { (old new : T) → TurnedAreTested (T.pipeline old) (T.pipeline new) }
    ensures come_untested { (old new : T) → ComeAreUntested (T.pipeline old) (T.pipeline new) }
    ensures front { (t : T) → WaitingIsFront (T.pipeline t) }
{}

/// A task, by its parts.
pub trait HasTask {
    ghost use Rattle.hy_pipeline.specs.Tasks.{TaskSeen};

    ghost task: { Self → TaskSeen };
}

/// What a task's parts did is a step of the task, as its record sees it: local work, a parcel that came
/// or went out, a look, a raise, and a failure by a fault, by a Fail or by a raised word. It does
/// nothing: its clauses speak of any tasks.
pub fn task_laws<T: HasTask, M: HasParts>()
    ensures works { (old new : T) → WorkMoves (T.task old) (T.task new) }
    ensures faults { (old new : T) (last : M) → FaultMoves (T.task old) (M.parts last) (T.task new) }
    ensures takes { (old new : T) → TakeMoves (T.task old) (T.task new) }
    ensures takes_failed { (old new : T) → FailedTakeMoves (T.task old) (T.task new) }
    ensures stops_by_fail { (old new : T) (last : M) → FailMoves (T.task old) (M.parts last) (T.task new) }
    ensures stops_by_sight { (old new : T) (last : M) → SightMoves (T.task old) (M.parts last) (T.task new) }
    ensures puts { (old new : T) → PutMoves (T.task old) (T.task new) }
    ensures looks { (t : T) → LookMoves (T.task t) }
    ensures raises { (t : T) → RaiseMoves (T.task t) }
    ensures done { (t : T) → EndIsDone (T.task t) }
{}

/// What parcels say, what may be put for whom, and how what goes out begins and ends. It does nothing:
/// its clauses are worked cases.
pub fn pipeline_cases()
    ensures frames { FramesAreRows }
    ensures put_for { PutForOne }
    ensures apart { SwappedAreApart }
    ensures waits { WaitsForSecond }
    ensures offered { OfferedToSecond }
    ensures kept { KeptComesFirst }
    ensures new { NewWaysAreOfEdges }
    ensures left { LeftComesLast }
    ensures owed { RowsAreOwed }
    ensures failed { FailedOwes }
    ensures hands { HandsAreLeft }
    ensures both { HandsOfBoth }
    ensures tests { ChecksTest }
{}

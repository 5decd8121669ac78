//! Laws of every task of every sound job, and worked cases. The functions do nothing: their clauses
//! are what they are for.

ghost use Rattle.hy_course.specs.Cases.{BothAreAwaited, CloseAloneIsNone, CloseIsAwaited, CloseIsCounted, DoneOwesNothing, FailStopsIt, FailureStays, FaultIsMetInWork, LostRowIsNone, OwedIsPut, RaisesForFaults, SelectsAll, SelectsWhole, SightStopsIt, StrayIsNone, StrayRowFailsNone, TakenRowWaits, TestedRowFails, TestedRowPasses, UnowedRowIsNone, WaitingRowIsPut, WrongReceiverIsNone};
ghost use Rattle.hy_course.specs.Course.{AllClosed, DoneMeets, MovesRan, NoneRan, RanThen};
ghost use Rattle.hy_course.specs.PartCases.{FedRowIsPacked, LostPackedIsNone, PackedRowsGoOn, SelectIsMade, SelectPartsBegin, SelectPartsEnd, SelectPartsLive, WrongWayIsNone};
ghost use Rattle.hy_course.specs.Parts.{DonePartsRest, LivingPartsPut, NewPartsRun, PartsAdvance, PartsBreak, PartsContinue, WaitingIsFront};

/// A task, as its record sees it at a moment.
pub trait HasCourse {
    ghost use Rattle.hy_course.specs.Task.{TaskOf};

    ghost course: { Self → TaskOf };
}

/// What a task that has not failed is made of.
pub trait HasParts {
    ghost use Rattle.hy_course.specs.Parts.{PartsOf};

    ghost parts: { Self → PartsOf };
}

/// Steps are put together, and what a task took and put from its beginning to its end is a record that
/// meets its own parts and took the Close of each sender. It does nothing: its clauses speak of any tasks.
pub fn course_laws<T: HasCourse>()
    ensures one { (old new : T) → MovesRan (T.course old) (T.course new) }
    ensures none { (t : T) → NoneRan (T.course t) }
    ensures ran_then { (first second third : T) → RanThen (T.course first) (T.course second) (T.course third) }
    ensures done { (first last : T) → DoneMeets (T.course first) (T.course last) }
    ensures all_closed { (first last : T) → AllClosed (T.course first) (T.course last) }
{}

/// What comes in, the operator that works and what goes out, from their beginning to their end. It does
/// nothing: its clauses speak of any parts.
pub fn part_laws<T: HasParts>()
    ensures continues { (old new : T) → PartsContinue (T.parts old) (T.parts new) }
    ensures new { (t : T) → NewPartsRun (T.parts t) }
    ensures done { (t : T) → DonePartsRest (T.parts t) }
    ensures living { (t : T) → LivingPartsPut (T.parts t) }
    ensures front { (t : T) → WaitingIsFront (T.parts t) }
{}

/// What is shown of its parts is shown of the task. It does nothing: its clauses speak of any task that
/// may put what its parts may.
pub fn made_laws<T: HasCourse + HasParts>()
    ensures advance { (old new : T) → PartsAdvance (T.course old) (T.parts old) (T.course new) (T.parts new) }
    ensures breaks { (old new : T) → PartsBreak (T.course old) (T.parts old) (T.course new) }
{}

/// Small tasks, and what their steps may do and may not. It does nothing: its clauses are worked cases.
pub fn course_cases()
    ensures taken { TakenRowWaits }
    ensures lost { LostRowIsNone }
    ensures waiting { WaitingRowIsPut }
    ensures unowed { UnowedRowIsNone }
    ensures receiver { WrongReceiverIsNone }
    ensures stray { StrayIsNone }
    ensures close { CloseIsCounted }
    ensures fail { FailStopsIt }
    ensures sight { SightStopsIt }
    ensures close_alone { CloseAloneIsNone }
    ensures stray_row { StrayRowFailsNone }
    ensures fault { FaultIsMetInWork }
    ensures owed { OwedIsPut }
    ensures stays { FailureStays }
    ensures passes { TestedRowPasses }
    ensures fails { TestedRowFails }
    ensures done { DoneOwesNothing }
    ensures awaited { CloseIsAwaited }
    ensures both_awaited { BothAreAwaited }
    ensures raises { RaisesForFaults }
    ensures whole { SelectsWhole }
    ensures all { SelectsAll }
{}

/// The parts of a select, and what their steps may do and may not. It does nothing: its clauses are
/// worked cases.
pub fn part_cases()
    ensures begin { SelectPartsBegin }
    ensures end { SelectPartsEnd }
    ensures live { SelectPartsLive }
    ensures made { SelectIsMade }
    ensures packed { FedRowIsPacked }
    ensures lost { LostPackedIsNone }
    ensures goes_on { PackedRowsGoOn }
    ensures wrong_way { WrongWayIsNone }
{}

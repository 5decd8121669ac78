//! Laws of every stage of every sound job, and worked cases. The functions do nothing: their clauses
//! are what they are for.

ghost use Rattle.hy_progress.specs.Cases.{BeginningIsView, EmptyMailboxWaits, FullMailboxWaits, LostCloseIsNone, MergeAsksInTurn, NoSenderNoWait, OthersAreAsked, RoomIsUsed, SignalIsTaken};
ghost use Rattle.hy_progress.specs.Ends.{RecordsSettle};
ghost use Rattle.hy_progress.specs.Numbers.{FallingLowers, LaterMayRise, RiseAloneIsNone};
ghost use Rattle.hy_progress.specs.Stuck.{NeverStuck};

/// While a task of a stage is not done, some task of the stage can go on; and where a list of numbers
/// falls as it does in each step, one number falls. It does nothing: its clauses speak of every stage
/// at every moment.
pub fn progress_laws()
    ensures never_stuck { NeverStuck }
    ensures lowers { FallingLowers }
{}

/// Where each task's record meets its own parts, and what is between the tasks meets, the records of
/// stages are settled. It does nothing: its clause speaks of all records.
pub fn ending_laws()
    ensures { RecordsSettle }
{}

/// Whose next step would do nothing, and whose not, and which lists of numbers fall. It does nothing:
/// its clauses are worked cases.
pub fn progress_cases()
    ensures full { FullMailboxWaits }
    ensures room { RoomIsUsed }
    ensures empty { EmptyMailboxWaits }
    ensures taken { SignalIsTaken }
    ensures no_sender { NoSenderNoWait }
    ensures beginning { BeginningIsView }
    ensures lost { LostCloseIsNone }
    ensures merge { MergeAsksInTurn }
    ensures others { OthersAreAsked }
    ensures later { LaterMayRise }
    ensures rise { RiseAloneIsNone }
{}

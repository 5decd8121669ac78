//! The laws of drivers, and worked cases.

ghost use Rattle.hy_driver.specs.Rows.{FieldsAgain, ValuesAgain};
ghost use Rattle.hy_driver.specs.Laws.{ComesThen, EndedComes, FedComes, LentAgain, NoneComes, StepsThen, TurnedComes, WholeRun};
ghost use Rattle.hy_driver.specs.Cases.{AskingTurns, ChecksFail, ChecksTest, EndsAtTheEnd, ExportsCount, FieldsHaveValues, FramesCount, GivesWhatItHolds, HandedInOrder, RowsThatCome, RunsAreLeft, RunsAreMade};

use crate::driver::Driver;

/// What a new driver makes of the rows that it takes, as the laws see it.
pub trait Starts: Driver {
    ghost use Rattle.std.specs.Prelude.{List};
    ghost use Rattle.hy_driver.specs.Rows.{Fed, Row};

    // Its output for the rows that come.
    ghost out: { Self → List Fed → List Row → Type 0 };
}

/// The laws of drivers: what may come behind a call might come before it, calls are put together,
/// and what a driver gave from its beginning to its end is what its activity makes of the rows that
/// it took. It does nothing: its clauses speak of the states of a driver between its calls.
pub fn driver_laws<D: Starts>()
    ensures fed { (old new : D) → FedComes (D.seen old) (D.seen new) }
    ensures ended { (old new : D) → EndedComes (D.seen old) (D.seen new) }
    ensures turned { (old new : D) → TurnedComes (D.seen old) (D.seen new) }
    ensures lent_again { (old new : D) → LentAgain (D.seen old) (D.seen new) }
    ensures none_comes { (d : D) → NoneComes (D.seen d) }
    ensures comes_then { (first second third : D) → ComesThen (D.seen first) (D.seen second) (D.seen third) }
    ensures steps_then { (first second third : D) → StepsThen (D.seen first) (D.seen second) (D.seen third) }
    ensures whole_run { (first last : D) → WholeRun (D.seen first) (D.seen last) (D.out first) }
{}

/// A row of values is found again in its fields, and fields are those of a row of values. It does
/// nothing: its clauses speak of all rows.
pub fn row_laws()
    ensures values { ValuesAgain }
    ensures fields { FieldsAgain }
{}

/// What may come to drivers, what their answers tell, and what they may leave. It does nothing: its
/// clauses are worked cases.
pub fn driver_cases()
    ensures values { FieldsHaveValues }
    ensures comes { RowsThatCome }
    ensures tests { ChecksTest }
    ensures fails { ChecksFail }
    ensures gives { GivesWhatItHolds }
    ensures ends { EndsAtTheEnd }
    ensures asks { AskingTurns }
    ensures frames { FramesCount }
    ensures left { RunsAreLeft }
    ensures made { RunsAreMade }
    ensures handed { HandedInOrder }
    ensures exports { ExportsCount }
{}

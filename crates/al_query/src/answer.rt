//! Answers of plans over the files of their datasets.

ghost use Rattle.std.specs.Prelude.{◌≡◌, [], false, IfOk, IfErr, map};
ghost use Rattle.al_value.specs.Outside.{Counted, Told};
ghost use Rattle.al_csv.specs.OutText as spec;
ghost use Rattle.al_plan.specs.Accept.{IsAccepted};
ghost use Rattle.al_plan.specs.Allows as meaning;
ghost use Rattle.al_plan.specs.Refines.{Fit};
ghost use Rattle.al_query.specs.Tells.{AreSetsOf, IsStop, TellsAnswer, TellsEvaluated, is_source_fault};

use crate::data::load_all;
use crate::plan::read_accepted;
use crate::status::Status;
use al_csv::out_text;
use al_infer::acceptance_laws;
use al_io::Source;
use al_plain::{Data, PlainFault, evaluate};
use al_plan::{PlanFile, Var, live};
use al_value::{List, Name, NoMemory, Row};
use std::alloc::Global;

/// The text of the plan's answer, all of which is made before anything is written.
pub fn answer<S: Source>(alloc: Global, name: &str, source: &mut S) -> Result<List<u8>, Status>
    ensures tells { Told (S.files source.old) (λ fs. TellsAnswer fs name.now result) }
    ensures stops { IfErr result IsStop }
    ensures cause { Counted (is_source_fault result) (S.faults source.old) (S.faults source.new) }
{
    let boxed = match read_accepted(alloc, name, source) {
        Ok(boxed) => boxed,
        Err(status) => return Err(status),
    };
    let file = boxed.get();
    let sets = match load_all(alloc, file.datasets.as_slice(), source) {
        Ok(sets) => sets,
        Err(status) => return Err(status),
    };
    answer_text(alloc, file, sets.as_slice())
}

/// The text of the plan's answer over its datasets.
fn answer_text(alloc: Global, file: &PlanFile, sets: &[Data]) -> Result<List<u8>, Status>
    requires fits { Fit file.now.root }
    requires accepted { IsAccepted file.now }
    requires data { AreSetsOf file.now.datasets sets.now }
    ensures tells { TellsEvaluated file.now sets.now result }
    ensures stops { IfErr result IsStop }
    ensures cause { is_source_fault result ≡ false }
{
    acceptance_laws();
    match evaluate(alloc, &file.root, sets) {
        Ok(rows) => match rows_text(alloc, file, rows.as_slice()) {
            Ok(text) => Ok(text),
            Err(NoMemory) => Err(Status::NoMemory),
        },
        Err(PlainFault::Check(name)) => Err(Status::CheckFailed(name)),
        Err(PlainFault::NoMemory) => Err(Status::NoMemory),
    }
}

fn names_of(alloc: Global, vars: &[Var]) -> Result<List<Name>, NoMemory>
    ensures { IfOk result (λ names. names ≡ map (λ v. v.name) vars.now) }
{
    let mut names = List::new(alloc);
    for v in vars {
        names.push(v.name.copy(alloc)?)?;
    }
    Ok(names)
}

/// The result text of rows whose values stand in the order of the live variables.
fn rows_text(alloc: Global, file: &PlanFile, rows: &[Row]) -> Result<List<u8>, NoMemory>
    ensures { IfOk result (λ text. text ≡ spec.out_text (map (λ v. v.name) (meaning.live file.now.root [])) rows.now) }
{
    let vars = live(alloc, &file.root)?;
    let names = names_of(alloc, vars.as_slice())?;
    out_text(alloc, names.as_slice(), rows)
}

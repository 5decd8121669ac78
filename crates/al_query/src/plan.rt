//! Plan files that are read and accepted.

ghost use Rattle.std.specs.Prelude.{◌≡◌, IfOk, IfErr};
ghost use Rattle.al_value.specs.Outside.{Counted, Told};
ghost use Rattle.al_plan.specs.Refines.{Fit};
ghost use Rattle.al_read.specs.Reads as reads;
ghost use Rattle.al_plan.specs.Accept.{IsAccepted};
ghost use Rattle.al_query.specs.Tells.{IsPlanStop, TellsPlan, is_source_fault};

use crate::accept::accept_text;
use crate::fault::CompileFault;
use crate::status::Status;
use al_io::{FileRead, ReadFault, Source, read_file};
use al_plan::{PlanFile, Refused, RefusedKind};
use al_read::MAX_PLAN;
use al_value::Boxed;
use std::alloc::Global;

/// Reads the plan file of a name, and accepts what it states.
pub fn read_accepted<S: Source>(
    alloc: Global,
    name: &str,
    source: &mut S,
) -> Result<Boxed<PlanFile>, Status>
    ensures files { S.files source.new ≡ S.files source.old }
    ensures tells { Told (S.files source.old) (λ fs. TellsPlan (fs name.now) result) }
    ensures fits { IfOk result (λ f. Fit f.root) }
    ensures accepted { IfOk result IsAccepted }
    ensures stops { IfErr result IsPlanStop }
    ensures cause { Counted (is_source_fault result) (S.faults source.old) (S.faults source.new) }
{
    match read_file(alloc, source, name, MAX_PLAN) {
        Ok(FileRead::Bytes(bytes)) => match accept_text(alloc, bytes.as_slice()) {
            Ok(file) => Ok(file),
            Err(CompileFault::Refused(refused)) => Err(Status::PlanRefused(refused)),
            Err(CompileFault::NoMemory) => Err(Status::NoMemory),
        },
        Ok(FileRead::TooLarge) => Err(plan_refused(RefusedKind::TooLarge, MAX_PLAN as u32)),
        Ok(FileRead::Absent) => Err(plan_refused(RefusedKind::Absent, 0)),
        Err(ReadFault::Failed) => Err(Status::SourceFault),
        Err(ReadFault::NoMemory) => Err(Status::NoMemory),
    }
}

fn plan_refused(kind: RefusedKind, place: u32) -> Status
    ensures { result ≡ Status.PlanRefused (reads.refusal kind place) }
{
    Status::PlanRefused(Refused { kind, place })
}

//! Texts of plan files that are read and accepted.

ghost use Rattle.std.specs.Prelude.{◌≡◌, MatchResult, IfOk};
ghost use Rattle.al_plan.specs.Refines.{Fit};
ghost use Rattle.al_plan.specs.Accept.{HasPlaces, IsAccepted};
ghost use Rattle.al_query.specs.Compiles.{TellsAccepted, TellsPlanText, TellsRead, unread_fault};

use crate::fault::CompileFault;
use al_infer::{acceptance_laws, refusal};
use al_plan::PlanFile;
use al_read::{ReadRefused, one_plan_reading, read_plan};
use al_value::{Boxed, NoMemory};
use std::alloc::Global;

/// The accepted file of a text.
pub fn accept_text(alloc: Global, bytes: &[u8]) -> Result<Boxed<PlanFile>, CompileFault>
    ensures tells { TellsPlanText bytes.now result }
    ensures fits { IfOk result (λ f. Fit f.root) }
    ensures accepted { IfOk result IsAccepted }
{
    acceptance_laws();
    let file = match read_text(alloc, bytes) {
        Ok(file) => file,
        Err(fault) => return Err(fault),
    };
    match accept_file(alloc, file.get()) {
        Ok(()) => Ok(file),
        Err(fault) => Err(fault),
    }
}

/// The file that a text states, behind a pointer since it is large.
fn read_text(alloc: Global, bytes: &[u8]) -> Result<Boxed<PlanFile>, CompileFault>
    ensures tells { TellsRead bytes.now result }
    ensures places { IfOk result HasPlaces }
{
    one_plan_reading();
    match read_plan(alloc, bytes) {
        Ok(file) => boxed(alloc, file),
        Err(fault) => Err(unread(fault)),
    }
}

fn unread(refused: ReadRefused) -> CompileFault
    ensures { result ≡ unread_fault refused }
{
    match refused {
        ReadRefused::Refused(why) => CompileFault::Refused(why),
        ReadRefused::NoMemory => CompileFault::NoMemory,
    }
}

fn boxed(alloc: Global, file: PlanFile) -> Result<Boxed<PlanFile>, CompileFault>
    ensures { MatchResult result (λ b. b ≡ file) (λ e. e ≡ CompileFault.NoMemory) }
{
    match Boxed::new(alloc, file) {
        Ok(file) => Ok(file),
        Err(NoMemory) => Err(CompileFault::NoMemory),
    }
}

/// Refuses a file that breaks a rule of acceptance.
fn accept_file(alloc: Global, file: &PlanFile) -> Result<(), CompileFault>
    requires { HasPlaces file.now }
    ensures { TellsAccepted file.now result }
{
    match refusal(alloc, file) {
        Ok(None) => Ok(()),
        Ok(Some(refused)) => Err(CompileFault::Refused(refused)),
        Err(NoMemory) => Err(CompileFault::NoMemory),
    }
}

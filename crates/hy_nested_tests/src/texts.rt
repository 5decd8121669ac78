//! Plans and jobs of plan texts.

ghost use Rattle.std.specs.Prelude.{◌≡◌, IfOk};
ghost use Rattle.al_phys.specs.Placed.{Placed};
ghost use Rattle.al_plan.specs.Accept.{HasPlaces};
ghost use Rattle.al_plan.specs.Refines.{Fit};
ghost use Rattle.al_read.specs.Reads.{Reads};
ghost use Rattle.hy_job.specs.Sound.{SoundJob};

use al_choose::choose;
use al_infer::{acceptance_laws, refusal};
use al_jobgen::job_of;
use al_phys::Phys;
use al_plan::PlanFile;
use al_read::{one_plan_reading, read_plan};
use al_value::Boxed;
use hy_job::Job;
use std::alloc::Global;
use std::test::Fail;

fn boxed(alloc: Global, file: PlanFile) -> Result<Boxed<PlanFile>, Fail>
    ensures { IfOk result (λ b. b ≡ file) }
{
    Ok(Boxed::new(alloc, file)?)
}

/// The file of a text, behind a pointer since it is large.
fn read(alloc: Global, text: &str) -> Result<Boxed<PlanFile>, Fail>
    ensures reads { IfOk result (Reads text.now) }
    ensures places { IfOk result HasPlaces }
{
    one_plan_reading();
    match read_plan(alloc, text.as_bytes()) {
        Ok(file) => boxed(alloc, file),
        Err(_) => Err(Fail::from("not read")),
    }
}

/// The file of a text that is accepted.
pub fn accepted(alloc: Global, text: &str) -> Result<Boxed<PlanFile>, Fail>
    ensures { IfOk result (λ f. Fit f.root) }
{
    acceptance_laws();
    let file = read(alloc, text)?;
    match refusal(alloc, file.get()) {
        Ok(None) => Ok(file),
        _ => Err(Fail::from("not accepted")),
    }
}

fn chosen(alloc: Global, text: &str) -> Result<Boxed<Phys>, Fail>
    ensures { IfOk result (λ ph. Placed ph 1) }
{
    let file = accepted(alloc, text)?;
    Ok(Boxed::new(alloc, choose(alloc, &file.get().root, 1)?)?)
}

/// The job of a text, for one partition.
pub fn job(alloc: Global, text: &str) -> Result<Boxed<Job>, Fail>
    ensures { IfOk result SoundJob }
{
    let plan = chosen(alloc, text)?;
    Ok(Boxed::new(alloc, job_of(alloc, plan.get(), 1)?)?)
}

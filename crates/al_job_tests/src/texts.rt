//! Physical plans and jobs of plan texts.

ghost use Rattle.std.specs.Prelude.{◌≡◌, ◌<◌, ◌≤◌, IfOk};
ghost use Rattle.al_phys.specs.Placed.{Placed};
ghost use Rattle.al_plan.specs.Accept.{HasPlaces};
ghost use Rattle.al_plan.specs.Refines.{Fit};
ghost use Rattle.al_read.specs.Reads.{Reads};
ghost use Rattle.hy_job.specs.Sound.{SoundJob};

use al_choose::choose;
use al_infer::{acceptance_laws, refusal};
use al_jobgen::job_of;
use al_phys::Phys;
use al_plan::PlanFile;
use al_read::{one_plan_reading, read_plan};
use al_value::Boxed;
use hy_job::Job;
use std::alloc::Global;
use std::test::Fail;

fn boxed(alloc: Global, file: PlanFile) -> Result<Boxed<PlanFile>, Fail>
    ensures { IfOk result (λ b. b ≡ file) }
{
    Ok(Boxed::new(alloc, file)?)
}

/// The file of a text, behind a pointer since it is large.
fn read(alloc: Global, text: &str) -> Result<Boxed<PlanFile>, Fail>
    ensures reads { IfOk result (Reads text.now) }
    ensures places { IfOk result HasPlaces }
{
    one_plan_reading();
    match read_plan(alloc, text.as_bytes()) {
        Ok(file) => boxed(alloc, file),
        Err(_) => Err(Fail::from("not read")),
    }
}

/// The file of a text that is accepted.
fn accepted(alloc: Global, text: &str) -> Result<Boxed<PlanFile>, Fail>
    ensures { IfOk result (λ f. Fit f.root) }
{
    acceptance_laws();
    let file = read(alloc, text)?;
    match refusal(alloc, file.get()) {
        Ok(None) => Ok(file),
        _ => Err(Fail::from("not accepted")),
    }
}

fn chosen(alloc: Global, text: &str, partitions: u32) -> Result<Boxed<Phys>, Fail>
    requires some { 0 < partitions }
    requires few { partitions ≤ 16 }
    ensures { IfOk result (λ ph. Placed ph partitions) }
{
    let file = accepted(alloc, text)?;
    Ok(Boxed::new(alloc, choose(alloc, &file.get().root, partitions)?)?)
}

fn made(alloc: Global, text: &str, partitions: u32) -> Result<Boxed<Job>, Fail>
    requires some { 0 < partitions }
    requires few { partitions ≤ 16 }
    ensures { IfOk result SoundJob }
{
    let plan = chosen(alloc, text, partitions)?;
    Ok(Boxed::new(alloc, job_of(alloc, plan.get(), partitions)?)?)
}

/// The physical plan of a text, for 1 to 16 partitions.
pub fn plan(alloc: Global, text: &str, partitions: u32) -> Result<Boxed<Phys>, Fail> {
    if partitions == 0 || partitions > 16 {
        return Err(Fail::from("partitions"));
    }
    chosen(alloc, text, partitions)
}

/// The job of a text, for 1 to 16 partitions.
pub fn job(alloc: Global, text: &str, partitions: u32) -> Result<Boxed<Job>, Fail>
    ensures { IfOk result SoundJob }
{
    if partitions == 0 || partitions > 16 {
        return Err(Fail::from("partitions"));
    }
    made(alloc, text, partitions)
}

//! From the text of a plan file to the job that answers it.

ghost use Rattle.std.specs.Prelude.{◌≡◌, ◌⊎◌, ◌<◌, ◌≤◌, Some, Err as Refuses, IfErr, IfOk};
ghost use Rattle.al_plan.specs.Refines.{Fit};
ghost use Rattle.al_query.specs.Served.{IsCompiled, IsPlan, IsPlanRefused};

use crate::accept::accept_text;
use crate::fault::CompileFault;
use al_choose::choose;
use al_infer::acceptance_laws;
use al_jobgen::job_of;
use al_opt::optimise;
use al_phys::Phys;
use al_plan::{Plan, PlanFile, Refused};
use al_read::one_plan_reading;
use al_rule::Trace;
use al_value::{Boxed, NoMemory};
use hy_job::Job;
use std::alloc::Global;

/// What the text of a plan file compiles to: the file, the steps by which its plan is rewritten
/// and the plan that they lead to, the physical plan, and the job that answers it.
#[derive(Debug, Drop)]
pub struct Compiled {
    pub file: Boxed<PlanFile>,
    pub plan: Plan,
    pub trace: Trace,
    pub phys: Phys,
    pub job: Job,
}

/// A plan, with how it is rewritten, computed and run.
#[derive(Debug, Drop)]
pub struct Planned {
    pub plan: Plan,
    pub trace: Trace,
    pub phys: Phys,
    pub job: Job,
}

/// Compiles the text of a plan file for a number of partitions.
pub fn compile(alloc: Global, bytes: &[u8], partitions: u32) -> Result<Compiled, CompileFault>
    requires some { 0 < partitions }
    requires few { partitions ≤ 16 }
    ensures file { IfOk result (λ c. IsPlan (Some bytes.now) c.file) }
    ensures compiled { IfOk result (λ c. IsCompiled c.file.root partitions c.trace.steps c.plan c.phys c.job) }
    ensures refused { IfErr result (λ e. (r : Refused) → e ≡ CompileFault.Refused r → IsPlanRefused (Some bytes.now) r) }
    ensures exact { (r : Refused) → IsPlanRefused (Some bytes.now) r → (result ≡ Refuses (CompileFault.Refused r)) ⊎ (result ≡ Refuses CompileFault.NoMemory) }
{
    one_plan_reading();
    acceptance_laws();
    let file = match accept_text(alloc, bytes) {
        Ok(file) => file,
        Err(fault) => return Err(fault),
    };
    match compile_plan(alloc, &file.get().root, partitions) {
        Ok(
            Planned {
                plan,
                trace,
                phys,
                job,
            },
        ) => Ok(Compiled {
            file,
            plan,
            trace,
            phys,
            job,
        }),
        Err(NoMemory) => Err(CompileFault::NoMemory),
    }
}

/// How a plan is rewritten, computed and run on this many partitions.
pub fn compile_plan(alloc: Global, root: &Plan, partitions: u32) -> Result<Planned, NoMemory>
    requires fit { Fit root.now }
    requires some { 0 < partitions }
    requires few { partitions ≤ 16 }
    ensures { IfOk result (λ p. IsCompiled root.now partitions p.trace.steps p.plan p.phys p.job) }
{
    let (plan, trace) = optimise(alloc, root)?;
    let phys = choose(alloc, &plan, partitions)?;
    let job = job_of(alloc, &phys, partitions)?;
    Ok(Planned {
        plan,
        trace,
        phys,
        job,
    })
}

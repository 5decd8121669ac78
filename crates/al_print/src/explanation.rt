//! What becomes of a plan, from its rewriting to its job.

ghost use Rattle.std.specs.Prelude.{◌≡◌, IfOk};
ghost use Rattle.al_print.specs.Canonical.{file_with};
ghost use Rattle.al_print.specs.Explanation.{explanation as text_of};

use crate::file::print_with;
use crate::job::print_job;
use crate::phys::print_phys;
use crate::trace::print_trace;
use al_phys::Phys;
use al_plan::{Plan, PlanFile};
use al_rule::Trace;
use al_value::{List, NoMemory};
use hy_job::{Job, Stage};
use std::alloc::Global;

/// An explanation: the trace, behind the line `plan` the canonical text of the file with the plan
/// that the trace leads to, the physical plan, and its job with its stages.
pub fn print_explanation(
    alloc: Global,
    t: &Trace,
    f: &PlanFile,
    plan: &Plan,
    phys: &Phys,
    job: &Job,
    stages: &[Stage],
) -> Result<List<u8>, NoMemory>
    ensures { IfOk result (λ text. text ≡ text_of t.now.steps (file_with f.now plan.now) phys.now job.now stages.now) }
{
    let mut text = print_trace(alloc, t)?;
    text.extend(b"plan\n")?;
    let canonical = print_with(alloc, f, plan)?;
    text.extend(canonical.as_slice())?;
    let operators = print_phys(alloc, phys, job.partitions)?;
    text.extend(operators.as_slice())?;
    let activities = print_job(alloc, job, stages)?;
    text.extend(activities.as_slice())?;
    Ok(text)
}

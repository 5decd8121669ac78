//! How a plan is rewritten, computed and run.

ghost use Rattle.std.specs.Prelude.{◌≡◌, ◌<◌, ◌≤◌, IfErr, IfOk};
ghost use Rattle.al_value.specs.Outside.{Counted, Told};
ghost use Rattle.al_plan.specs.Refines.{Fit};
ghost use Rattle.al_query.specs.Tells.{Explains, IsPlanStop, TellsExplained, is_source_fault};

use crate::compiler::compile_plan;
use crate::plan::read_accepted;
use crate::status::Status;
use al_io::Source;
use al_plan::PlanFile;
use al_print::print_explanation;
use al_value::{List, NoMemory};
use hy_job::stages;
use std::alloc::Global;

/// The steps by which the plan of a file is rewritten and the plan that they lead to, with its
/// physical plan and its job for this many partitions; no dataset is opened.
pub fn explained<S: Source>(
    alloc: Global,
    name: &str,
    partitions: u32,
    source: &mut S,
) -> Result<List<u8>, Status>
    requires some { 0 < partitions }
    requires few { partitions ≤ 16 }
    ensures tells { Told (S.files source.old) (λ fs. TellsExplained fs name.now partitions result) }
    ensures stops { IfErr result IsPlanStop }
    ensures cause { Counted (is_source_fault result) (S.faults source.old) (S.faults source.new) }
{
    let file = match read_accepted(alloc, name, source) {
        Ok(file) => file,
        Err(status) => return Err(status),
    };
    match explanation_of(alloc, file.get(), partitions) {
        Ok(text) => Ok(text),
        Err(NoMemory) => Err(Status::NoMemory),
    }
}

fn explanation_of(alloc: Global, file: &PlanFile, partitions: u32) -> Result<List<u8>, NoMemory>
    requires fit { Fit file.now.root }
    requires some { 0 < partitions }
    requires few { partitions ≤ 16 }
    ensures { IfOk result (λ text. Explains file.now partitions text) }
{
    let parts = compile_plan(alloc, &file.root, partitions)?;
    let stages = stages(alloc, &parts.job)?;
    print_explanation(
        alloc,
        &parts.trace,
        file,
        &parts.plan,
        &parts.phys,
        &parts.job,
        stages.as_slice(),
    )
}

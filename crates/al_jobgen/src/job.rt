//! The job of a physical plan.

ghost use Rattle.std.specs.Prelude.{◌≡◌, ◌≤◌, ◌<◌, IfOk};
ghost use Rattle.al_phys.specs.Placed.{Placed};
ghost use Rattle.hy_job.specs.Sound.{SoundJob};
ghost use Rattle.al_jobgen.specs.JobOf as spec;
ghost use Rattle.al_jobgen.specs.Literals.{LiteralsAreValues};

use crate::builder::{Builder, add};
use al_phys::Phys;
use al_value::{List, NoMemory};
use hy_job::Job;
use std::alloc::Global;

/// The job of a physical plan, placed or not.
pub fn build(alloc: Global, p: &Phys, partitions: u32) -> Result<Job, NoMemory>
    ensures is { IfOk result (λ job. job ≡ spec.job_of p.now partitions) }
    ensures values { IfOk result LiteralsAreValues }
{
    let mut builder = Builder {
        activities: List::new(alloc),
        edges: List::new(alloc),
        blocks: List::new(alloc),
    };
    let _tail = add(alloc, &mut builder, p)?;
    Ok(Job {
        activities: builder.activities,
        edges: builder.edges,
        blocks: builder.blocks,
        partitions,
    })
}

/// The job of a physical plan for a number of partitions. Memory is also wanting where a nested
/// plan has a variable past column 2^32 - 1.
pub fn job_of(alloc: Global, p: &Phys, partitions: u32) -> Result<Job, NoMemory>
    requires some { 0 < partitions }
    requires few { partitions ≤ 16 }
    requires placed { Placed p.now partitions }
    ensures is { IfOk result (λ job. job ≡ spec.job_of p.now partitions) }
    ensures sound { IfOk result SoundJob }
    ensures values { IfOk result LiteralsAreValues }
{
    build(alloc, p, partitions)
}

//! The stage of an activity, and the numbers of its tasks there.
ghost use Rattle.std.specs.Prelude.{◌≡◌, ◌≤◌, ◌<◌, length, nat_eq, IfOk};
ghost use Rattle.std.specs.List.{list_any, Contains};
ghost use Rattle.hy_job.specs.Sound.{SoundJob};
ghost use Rattle.hy_job.specs.Stages.{IsPart, activities_in};
ghost use Rattle.hy_job.specs.Boxes.{task_at};
ghost use Rattle.hy_places.specs.Finding as spec;

use al_value::{List, NoMemory};
use hy_job::{Job, Stage};
use std::alloc::Global;

/// The stage in which the activity runs.
pub fn stage_of(alloc: Global, job: &Job, activity: u32) -> Result<Stage, NoMemory>
    requires sound { SoundJob job.now }
    requires activity { activity < length job.now.activities }
    ensures part { IfOk result (λ s. IsPart job.now s.activities) }
    ensures inside { IfOk result (λ s. Contains s.activities activity) }
{
    let stages = hy_job::stages(alloc, job)?;
    let stage = the_one_with(stages.as_slice(), activity);
    let mut activities = List::new(alloc);
    activities.extend(stage.activities.as_slice())?;
    Ok(Stage { activities })
}

/// The first of these stages that has the activity.
fn the_one_with<'a>(stages: &'a [Stage], activity: u32) -> &'a Stage
    requires { Contains (activities_in stages.now) activity }
    ensures one { Contains stages.now result.now }
    ensures inside { Contains result.now.activities activity }
{
    for stage in stages {
        if is_among(stage.activities.as_slice(), activity) {
            return stage;
        }
    }
    unreachable!()
}

/// Whether the activity is one of these.
pub fn is_among(activities: &[u32], activity: u32) -> bool
    ensures { result ≡ list_any (λ a. nat_eq a activity) activities.now }
{
    for a in activities {
        if *a == activity {
            return true;
        }
    }
    false
}

/// The number in its stage of the activity's task in this partition.
pub fn number_of(job: &Job, stage: &Stage, activity: u32, partition: u32) -> u32
    requires sound { SoundJob job.now }
    requires part { IsPart job.now stage.now.activities }
    requires activity { Contains stage.now.activities activity }
    requires partition { partition < job.now.partitions }
    ensures { result ≡ task_at job.now.partitions stage.now activity partition }
{
    let place = place_of(stage.activities.as_slice(), activity);
    (place * job.partitions as usize + partition as usize) as u32
}

/// The place of an activity among these, or their number where it is not there.
pub fn place_of(activities: &[u32], activity: u32) -> usize
    ensures place { result ≡ spec.place_of activities.now activity }
    ensures within { result ≤ length activities.now }
{
    for (place, a) in activities.iter().enumerate() {
        if *a == activity {
            return place;
        }
    }
    activities.len()
}

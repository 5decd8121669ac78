//! The mailboxes of stages, and where tasks find theirs.
ghost use Rattle.std.specs.Prelude.{◌<◌, length};
ghost use Rattle.hy_job.specs.Sound.{SoundJob};

use crate::jobs::{grouping, sorting};
use hy_connect::{boxes, connect_cases, merge_cases, route_laws};
use hy_job::Job;
use hy_mail::BoxPlan;
use hy_places::{inboxes, number_of, outboxes, place_cases, place_laws, stage_of};
use std::alloc::Global;
use std::test::Fail;

/// Numbers behind one another.
fn put_numbers(alloc: Global, text: &mut String, numbers: &[u32]) -> Result<(), Fail> {
    for number in numbers {
        let digits = format!(in alloc; " {number}")?;
        text.push_str(digits.as_str())?;
    }
    Ok(())
}

/// Mailboxes as text: its senders, its receiver, how many parcels it holds, and how many fields its rows have.
fn shown(alloc: Global, plans: &[BoxPlan]) -> Result<String, Fail> {
    let mut text = String::new(alloc);
    for plan in plans {
        put_numbers(alloc, &mut text, plan.senders.as_slice())?;
        let rest = format!(in alloc; " > {}, {}, {};", plan.receiver, plan.capacity, plan.arity)?;
        text.push_str(rest.as_str())?;
    }
    Ok(text)
}

/// The mailboxes of the stage of an activity.
fn boxes_of(alloc: Global, job: &Job, activity: u32) -> Result<String, Fail>
    requires sound { SoundJob job.now }
    requires activity { activity < length job.now.activities }
{
    let stage = stage_of(alloc, job, activity)?;
    let plans = boxes(alloc, job, &stage)?;
    shown(alloc, plans.as_slice())
}

/// The number of an activity's task, the mailboxes from which it takes and those into which it puts.
fn place_of(alloc: Global, job: &Job, activity: u32, partition: u32) -> Result<String, Fail>
    requires sound { SoundJob job.now }
    requires activity { activity < length job.now.activities }
    requires partition { partition < job.now.partitions }
{
    let stage = stage_of(alloc, job, activity)?;
    let number = number_of(job, &stage, activity, partition);
    let mut text = format!(in alloc; "{number}:")?;
    let takes = inboxes(alloc, job, &stage, activity, 0, partition)?;
    put_numbers(alloc, &mut text, takes.as_slice())?;
    text.push_str(" >")?;
    let puts = outboxes(alloc, job, &stage, activity, partition)?;
    put_numbers(alloc, &mut text, puts.as_slice())?;
    Ok(text)
}

/// Each activity's tasks, and behind them the mailboxes of its stage.
fn places(alloc: Global, job: &Job, activity: u32) -> Result<String, Fail>
    requires { SoundJob job.now }
{
    if activity as usize >= job.activities.len() || job.partitions != 2 {
        return Err(Fail::from("not there"));
    }
    let first = place_of(alloc, job, activity, 0)?;
    let second = place_of(alloc, job, activity, 1)?;
    let boxes = boxes_of(alloc, job, activity)?;
    Ok(format!(in alloc;
        "{} | {} |{}",
        first.as_str(),
        second.as_str(),
        boxes.as_str()
    )?)
}

/// Of each activity of the sort: its number and mailboxes in each partition, and the mailboxes of its stage. A
/// mailbox holds two parcels for each sender.
const SORT: [&str; 4] = [
    "0: > 0 | 1: > 1 | 0 > 2, 2, 1; 1 > 3, 2, 1;",
    "2: 0 > | 3: 1 > | 0 > 2, 2, 1; 1 > 3, 2, 1;",
    "0: > 0 | 1: > 1 | 0 > 2, 2, 1; 1 > 2, 2, 1;",
    "2: 0 1 > | 3: > | 0 > 2, 2, 1; 1 > 2, 2, 1;",
];

#[test]
fn a_merge_has_a_box_for_each_sender(rt: HostRuntime) -> Result<(), Fail> {
    let alloc = rt.alloc();
    let job = sorting(alloc)?;
    for activity in 0..4u32 {
        assert_eq!(rt;
            places(alloc, &job, activity)?.as_str(),
            SORT[activity as usize]
        );
    }
    Ok(())
}

/// The same of the groups.
const GROUP: [&str; 4] = [
    "0: > 0 1 | 1: > 0 1 | 0 1 > 2, 4, 2; 0 1 > 3, 4, 2;",
    "2: 0 > | 3: 1 > | 0 1 > 2, 4, 2; 0 1 > 3, 4, 2;",
    "0: > 0 | 1: > 0 | 0 1 > 2, 4, 3;",
    "2: 0 > | 3: > | 0 1 > 2, 4, 3;",
];

#[test]
fn senders_share_a_box(rt: HostRuntime) -> Result<(), Fail> {
    let alloc = rt.alloc();
    let job = grouping(alloc)?;
    for activity in 0..4u32 {
        assert_eq!(rt;
            places(alloc, &job, activity)?.as_str(),
            GROUP[activity as usize]
        );
    }
    Ok(())
}

#[test]
fn cases_are_called() {
    route_laws();
    connect_cases();
    merge_cases();
    place_laws();
    place_cases();
}

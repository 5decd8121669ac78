//! The mailboxes of a stage.
ghost use Rattle.std.specs.Prelude.{◌≡◌, ◌≤◌, ◌<◌, ◌+◌, ◌*◌, ◌++◌, ◌∷◌, [], map, length, nat_eq, IfOk, OnOk};
ghost use Rattle.std.specs.List.{list_any, range_with_len};
ghost use Rattle.hy_job.specs.Sound.{SoundJob, activity, arity_of};
ghost use Rattle.hy_job.specs.Stages.{IsPart};
ghost use Rattle.hy_connect.specs.Plans as spec;

use al_value::{List, NoMemory};
use hy_job::{Activity, Edge, Job, Stage, Wire};
use hy_mail::BoxPlan;
use hy_places::{is_among, place_of};
use std::alloc::Global;

/// An edge, by the numbers of its tasks: how many partitions there are, the number of the first task of each side,
/// and how many fields its rows have.
#[derive(Clone, Copy)]
pub(crate) struct Ends {
    partitions: u32,
    from: u32,
    to: u32,
    arity: usize,
}

/// The mailboxes of a stage, in the order of their numbers: by edge, receiver and sender. They name the tasks of the
/// stage by their numbers.
pub fn boxes(alloc: Global, job: &Job, stage: &Stage) -> Result<List<BoxPlan>, NoMemory>
    requires sound { SoundJob job.now }
    requires part { IsPart job.now stage.now.activities }
    ensures { IfOk result (λ plans. plans ≡ spec.plans_of job.now stage.now) }
{
    let mut plans = List::new(alloc);
    for edge in job.edges.as_slice() {
        push_edge(alloc, job, stage, edge, &mut plans)?;
    }
    Ok(plans)
}

/// Plans the mailboxes of an edge, if it is one of the stage, behind others.
fn push_edge(
    alloc: Global,
    job: &Job,
    stage: &Stage,
    edge: &Edge,
    plans: &mut List<BoxPlan>,
) -> Result<(), NoMemory>
    requires partitions { job.now.partitions ≤ 16 }
    requires few { length stage.now.activities ≤ 1048576 }
    requires from { edge.now.from < length job.now.activities }
    ensures { OnOk result (plans.new ≡ plans.old ++ spec.edge_plans job.now stage.now edge.now) }
{
    if !is_among(stage.activities.as_slice(), edge.to) {
        return Ok(());
    }
    push_receivers(alloc, ends_of(job, stage, edge), &edge.wire, plans)
}

/// The number of the first task of an activity.
fn first_of(partitions: u32, activities: &[u32], activity: u32) -> u32
    requires partitions { partitions ≤ 16 }
    requires few { length activities.now ≤ 1048576 }
    ensures first { result ≡ spec.first_of partitions activities.now activity }
    ensures small { result < 16777217 }
{
    (place_of(activities, activity) * partitions as usize) as u32
}

/// The numbers of an edge's tasks.
fn ends_of(job: &Job, stage: &Stage, edge: &Edge) -> Ends
    requires partitions { job.now.partitions ≤ 16 }
    requires few { length stage.now.activities ≤ 1048576 }
    requires from { edge.now.from < length job.now.activities }
    ensures ends { result ≡ spec.ends_of job.now stage.now edge.now }
    ensures small { spec.IsSmall result }
{
    let activities = stage.activities.as_slice();
    let sender = &job.activities.as_slice()[edge.from as usize];
    Ends {
        partitions: job.partitions,
        from: first_of(job.partitions, activities, edge.from),
        to: first_of(job.partitions, activities, edge.to),
        arity: sender.arity as usize,
    }
}

/// Plans the mailboxes of each receiver behind others.
fn push_receivers(
    alloc: Global,
    ends: Ends,
    wire: &Wire,
    plans: &mut List<BoxPlan>,
) -> Result<(), NoMemory>
    requires { spec.IsSmall ends }
    ensures { OnOk result (plans.new ≡ plans.old ++ spec.plans_over ends wire.now) }
{
    for receiver in 0..ends.partitions {
        push_receiver(alloc, ends, wire, receiver, plans)?;
    }
    Ok(())
}

/// Plans the mailboxes of a receiver behind others.
fn push_receiver(
    alloc: Global,
    ends: Ends,
    wire: &Wire,
    receiver: u32,
    plans: &mut List<BoxPlan>,
) -> Result<(), NoMemory>
    requires small { spec.IsSmall ends }
    requires receiver { receiver < ends.partitions }
    ensures { OnOk result (plans.new ≡ plans.old ++ spec.plans_at ends wire.now receiver) }
{
    match wire {
        Wire::OneToOne => push_box(alloc, ends, receiver, 1, receiver, plans),
        Wire::Hash(_) => push_box(alloc, ends, 0, ends.partitions, receiver, plans),
        Wire::Broadcast => push_box(alloc, ends, 0, ends.partitions, receiver, plans),
        Wire::Gather => {
            if receiver == 0 {
                return push_box(alloc, ends, 0, ends.partitions, receiver, plans);
            }
            Ok(())
        }
        Wire::Merge(_) => {
            if receiver == 0 {
                return push_each(alloc, ends, receiver, plans);
            }
            Ok(())
        }
    }
}

/// Plans a mailbox for each sender behind others.
fn push_each(
    alloc: Global,
    ends: Ends,
    receiver: u32,
    plans: &mut List<BoxPlan>,
) -> Result<(), NoMemory>
    requires small { spec.IsSmall ends }
    requires receiver { receiver < ends.partitions }
    ensures { OnOk result (plans.new ≡ plans.old ++ map (λ s. spec.plan_at ends s 1 receiver) (range_with_len 0 ends.partitions)) }
{
    for sender in 0..ends.partitions {
        push_box(alloc, ends, sender, 1, receiver, plans)?;
    }
    Ok(())
}

/// Plans a mailbox with so many senders, from this one on, behind others.
fn push_box(
    alloc: Global,
    ends: Ends,
    first: u32,
    count: u32,
    receiver: u32,
    plans: &mut List<BoxPlan>,
) -> Result<(), NoMemory>
    requires small { spec.IsSmall ends }
    requires first { first < 17 }
    requires count { count < 17 }
    requires receiver { receiver < 17 }
    ensures { OnOk result (plans.new ≡ plans.old ++ spec.plan_at ends first count receiver ∷ []) }
{
    let mut senders = List::new(alloc);
    for n in 0..count {
        senders.push(ends.from + first + n)?;
    }
    plans.push(BoxPlan {
        senders,
        receiver: ends.to + receiver,
        capacity: 2 * count as usize,
        arity: ends.arity,
    })
}

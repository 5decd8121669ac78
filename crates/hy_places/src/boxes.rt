//! The mailboxes of a task by their numbers. The mailboxes of a stage are numbered by edge, receiver and
//! sender, so those of a task follow one another behind those of the edges before its own.
ghost use Rattle.std.specs.Prelude.{◌≡◌, ◌≤◌, ◌<◌, ◌+◌, ◌*◌, [], length, nat_eq, IfOk, MatchOption};
ghost use Rattle.std.specs.List.{list_any, range_with_len, Contains};
ghost use Rattle.hy_job.specs.Sound.{SoundJob, edges_at, edges_from};
ghost use Rattle.hy_job.specs.Stages.{IsPart};
ghost use Rattle.hy_job.specs.Boxes.{place_where};
ghost use Rattle.hy_places.specs.Finding as finding;
ghost use Rattle.hy_places.specs.Places as spec;

use crate::stage::is_among;
use crate::wires::{boxes_count, first_inbox, first_outbox, inboxes_count, receivers_count};
use al_value::{List, NoMemory};
use hy_job::{Edge, Job, Stage};
use std::alloc::Global;

/// The numbers of the mailboxes from which the activity's task in this partition takes at an input, in
/// the order of the senders: one, or over a merging wire one for each sender. There is none where no
/// edge feeds the input or where no task sends to this partition.
pub fn inboxes(
    alloc: Global,
    job: &Job,
    stage: &Stage,
    activity: u32,
    input: u32,
    partition: u32,
) -> Result<List<u32>, NoMemory>
    requires sound { SoundJob job.now }
    requires activity { Contains stage.now.activities activity }
    requires partition { partition < job.now.partitions }
    ensures { IfOk result (λ boxes. boxes ≡ spec.inboxes_of job.now stage.now activity input partition) }
{
    let edges = job.edges.as_slice();
    let place = place_into(edges, activity, input);
    if place == edges.len() {
        return Ok(List::new(alloc));
    }
    let wire = &edges[place].wire;
    let first = first_box(job, stage, place) + first_inbox(wire, partition);
    numbers(alloc, first, inboxes_count(wire, job.partitions, partition))
}

/// The numbers of the mailboxes into which the activity's task in this partition puts, in the order of
/// the receivers. There is none where no edge leaves the activity.
pub fn outboxes(
    alloc: Global,
    job: &Job,
    stage: &Stage,
    activity: u32,
    partition: u32,
) -> Result<List<u32>, NoMemory>
    requires sound { SoundJob job.now }
    requires part { IsPart job.now stage.now.activities }
    requires activity { Contains stage.now.activities activity }
    requires partition { partition < job.now.partitions }
    ensures { IfOk result (λ boxes. boxes ≡ spec.outboxes_of job.now stage.now activity partition) }
{
    let edges = job.edges.as_slice();
    let place = place_from(edges, activity);
    if place == edges.len() {
        return Ok(List::new(alloc));
    }
    let wire = &edges[place].wire;
    let first = first_box(job, stage, place) + first_outbox(wire, partition);
    numbers(alloc, first, receivers_count(wire, job.partitions))
}

/// The edge that feeds an input of the activity.
pub fn edge_into<'a>(job: &'a Job, activity: u32, input: u32) -> Option<&'a Edge>
    ensures { MatchOption result (edges_at job.now activity input ≡ []) (λ e. spec.IsFirst e.now (edges_at job.now activity input)) }
{
    let edges = job.edges.as_slice();
    let place = place_into(edges, activity, input);
    if place == edges.len() {
        return None;
    }
    Some(&edges[place])
}

/// The edge that leaves the activity.
pub fn edge_from<'a>(job: &'a Job, activity: u32) -> Option<&'a Edge>
    ensures { MatchOption result (edges_from job.now activity ≡ []) (λ e. spec.IsFirst e.now (edges_from job.now activity)) }
{
    let edges = job.edges.as_slice();
    let place = place_from(edges, activity);
    if place == edges.len() {
        return None;
    }
    Some(&edges[place])
}

/// The place of the first edge that feeds an input, or their number where none does.
fn place_into(edges: &[Edge], activity: u32, input: u32) -> usize
    ensures place { result ≡ place_where (finding.feeds activity input) edges.now }
    ensures within { result ≤ length edges.now }
{
    for (place, edge) in edges.iter().enumerate() {
        if edge.to == activity && edge.input == input {
            return place;
        }
    }
    edges.len()
}

/// The place of the first edge that leaves an activity, or their number where none does.
fn place_from(edges: &[Edge], activity: u32) -> usize
    ensures place { result ≡ place_where (finding.leaves activity) edges.now }
    ensures within { result ≤ length edges.now }
{
    for (place, edge) in edges.iter().enumerate() {
        if edge.from == activity {
            return place;
        }
    }
    edges.len()
}

/// The number of the first mailbox of the edge in this place.
fn first_box(job: &Job, stage: &Stage, place: usize) -> u32
    requires sound { SoundJob job.now }
    requires within { place < length job.now.edges }
    ensures first { result ≡ finding.boxes_before job.now stage.now place }
    ensures small { result < 16777217 }
{
    let mut first = 0;
    for edge in &job.edges.as_slice()[..place] {
        first += boxes_in(job, stage, edge);
    }
    first
}

/// How many mailboxes the edge has in the stage.
fn boxes_in(job: &Job, stage: &Stage, edge: &Edge) -> u32
    ensures { result ≡ finding.boxes_in job.now stage.now edge.now }
{
    if is_among(stage.activities.as_slice(), edge.to) {
        boxes_count(&edge.wire, job.partitions)
    } else {
        0
    }
}

/// So many numbers, from this one on.
fn numbers(alloc: Global, first: u32, count: u32) -> Result<List<u32>, NoMemory>
    requires first { first < 16777300 }
    requires count { count < 17 }
    ensures { IfOk result (λ numbers. numbers ≡ range_with_len first count) }
{
    let mut numbers = List::new(alloc);
    for n in 0..count {
        numbers.push(first + n)?;
    }
    Ok(numbers)
}

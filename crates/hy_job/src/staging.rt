ghost use Rattle.std.specs.Prelude.{◌≡◌, ◌<◌, ◌^◌, IfOk, length, nat_eq};
ghost use Rattle.std.specs.List.{All, list_any, range_with_len};
ghost use Rattle.hy_job.specs.Sound.{SoundJob};
ghost use Rattle.hy_job.specs.Stages.{StageOf};
ghost use Rattle.hy_job.specs.Finding as spec;

use crate::job::{Block, Edge, Job, Stage};
use al_value::{List, NoMemory};
use std::alloc::Global;

/// Where the edge that leaves an activity ends.
fn target(edges: &[Edge], from: u32) -> Option<u32>
    ensures { result ≡ spec.target_of edges.now from }
{
    for edge in edges {
        if edge.from == from {
            return Some(edge.to);
        }
    }
    None
}

/// The numbers below `count`.
fn numbers(alloc: Global, count: usize) -> Result<Vec<u32>, NoMemory>
    requires { count < 2 ^ 32 }
    ensures { IfOk result (λ ns. ns.items ≡ range_with_len 0 count) }
{
    let mut numbers = Vec::new(alloc);
    for n in 0..count {
        numbers.push(n as u32)?;
    }
    Ok(numbers)
}

/// The root of each activity: the one without a leaving edge to which the edges lead. All
/// activities of a part have one root, and no other part has it.
fn find_roots(alloc: Global, job: &Job) -> Result<Vec<u32>, NoMemory>
    requires { SoundJob job.now }
    ensures { IfOk result (λ roots. spec.AreRoots job.now roots.items) }
{
    let edges = job.edges.as_slice();
    let mut roots = numbers(alloc, job.activities.len())?;
    let mut place = roots.len();
    while place > 0 {
        place -= 1;
        if let Some(to) = target(edges, place as u32) {
            roots[place] = roots[to as usize];
        }
    }
    Ok(roots)
}

/// Whether the activity is one of these.
fn is_among(activities: &[u32], activity: u32) -> bool
    ensures { result ≡ list_any (λ a. nat_eq a activity) activities.now }
{
    for a in activities {
        if *a == activity {
            return true;
        }
    }
    false
}

/// Whether no block into the part of this root comes from an activity that is left.
fn is_ready(blocks: &[Block], roots: &[u32], left: &[u32], root: u32) -> bool
    requires { All (λ b. b.after < length roots.now) blocks.now }
    ensures { result ≡ spec.is_ready blocks.now roots.now left.now root }
{
    for block in blocks {
        if roots[block.after as usize] == root && is_among(left, block.before) {
            return false;
        }
    }
    true
}

/// The root of the first activity that is left and whose part is ready.
fn next_root(blocks: &[Block], roots: &[u32], left: &[u32]) -> Option<u32>
    requires blocks_end { All (λ b. b.after < length roots.now) blocks.now }
    requires within { All (λ a. a < length roots.now) left.now }
    ensures { result ≡ spec.next_root blocks.now roots.now left.now }
{
    for a in left {
        let root = roots[*a as usize];
        if is_ready(blocks, roots, left, root) {
            return Some(root);
        }
    }
    None
}

/// The activities of this root.
fn with_root(alloc: Global, roots: &[u32], root: u32, left: &[u32]) -> Result<List<u32>, NoMemory>
    requires { All (λ a. a < length roots.now) left.now }
    ensures { IfOk result (λ part. part ≡ spec.with_root roots.now root left.now) }
{
    let mut part = List::new(alloc);
    for a in left {
        if roots[*a as usize] == root {
            part.push(*a)?;
        }
    }
    Ok(part)
}

/// The activities of other roots.
fn without_root(alloc: Global, roots: &[u32], root: u32, left: &[u32]) -> Result<Vec<u32>, NoMemory>
    requires { All (λ a. a < length roots.now) left.now }
    ensures { IfOk result (λ others. others.items ≡ spec.without_root roots.now root left.now) }
{
    let mut others = Vec::new(alloc);
    for a in left {
        if roots[*a as usize] != root {
            others.push(*a)?;
        }
    }
    Ok(others)
}

/// The stages of a job, in order.
pub fn stages(alloc: Global, job: &Job) -> Result<List<Stage>, NoMemory>
    requires { SoundJob job.now }
    ensures { IfOk result (λ stages. StageOf job.now stages) }
{
    let blocks = job.blocks.as_slice();
    let roots = find_roots(alloc, job)?;
    let mut left = numbers(alloc, roots.len())?;
    let mut stages = List::new(alloc);
    while let Some(root) = next_root(blocks, &roots, &left) {
        let activities = with_root(alloc, &roots, root, &left)?;
        left = without_root(alloc, &roots, root, &left)?;
        stages.push(Stage { activities })?;
    }
    Ok(stages)
}

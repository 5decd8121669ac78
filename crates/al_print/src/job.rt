//! Jobs: a line for each stage, each activity, each wire and each block.

ghost use Rattle.std.specs.Prelude.{◌≡◌, ◌++◌, OnOk, IfOk};
ghost use Rattle.std.specs.List.{flat_map};
ghost use Rattle.al_print.specs.Jobs as spec;

use crate::trace::push_number;
use al_value::{List, NoMemory};
use hy_job::{Activity, Block, Edge, Job, Kind, Stage, Wire};
use std::alloc::Global;

fn kind_word(kind: &Kind) -> &'static str
    ensures { result.now ≡ spec.kind_word kind.now }
{
    match kind {
        Kind::Scan { .. } => "scan",
        Kind::One => "one",
        Kind::Assign { .. } => "assign",
        Kind::Select { .. } => "select",
        Kind::Project { .. } => "project",
        Kind::Unnest { .. } => "unnest",
        Kind::Subplan { .. } => "subplan",
        Kind::Check { .. } => "check",
        Kind::Union { .. } => "union",
        Kind::Limit { .. } => "limit",
        Kind::LocalLimit { .. } => "local-limit",
        Kind::PreGroup { .. } => "pre-group",
        Kind::Result { .. } => "result",
        Kind::SortBuild(_) => "sort-build",
        Kind::SortEmit(_) => "sort-emit",
        Kind::GroupBuild(_) => "group-build",
        Kind::GroupEmit(_) => "group-emit",
        Kind::JoinBuild(_) => "join-build",
        Kind::JoinProbe(_) => "join-probe",
        Kind::AggPart { .. } => "agg-part",
        Kind::AggFinal { .. } => "agg-final",
    }
}

fn wire_word(wire: &Wire) -> &'static str
    ensures { result.now ≡ spec.wire_word wire.now }
{
    match wire {
        Wire::OneToOne => "one-to-one",
        Wire::Hash(_) => "hash",
        Wire::Broadcast => "broadcast",
        Wire::Gather => "gather",
        Wire::Merge(_) => "merge",
    }
}

fn push_listed(text: &mut List<u8>, number: u32) -> Result<(), NoMemory>
    ensures { OnOk result (text.new ≡ text.old ++ spec.listed_number number) }
{
    text.push(b' ')?;
    push_number(text, u64::from(number))
}

fn push_numbers(text: &mut List<u8>, numbers: &[u32]) -> Result<(), NoMemory>
    ensures { OnOk result (text.new ≡ text.old ++ flat_map spec.listed_number numbers.now) }
{
    for number in numbers {
        push_listed(text, *number)?;
    }
    Ok(())
}

fn push_stage(text: &mut List<u8>, number: u64, stage: &Stage) -> Result<(), NoMemory>
    ensures { OnOk result (text.new ≡ text.old ++ spec.stage_line number stage.now) }
{
    text.extend(b"stage ")?;
    push_number(text, number)?;
    text.push(b':')?;
    push_numbers(text, stage.activities.as_slice())?;
    text.push(b'\n')
}

#[tactic(auto, using(crate::proofs::JobLines::stages_none))]
fn push_stages(text: &mut List<u8>, stages: &[Stage]) -> Result<(), NoMemory>
    ensures { OnOk result (text.new ≡ text.old ++ spec.stage_lines 0 stages.now) }
{
    for (number, stage) in stages.iter().enumerate() {
        push_stage(text, number as u64, stage)?;
    }
    Ok(())
}

fn push_activity(text: &mut List<u8>, activity: &Activity) -> Result<(), NoMemory>
    ensures { OnOk result (text.new ≡ text.old ++ spec.activity_line activity.now) }
{
    text.extend(b"activity ")?;
    push_number(text, u64::from(activity.number))?;
    text.push(b' ')?;
    text.extend(kind_word(&activity.kind).as_bytes())?;
    text.push(b'\n')
}

fn push_activities(text: &mut List<u8>, activities: &[Activity]) -> Result<(), NoMemory>
    ensures { OnOk result (text.new ≡ text.old ++ flat_map spec.activity_line activities.now) }
{
    for activity in activities {
        push_activity(text, activity)?;
    }
    Ok(())
}

fn push_wire(text: &mut List<u8>, edge: &Edge) -> Result<(), NoMemory>
    ensures { OnOk result (text.new ≡ text.old ++ spec.wire_line edge.now) }
{
    text.extend(b"wire ")?;
    push_number(text, u64::from(edge.from))?;
    text.extend(b" -> ")?;
    push_number(text, u64::from(edge.to))?;
    text.push(b' ')?;
    text.extend(wire_word(&edge.wire).as_bytes())?;
    text.push(b'\n')
}

fn push_wires(text: &mut List<u8>, edges: &[Edge]) -> Result<(), NoMemory>
    ensures { OnOk result (text.new ≡ text.old ++ flat_map spec.wire_line edges.now) }
{
    for edge in edges {
        push_wire(text, edge)?;
    }
    Ok(())
}

fn push_block(text: &mut List<u8>, block: &Block) -> Result<(), NoMemory>
    ensures { OnOk result (text.new ≡ text.old ++ spec.block_line block.now) }
{
    text.extend(b"block ")?;
    push_number(text, u64::from(block.before))?;
    text.extend(b" -> ")?;
    push_number(text, u64::from(block.after))?;
    text.push(b'\n')
}

fn push_blocks(text: &mut List<u8>, blocks: &[Block]) -> Result<(), NoMemory>
    ensures { OnOk result (text.new ≡ text.old ++ flat_map spec.block_line blocks.now) }
{
    for block in blocks {
        push_block(text, block)?;
    }
    Ok(())
}

/// The part of an explanation that shows a job with its stages: the line `job`, and a line for each
/// stage with its activities, each activity, each wire and each block.
pub fn print_job(alloc: Global, j: &Job, stages: &[Stage]) -> Result<List<u8>, NoMemory>
    ensures { IfOk result (λ text. text ≡ spec.job_text j.now stages.now) }
{
    let mut text = List::new(alloc);
    text.extend(b"job\n")?;
    push_stages(&mut text, stages)?;
    push_activities(&mut text, j.activities.as_slice())?;
    push_wires(&mut text, j.edges.as_slice())?;
    push_blocks(&mut text, j.blocks.as_slice())?;
    Ok(text)
}

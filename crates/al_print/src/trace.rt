//! Traces of rewriting.

ghost use Rattle.std.specs.Prelude.{◌≡◌, ◌++◌, suc, codes, decimal, OnOk, IfOk};
ghost use Rattle.std.specs.List.{flat_map};
ghost use Rattle.al_print.specs.Traces as words;
ghost use Rattle.al_print.specs.Traces.{after_slash, place_word, step_line, step_lines, trace_text};

use al_rule::{RuleName, SetName, Trace, TraceStep};
use al_value::{List, NoMemory};
use itoa::Buffer;
use std::alloc::Global;

fn set_word(set: SetName) -> &'static str
    ensures { result.now ≡ words.set_word set }
{
    match set {
        SetName::Split => "split",
        SetName::Select => "select",
        SetName::Join => "join",
        SetName::Order => "order",
        SetName::Group => "group",
        SetName::Prune => "prune",
    }
}

fn rule_word(rule: RuleName) -> &'static str
    ensures { result.now ≡ words.rule_word rule }
{
    match rule {
        RuleName::SplitAnd => "split-and",
        RuleName::SelectTrue => "select-true",
        RuleName::SelectBelowAssign => "select-below-assign",
        RuleName::SelectBelowProject => "select-below-project",
        RuleName::SelectBelowUnnest => "select-below-unnest",
        RuleName::SelectBelowSubplan => "select-below-subplan",
        RuleName::SelectBelowOrder => "select-below-order",
        RuleName::SelectBelowDistinct => "select-below-distinct",
        RuleName::SelectBelowJoinLeft => "select-below-join-left",
        RuleName::SelectBelowJoinRight => "select-below-join-right",
        RuleName::SelectIntoJoin => "select-into-join",
        RuleName::SelectBelowLeftJoin => "select-below-leftjoin",
        RuleName::LeftJoinToJoin => "leftjoin-to-join",
        RuleName::DropTrue => "drop-true",
        RuleName::JoinCondLeft => "join-cond-left",
        RuleName::JoinCondRight => "join-cond-right",
        RuleName::LeftJoinCondRight => "leftjoin-cond-right",
        RuleName::DropOrder => "drop-order",
        RuleName::OrderOverOrder => "order-over-order",
        RuleName::LimitOverLimit => "limit-over-limit",
        RuleName::LimitBelowProject => "limit-below-project",
        RuleName::LimitBelowAssign => "limit-below-assign",
        RuleName::DistinctOverDistinct => "distinct-over-distinct",
        RuleName::DistinctOverGroup => "distinct-over-group",
        RuleName::DistinctOverAggregate => "distinct-over-aggregate",
        RuleName::AggregateOverProject => "aggregate-over-project",
        RuleName::GroupOverProject => "group-over-project",
        RuleName::ResultProject => "result-project",
        RuleName::ProjectOverProject => "project-over-project",
        RuleName::ProjectAll => "project-all",
        RuleName::AssignUnderProject => "assign-under-project",
        RuleName::ProjectBelowSelect => "project-below-select",
        RuleName::ProjectBelowOrder => "project-below-order",
        RuleName::ProjectBelowJoin => "project-below-join",
        RuleName::GroupProjectInput => "group-project-input",
        RuleName::AggregateProjectInput => "aggregate-project-input",
    }
}

pub fn push_number(text: &mut List<u8>, n: u64) -> Result<(), NoMemory>
    ensures { OnOk result (text.new ≡ text.old ++ decimal n) }
{
    let mut buffer = Buffer::new();
    text.extend(buffer.format(n).as_bytes())
}

fn push_child(text: &mut List<u8>, child: u32) -> Result<(), NoMemory>
    ensures { OnOk result (text.new ≡ text.old ++ after_slash child) }
{
    text.push(b'/')?;
    push_number(text, u64::from(child))
}

fn push_children(text: &mut List<u8>, place: &[u32]) -> Result<(), NoMemory>
    ensures { OnOk result (text.new ≡ text.old ++ flat_map after_slash place.now) }
{
    for child in place {
        push_child(text, *child)?;
    }
    Ok(())
}

fn push_place(text: &mut List<u8>, place: &[u32]) -> Result<(), NoMemory>
    ensures { OnOk result (text.new ≡ text.old ++ place_word place.now) }
{
    if place.is_empty() {
        return text.push(b'/');
    }
    push_children(text, place)
}

#[tactic(auto, using(crate::proofs::TraceLaws::step_of))]
fn push_step(text: &mut List<u8>, number: u64, step: &TraceStep) -> Result<(), NoMemory>
    ensures { OnOk result (text.new ≡ text.old ++ step_line number step.now) }
{
    push_number(text, number)?;
    text.push(b' ')?;
    text.extend(set_word(step.set).as_bytes())?;
    text.push(b' ')?;
    text.extend(rule_word(step.rule).as_bytes())?;
    text.push(b' ')?;
    push_place(text, step.place.children.as_slice())?;
    text.push(b'\n')
}

#[tactic(auto, using(crate::proofs::TraceLaws::lines_none, crate::proofs::TraceLaws::lines_kept))]
fn push_steps(text: &mut List<u8>, steps: &[TraceStep]) -> Result<(), NoMemory>
    ensures { OnOk result (text.new ≡ text.old ++ step_lines 0 steps.now) }
{
    for (before, step) in steps.iter().enumerate() {
        push_step(text, before as u64 + 1, step)?;
    }
    Ok(())
}

/// The part of an explanation that lists the steps of a trace: the line `trace`, and a line for
/// each step with its number from 1, its set, its rule and its place.
pub fn print_trace(alloc: Global, t: &Trace) -> Result<List<u8>, NoMemory>
    ensures { IfOk result (λ text. text ≡ trace_text t.now.steps) }
{
    let mut text = List::new(alloc);
    text.extend(b"trace\n")?;
    push_steps(&mut text, t.steps.as_slice())?;
    Ok(text)
}

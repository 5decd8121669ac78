//! Physical plans: one line for each operator, with what it delivers.

ghost use Rattle.std.specs.Prelude.{◌≡◌, ◌++◌, ◌∷◌, OnOk, IfOk, codes};
ghost use Rattle.std.specs.List.{flat_map};
ghost use Rattle.al_plan.specs.Grammar as grammar;
ghost use Rattle.al_phys.specs.declared.phys.Phys.{out-Phys};
ghost use Rattle.al_print.specs.Canonical.{after};
ghost use Rattle.al_print.specs.Physical as spec;

use crate::expr::put_expr;
use crate::file::put_plan;
use crate::line::Line;
use crate::operator::{
    put_aggregates, put_assignments, put_generator, put_keys, put_order, put_vars,
};
use al_phys::{JoinForm, Local, Partitioning, Phys, delivered};
use al_plan::{AggCall, Expr, OrderKey, Plan, Var};
use al_value::{List, NoMemory};
use std::alloc::Global;

fn form_name(form: JoinForm) -> &'static str
    ensures { result.now ≡ spec.form_name form }
{
    match form {
        JoinForm::HashJoin => "hash-join",
        JoinForm::HashLeftJoin => "hash-leftjoin",
        JoinForm::LoopJoin => "loop-join",
        JoinForm::LoopLeftJoin => "loop-leftjoin",
    }
}

/// A word, and variables behind it.
#[tactic(auto, using(crate::proofs::LineLaws::line_laws))]
fn put_variables(line: &mut Line, name: &str, vars: &[Var]) -> Result<(), NoMemory>
    ensures { OnOk result (line.new ≡ after line.old (spec.word name.now ∷ grammar.variables vars.now)) }
{
    line.name(name)?;
    put_vars(line, vars)
}

/// A word, and the keys of an order behind it.
#[tactic(auto, using(crate::proofs::LineLaws::line_laws))]
fn put_sorted(line: &mut Line, name: &str, keys: &[OrderKey]) -> Result<(), NoMemory>
    ensures { OnOk result (line.new ≡ after line.old (spec.word name.now ∷ spec.keys_words keys.now)) }
{
    line.name(name)?;
    put_order(line, keys)
}

/// A word, and an expression behind it.
#[tactic(auto, using(crate::proofs::LineLaws::line_laws))]
fn put_condition(line: &mut Line, name: &str, cond: &Expr) -> Result<(), NoMemory>
    ensures { OnOk result (line.new ≡ after line.old (spec.word name.now ∷ grammar.expr_words cond.now)) }
{
    line.name(name)?;
    put_expr(line, cond)
}

/// A word, and aggregates behind it.
#[tactic(auto, using(crate::proofs::LineLaws::line_laws))]
fn put_aggregated(line: &mut Line, name: &str, made: &[(Var, AggCall)]) -> Result<(), NoMemory>
    ensures { OnOk result (line.new ≡ after line.old (spec.word name.now ∷ grammar.enclosed (flat_map grammar.aggregated_words made.now))) }
{
    line.name(name)?;
    put_aggregates(line, made)
}

/// A word, and the keys and the nested plan of a group behind it.
#[tactic(auto, using(crate::proofs::LineLaws::line_laws))]
fn put_group(
    line: &mut Line,
    name: &str,
    keys: &[(Var, Var)],
    nested: &Plan,
) -> Result<(), NoMemory>
    ensures { OnOk result (line.new ≡ after line.old (spec.word name.now ∷ (grammar.enclosed (flat_map grammar.key_words keys.now) ++ grammar.plan_words nested.now))) }
{
    line.name(name)?;
    put_keys(line, keys)?;
    put_plan(line, nested)
}

#[tactic(auto, using(crate::proofs::LineLaws::line_laws))]
fn put_union(line: &mut Line, made: &[Var], left: &[Var], right: &[Var]) -> Result<(), NoMemory>
    ensures { OnOk result (line.new ≡ after line.old (spec.word (codes "union") ∷ (grammar.variables made.now ++ (grammar.variables left.now ++ grammar.variables right.now)))) }
{
    line.name("union")?;
    put_vars(line, made)?;
    put_vars(line, left)?;
    put_vars(line, right)
}

/// An operator's name, and what it holds beside its inputs.
#[tactic(auto, using(al_phys::proofs::PhysRules::pout_laws, crate::proofs::LineLaws::line_laws))]
fn put_own(line: &mut Line, p: &Phys) -> Result<(), NoMemory>
    ensures { OnOk result (line.new ≡ after line.old (spec.own_words (out-Phys p.now))) }
{
    match p {
        Phys::Scan { set, vars } => {
            line.name("scan")?;
            put_variables(line, set.as_str(), vars.as_slice())
        }
        Phys::One => line.name("one"),
        Phys::Assign { made, .. } => {
            line.name("assign")?;
            put_assignments(line, made.as_slice())
        }
        Phys::Select { cond, .. } => put_condition(line, "select", cond),
        Phys::Project { vars, .. } => put_variables(line, "project", vars.as_slice()),
        Phys::Unnest { var, items, .. } => {
            line.name("unnest")?;
            line.variable(var.name.as_str())?;
            put_generator(line, items)
        }
        Phys::Subplan { nested, .. } => {
            line.name("subplan")?;
            put_plan(line, nested)
        }
        Phys::Check { name, cond, .. } => {
            line.name("check")?;
            put_condition(line, name.as_str(), cond)
        }
        Phys::Join { form, cond, .. } => put_condition(line, form_name(*form), cond),
        Phys::HashGroup { keys, nested, .. } => {
            put_group(line, "hash-group", keys.as_slice(), nested)
        }
        Phys::PreGroup { keys, nested, .. } => {
            put_group(line, "pre-group", keys.as_slice(), nested)
        }
        Phys::HashDistinct { .. } => line.name("hash-distinct"),
        Phys::AggPart { made, .. } => put_aggregated(line, "agg-part", made.as_slice()),
        Phys::AggFinal { made, .. } => put_aggregated(line, "agg-final", made.as_slice()),
        Phys::Union {
            made,
            left_vars,
            right_vars,
            ..
        } => put_union(
            line,
            made.as_slice(),
            left_vars.as_slice(),
            right_vars.as_slice(),
        ),
        Phys::Sort { keys, .. } => put_sorted(line, "sort", keys.as_slice()),
        Phys::Limit { n, k, .. } => {
            line.name("limit")?;
            line.count(*n)?;
            line.count(*k)
        }
        Phys::LocalLimit { n, .. } => {
            line.name("local-limit")?;
            line.count(*n)
        }
        Phys::Result { vars, .. } => put_variables(line, "result", vars.as_slice()),
        Phys::HashExchange { vars, .. } => put_variables(line, "hash", vars.as_slice()),
        Phys::Broadcast { .. } => line.name("broadcast"),
        Phys::Gather { .. } => line.name("gather"),
        Phys::Merge { keys, .. } => put_sorted(line, "merge", keys.as_slice()),
    }
}

fn put_partitioning(line: &mut Line, parts: &Partitioning) -> Result<(), NoMemory>
    ensures { OnOk result (line.new ≡ after line.old (spec.partitioning_words parts.now)) }
{
    match parts {
        Partitioning::Unpartitioned => line.name("unpartitioned"),
        Partitioning::Hash(vars) => put_variables(line, "hash", vars.as_slice()),
        Partitioning::Broadcast => line.name("broadcast"),
        Partitioning::Random => line.name("random"),
    }
}

fn put_local(line: &mut Line, local: &Local) -> Result<(), NoMemory>
    ensures { OnOk result (line.new ≡ after line.old (spec.local_words local.now)) }
{
    match local {
        Local::None => line.name("none"),
        Local::Order(keys) => put_sorted(line, "order", keys.as_slice()),
    }
}

#[tactic(auto, unfolding(crate::specs::Canonical::after))]
fn push_own(alloc: Global, text: &mut List<u8>, p: &Phys) -> Result<(), NoMemory>
    ensures { OnOk result (text.new ≡ text.old ++ spec.spaced (spec.own_words (out-Phys p.now))) }
{
    let mut line = Line::new(alloc);
    put_own(&mut line, p)?;
    text.extend(line.into_text().as_slice())
}

#[tactic(auto, unfolding(crate::specs::Canonical::after))]
fn push_partitioning(
    alloc: Global,
    text: &mut List<u8>,
    parts: &Partitioning,
) -> Result<(), NoMemory>
    ensures { OnOk result (text.new ≡ text.old ++ spec.spaced (spec.partitioning_words parts.now)) }
{
    let mut line = Line::new(alloc);
    put_partitioning(&mut line, parts)?;
    text.extend(line.into_text().as_slice())
}

#[tactic(auto, unfolding(crate::specs::Canonical::after))]
fn push_local(alloc: Global, text: &mut List<u8>, local: &Local) -> Result<(), NoMemory>
    ensures { OnOk result (text.new ≡ text.old ++ spec.spaced (spec.local_words local.now)) }
{
    let mut line = Line::new(alloc);
    put_local(&mut line, local)?;
    text.extend(line.into_text().as_slice())
}

/// The line of an operator behind a margin, with what it delivers.
#[tactic(auto, using(crate::proofs::PhysLines::operator_of))]
fn push_line(
    alloc: Global,
    text: &mut List<u8>,
    margin: &[u8],
    p: &Phys,
    delivered: &(Partitioning, Local),
) -> Result<(), NoMemory>
    ensures { OnOk result (text.new ≡ text.old ++ spec.operator_line margin.now (spec.own_words (out-Phys p.now)) delivered.now.0 delivered.now.1) }
{
    text.extend(margin)?;
    push_own(alloc, text, p)?;
    text.extend(b" | ")?;
    push_partitioning(alloc, text, &delivered.0)?;
    text.extend(b" | ")?;
    push_local(alloc, text, &delivered.1)?;
    text.push(b'\n')
}

/// The margin of what stands below.
fn deeper(alloc: Global, margin: &[u8]) -> Result<List<u8>, NoMemory>
    ensures { IfOk result (λ inner. inner ≡ spec.deeper margin.now) }
{
    let mut inner = List::new(alloc);
    inner.extend(margin)?;
    inner.extend(b"  ")?;
    Ok(inner)
}

/// The lines of a plan behind a margin: the operator's own, and those of its inputs two spaces
/// further in.
#[cycle(push_lines)]
fn push_lines(
    alloc: Global,
    text: &mut List<u8>,
    margin: &[u8],
    p: &Phys,
    partitions: u32,
) -> Result<(), NoMemory>
    ensures { OnOk result (text.new ≡ text.old ++ spec.phys_lines partitions p.now margin.now) }
{
    let own = delivered(alloc, p, partitions)?;
    push_line(alloc, text, margin, p, &own)?;
    let inner = deeper(alloc, margin)?;
    push_inputs(alloc, text, inner.as_slice(), p, partitions)
}

/// The lines of the inputs of an operator.
#[cycle(push_lines)]
#[tactic(auto, using(al_phys::proofs::PhysRules::pout_laws))]
fn push_inputs(
    alloc: Global,
    text: &mut List<u8>,
    margin: &[u8],
    p: &Phys,
    n: u32,
) -> Result<(), NoMemory>
    ensures { OnOk result (text.new ≡ text.old ++ spec.lines_below (λ s. spec.phys_lines n s margin.now) (out-Phys p.now)) }
{
    match p {
        Phys::Scan { .. } => Ok(()),
        Phys::One => Ok(()),
        Phys::Assign { input, .. } => push_lines(alloc, text, margin, input.get(), n),
        Phys::Select { input, .. } => push_lines(alloc, text, margin, input.get(), n),
        Phys::Project { input, .. } => push_lines(alloc, text, margin, input.get(), n),
        Phys::Unnest { input, .. } => push_lines(alloc, text, margin, input.get(), n),
        Phys::Subplan { input, .. } => push_lines(alloc, text, margin, input.get(), n),
        Phys::Check { input, .. } => push_lines(alloc, text, margin, input.get(), n),
        Phys::Join { left, right, .. } => {
            push_lines(alloc, text, margin, left.get(), n)?;
            push_lines(alloc, text, margin, right.get(), n)
        }
        Phys::HashGroup { input, .. } => push_lines(alloc, text, margin, input.get(), n),
        Phys::PreGroup { input, .. } => push_lines(alloc, text, margin, input.get(), n),
        Phys::HashDistinct { input } => push_lines(alloc, text, margin, input.get(), n),
        Phys::AggPart { input, .. } => push_lines(alloc, text, margin, input.get(), n),
        Phys::AggFinal { input, .. } => push_lines(alloc, text, margin, input.get(), n),
        Phys::Union { left, right, .. } => {
            push_lines(alloc, text, margin, left.get(), n)?;
            push_lines(alloc, text, margin, right.get(), n)
        }
        Phys::Sort { input, .. } => push_lines(alloc, text, margin, input.get(), n),
        Phys::Limit { input, .. } => push_lines(alloc, text, margin, input.get(), n),
        Phys::LocalLimit { input, .. } => push_lines(alloc, text, margin, input.get(), n),
        Phys::Result { input, .. } => push_lines(alloc, text, margin, input.get(), n),
        Phys::HashExchange { input, .. } => push_lines(alloc, text, margin, input.get(), n),
        Phys::Broadcast { input } => push_lines(alloc, text, margin, input.get(), n),
        Phys::Gather { input } => push_lines(alloc, text, margin, input.get(), n),
        Phys::Merge { input, .. } => push_lines(alloc, text, margin, input.get(), n),
    }
}

/// The part of an explanation that shows a physical plan: the line `physical`, and a line for each
/// operator in pre-order, indented by two spaces for each operator above it, with the partitioning
/// and the order that it delivers on this many partitions.
pub fn print_phys(alloc: Global, p: &Phys, partitions: u32) -> Result<List<u8>, NoMemory>
    ensures { IfOk result (λ text. text ≡ spec.phys_text p.now partitions) }
{
    let mut text = List::new(alloc);
    text.extend(b"physical\n")?;
    push_lines(alloc, &mut text, &[], p, partitions)?;
    Ok(text)
}

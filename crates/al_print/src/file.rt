//! Plans and plan files.

ghost use Rattle.std.specs.Prelude.{◌≡◌, ◌++◌, [], ◌∷◌, OnOk, IfOk, map};
ghost use Rattle.std.specs.List.{flat_map};
ghost use Rattle.al_plan.specs.Grammar as grammar;
ghost use Rattle.al_plan.specs.Grammar.{plan_words};
ghost use Rattle.al_print.specs.Canonical.{after, file_with, plan_text};

use crate::expr::put_expr;
use crate::line::Line;
use crate::operator::{
    put_aggregates, put_assignments, put_generator, put_keys, put_order, put_vars,
};
use al_csv::{Column, Decl, Kind};
use al_plan::{Plan, PlanFile};
use al_value::{List, NoMemory};
use std::alloc::Global;

#[tactic(auto, using(al_plan::proofs::GrammarLaws::plan_words_laws, crate::proofs::LineLaws::line_laws))]
pub fn put_plan(line: &mut Line, p: &Plan) -> Result<(), NoMemory>
    ensures { OnOk result (line.new ≡ after line.old (plan_words p.now)) }
{
    match p {
        Plan::Scan { set, vars } => {
            line.operator("scan")?;
            line.name(set.as_str())?;
            put_vars(line, vars.as_slice())?;
            line.close()
        }
        Plan::Empty => {
            line.operator("empty")?;
            line.close()
        }
        Plan::Nested => {
            line.operator("nested")?;
            line.close()
        }
        Plan::Assign { made, input } => {
            line.operator("assign")?;
            put_assignments(line, made.as_slice())?;
            put_plan(line, input.get())?;
            line.close()
        }
        Plan::Select { cond, input } => {
            line.operator("select")?;
            put_expr(line, cond)?;
            put_plan(line, input.get())?;
            line.close()
        }
        Plan::Project { vars, input } => {
            line.operator("project")?;
            put_vars(line, vars.as_slice())?;
            put_plan(line, input.get())?;
            line.close()
        }
        Plan::Unnest { var, items, input } => {
            line.operator("unnest")?;
            line.variable(var.name.as_str())?;
            put_generator(line, items)?;
            put_plan(line, input.get())?;
            line.close()
        }
        Plan::Subplan { nested, input } => {
            line.operator("subplan")?;
            put_plan(line, nested.get())?;
            put_plan(line, input.get())?;
            line.close()
        }
        Plan::Join { cond, left, right } => {
            line.operator("join")?;
            put_expr(line, cond)?;
            put_plan(line, left.get())?;
            put_plan(line, right.get())?;
            line.close()
        }
        Plan::LeftJoin { cond, left, right } => {
            line.operator("leftjoin")?;
            put_expr(line, cond)?;
            put_plan(line, left.get())?;
            put_plan(line, right.get())?;
            line.close()
        }
        Plan::Group {
            keys,
            nested,
            input,
        } => {
            line.operator("group")?;
            put_keys(line, keys.as_slice())?;
            put_plan(line, nested.get())?;
            put_plan(line, input.get())?;
            line.close()
        }
        Plan::Distinct { input } => {
            line.operator("distinct")?;
            put_plan(line, input.get())?;
            line.close()
        }
        Plan::Union {
            made,
            left_vars,
            right_vars,
            left,
            right,
        } => {
            line.operator("union")?;
            put_vars(line, made.as_slice())?;
            put_vars(line, left_vars.as_slice())?;
            put_vars(line, right_vars.as_slice())?;
            put_plan(line, left.get())?;
            put_plan(line, right.get())?;
            line.close()
        }
        Plan::Aggregate { made, input } => {
            line.operator("aggregate")?;
            put_aggregates(line, made.as_slice())?;
            put_plan(line, input.get())?;
            line.close()
        }
        Plan::Order { keys, input } => {
            line.operator("order")?;
            put_order(line, keys.as_slice())?;
            put_plan(line, input.get())?;
            line.close()
        }
        Plan::Limit { n, k, input } => {
            line.operator("limit")?;
            line.count(*n)?;
            line.count(*k)?;
            put_plan(line, input.get())?;
            line.close()
        }
        Plan::Check { name, cond, input } => {
            line.operator("check")?;
            line.name(name.as_str())?;
            put_expr(line, cond)?;
            put_plan(line, input.get())?;
            line.close()
        }
        Plan::Result { vars, input } => {
            line.operator("result")?;
            put_vars(line, vars.as_slice())?;
            put_plan(line, input.get())?;
            line.close()
        }
    }
}

fn kind_name(kind: Kind) -> &'static str
    ensures { result.now ≡ grammar.kind_name kind }
{
    match kind {
        Kind::Int => "int",
        Kind::Text => "text",
        Kind::Bool => "bool",
    }
}

#[tactic(auto, using(crate::proofs::LineLaws::line_laws))]
fn put_column(line: &mut Line, column: &Column) -> Result<(), NoMemory>
    ensures { OnOk result (line.new ≡ after line.old (grammar.column_words column.now)) }
{
    line.head(column.name.as_str())?;
    line.name(kind_name(column.kind))?;
    line.close()
}

fn put_columns(line: &mut Line, columns: &[Column]) -> Result<(), NoMemory>
    ensures { OnOk result (line.new ≡ after line.old (flat_map grammar.column_words columns.now)) }
{
    for column in columns {
        put_column(line, column)?;
    }
    Ok(())
}

#[tactic(auto, using(crate::proofs::LineLaws::line_laws))]
fn put_dataset(line: &mut Line, decl: &Decl) -> Result<(), NoMemory>
    ensures { OnOk result (line.new ≡ after line.old (grammar.dataset_words decl.now)) }
{
    line.dataset()?;
    line.name(decl.name.as_str())?;
    line.string(decl.file.as_str())?;
    put_columns(line, decl.columns.as_slice())?;
    line.close()
}

fn put_datasets(line: &mut Line, decls: &[Decl]) -> Result<(), NoMemory>
    ensures { OnOk result (line.new ≡ after line.old (flat_map grammar.dataset_words decls.now)) }
{
    for decl in decls {
        put_dataset(line, decl)?;
    }
    Ok(())
}

#[tactic(auto, using(crate::proofs::LineLaws::line_laws))]
fn put_file(line: &mut Line, f: &PlanFile, root: &Plan) -> Result<(), NoMemory>
    ensures { OnOk result (line.new ≡ after line.old (grammar.file_words (file_with f.now root.now))) }
{
    line.head("algebricks")?;
    line.count(u64::from(f.version))?;
    put_datasets(line, f.datasets.as_slice())?;
    put_plan(line, root)?;
    line.close()
}

/// The canonical text of a plan file, one line.
pub fn print_plan(alloc: Global, f: &PlanFile) -> Result<List<u8>, NoMemory>
    ensures { IfOk result (λ text. text ≡ plan_text f.now) }
{
    print_with(alloc, f, &f.root)
}

/// The canonical text of a plan file with another plan in the place of its own, one line.
#[tactic(auto, unfolding(crate::specs::Canonical::after))]
pub fn print_with(alloc: Global, f: &PlanFile, root: &Plan) -> Result<List<u8>, NoMemory>
    ensures { IfOk result (λ text. text ≡ plan_text (file_with f.now root.now)) }
{
    let mut line = Line::new(alloc);
    put_file(&mut line, f, root)?;
    let mut text = line.into_text();
    text.push(b'\n')?;
    Ok(text)
}

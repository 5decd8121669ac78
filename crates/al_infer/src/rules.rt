ghost use Rattle.std.specs.Prelude.{◌≡◌, List as Listed, map, option_map, length};
ghost use Rattle.al_plan.specs.declared.plan.Plan.{out-Plan};
ghost use Rattle.al_plan.specs.Refines as plans;
ghost use Rattle.al_plan.specs.Accept as spec;
ghost use Rattle.al_infer.specs.Inputs as at;

use crate::exprs::{Asked, exprs_keep};
use crate::live::Seen;
use crate::names::{are_among, are_different, are_new, is_among};
use al_csv::Decl;
use al_plan::{OrderKey, Plan, Var};
use al_value::Name;

/// How many columns the dataset of this name has.
fn columns_of(decls: &[Decl], set: &Name) -> Option<usize>
    ensures { result ≡ option_map (λ d. length d.columns) (spec.declared decls.now set.now) }
{
    for d in decls {
        if d.name == *set {
            return Some(d.columns.len());
        }
    }
    None
}

#[tactic(auto, using(crate::proofs::Operators::operators))]
/// Whether the dataset of a scan is declared.
pub fn is_known(decls: &[Decl], op: &Plan) -> bool
    ensures { result ≡ spec.is_known decls.now (out-Plan op.now) }
{
    match op {
        Plan::Scan { set, .. } => columns_of(decls, set).is_some(),
        _ => true,
    }
}

/// Whether a dataset that is declared has so many columns.
fn has_columns(decls: &[Decl], set: &Name, width: usize) -> bool
    ensures { result ≡ spec.has_columns (spec.declared decls.now set.now) width }
{
    match columns_of(decls, set) {
        None => true,
        Some(columns) => width == columns,
    }
}

#[tactic(auto, using(crate::proofs::Operators::operators))]
/// Whether a scan has a variable for each column.
fn fills_columns(decls: &[Decl], op: &Plan) -> bool
    ensures { result ≡ spec.fills_columns decls.now (out-Plan op.now) }
{
    match op {
        Plan::Scan { set, vars } => has_columns(decls, set, vars.len()),
        _ => true,
    }
}

/// Whether a scan has a variable for each column, and each function as many arguments as it takes.
pub fn is_filled_in(decls: &[Decl], op: &Plan) -> bool
    ensures { result ≡ spec.is_filled_in decls.now (out-Plan op.now) }
{
    fills_columns(decls, op) && exprs_keep(Asked::Arities, op)
}

#[tactic(auto, unfolding(al_plan::specs::Refines::is_aggregate))]
fn is_aggregate(plan: &Plan) -> bool
    ensures { result ≡ plans.is_aggregate plan.now }
{
    matches!(plan, Plan::Aggregate { .. })
}

#[tactic(auto, using(crate::proofs::Operators::operators))]
fn may_be_inside(op: &Plan) -> bool
    ensures { result ≡ spec.may_be_inside (out-Plan op.now) }
{
    match op {
        Plan::Nested => true,
        Plan::Assign { .. } => true,
        Plan::Select { .. } => true,
        Plan::Project { .. } => true,
        Plan::Unnest { .. } => true,
        Plan::Order { .. } => true,
        Plan::Distinct { .. } => true,
        Plan::Limit { .. } => true,
        Plan::Aggregate { .. } => true,
        _ => false,
    }
}

#[tactic(auto, using(crate::proofs::Operators::operators))]
fn may_be_outside(op: &Plan) -> bool
    ensures { result ≡ spec.may_be_outside (out-Plan op.now) }
{
    match op {
        Plan::Nested => false,
        Plan::Subplan { nested, .. } => is_aggregate(nested.get()),
        Plan::Group { nested, .. } => is_aggregate(nested.get()),
        _ => true,
    }
}

/// Whether an operator may stand where it does, and the root of its nested plan is an aggregate.
pub fn is_in_place(inside: bool, op: &Plan) -> bool
    ensures { result ≡ spec.is_in_place inside (out-Plan op.now) }
{
    if inside {
        may_be_inside(op)
    } else {
        may_be_outside(op)
    }
}

#[tactic(auto, using(crate::proofs::Operators::operators))]
/// Whether the lists of a union are equally long.
pub fn is_even(op: &Plan) -> bool
    ensures { result ≡ spec.is_even (out-Plan op.now) }
{
    match op {
        Plan::Union {
            made,
            left_vars,
            right_vars,
            ..
        } => { left_vars.len() == made.len() && right_vars.len() == made.len() }
        _ => true,
    }
}

#[tactic(auto, using(crate::proofs::Operators::operators))]
fn lists_once(op: &Plan) -> bool
    ensures { result ≡ spec.lists_once (out-Plan op.now) }
{
    match op {
        Plan::Project { vars, .. } => are_different(vars.as_slice()),
        Plan::Result { vars, .. } => are_different(vars.as_slice()),
        _ => true,
    }
}

/// Whether what an operator makes is made once, and what it lists is listed once.
pub fn is_new(before: &[Var], own: &[Var], op: &Plan) -> bool
    requires { own.now ≡ spec.made_by (out-Plan op.now) }
    ensures { result ≡ spec.is_new before.now (out-Plan op.now) }
{
    are_new(before, own) && are_different(own) && lists_once(op)
}

/// Whether the old variables of a group's keys are among these.
fn olds_among(vars: &[Var], keys: &[(Var, Var)]) -> bool
    ensures { result ≡ spec.are_among vars.now (map (λ k. k.1) keys.now) }
{
    for (_, old) in keys {
        if !is_among(vars, &old.name) {
            return false;
        }
    }
    true
}

/// Whether the variables of these order keys are among these.
fn keys_among(vars: &[Var], keys: &[OrderKey]) -> bool
    ensures { result ≡ spec.are_among vars.now (map (λ k. k.var) keys.now) }
{
    for k in keys {
        if !is_among(vars, &k.var.name) {
            return false;
        }
    }
    true
}

#[tactic(auto, using(crate::proofs::Operators::operators))]
/// Whether the variables that an operator lists are live.
fn lists_live(op: &Plan, left: &[Var], right: &[Var]) -> bool
    ensures { result ≡ at.lists_live left.now right.now (out-Plan op.now) }
{
    match op {
        Plan::Project { vars, .. } => are_among(left, vars.as_slice()),
        Plan::Group { keys, .. } => olds_among(left, keys.as_slice()),
        Plan::Union {
            left_vars,
            right_vars,
            ..
        } => { are_among(left, left_vars.as_slice()) && are_among(right, right_vars.as_slice()) }
        Plan::Order { keys, .. } => keys_among(left, keys.as_slice()),
        Plan::Result { vars, .. } => are_among(left, vars.as_slice()),
        _ => true,
    }
}

/// Whether what an operator reads is live in the input that it reads.
pub fn reads_live(op: &Plan, seen: &Seen) -> bool
    ensures { (given : Listed Var) → at.Sees given (out-Plan op.now) seen.now.left seen.now.right → result ≡ spec.reads_live given (out-Plan op.now) }
{
    let left = seen.left.as_slice();
    let right = seen.right.as_slice();
    exprs_keep(Asked::Reads(left, right), op) && lists_live(op, left, right)
}

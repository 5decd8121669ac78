//! What the activities of an operator do.

ghost use Rattle.std.specs.Prelude.{◌≡◌, ◌+◌, ◌++◌, suc, [], ◌∷◌, IfOk, OnOk, Some, None, length, map};
ghost use Rattle.std.specs.List.{range_with_len};
ghost use Rattle.al_phys.specs.Gives as forms;
ghost use Rattle.al_phys.specs.Operators as meaning;
ghost use Rattle.al_phys.specs.declared.phys.Phys.{out-Phys};
ghost use Rattle.hy_job.specs.declared.job.Kind.TheVariants as K;
ghost use Rattle.al_jobgen.specs.Columns as spec;
ghost use Rattle.al_jobgen.specs.JobOf as steps;
ghost use Rattle.al_jobgen.specs.Added.{activities_from, own_of};
ghost use Rattle.hy_job.specs.Literals.{literals};
ghost use Rattle.hy_job.specs.Columns.{AreValues};
ghost use Rattle.hy_job.specs.Literals.{group_literals, kind_literals};
ghost use Rattle.al_jobgen.specs.Literals.{HaveValueLiterals};

use crate::columns::{
    agg_kinds, columns_of, gen_rex, made_aggs, made_rexes, number, old_columns, rex_of, sort_keys,
};
use crate::join::join_arg;
use crate::nested::{aggs_of, nested_of};
use al_agg::{Agg, width};
use al_phys::{JoinForm, Phys, phys_live};
use al_plan::{AggCall, Expr, Generator, OrderKey, Plan, Var};
use al_value::{List, NoMemory, SortKey, Text};
use hy_job::{Activity, GroupArg, JoinArg, Kind, Wire};
use std::alloc::Global;

/// Puts an activity of this number behind the others.
#[tactic(auto, using(crate::proofs::Literals::more_activities))]
fn put(activities: &mut List<Activity>, number: u32, kind: Kind, arity: u32) -> Result<(), NoMemory>
    requires { AreValues (kind_literals kind) }
    ensures is { OnOk result (activities.new ≡ activities.old ++ activities_from number (steps.step kind arity ∷ [])) }
    ensures values { OnOk result (HaveValueLiterals activities.old → HaveValueLiterals activities.new) }
{
    activities.push(Activity {
        number,
        kind,
        arity,
    })
}

/// The number behind this one.
pub fn next(number: u32) -> Result<u32, NoMemory>
    ensures { IfOk result (λ n. n ≡ suc number) }
{
    match number.checked_add(1) {
        Some(n) => Ok(n),
        None => Err(NoMemory),
    }
}

fn live_width(alloc: Global, p: &Phys) -> Result<u32, NoMemory>
    ensures { IfOk result (λ n. n ≡ length (meaning.phys_live p.now)) }
{
    let vars = phys_live(alloc, p)?;
    number(vars.len())
}

/// The number of state fields of these aggregates.
fn state_width(aggs: &[Agg]) -> Result<u32, NoMemory>
    ensures { IfOk result (λ n. n ≡ steps.state_width aggs.now) }
{
    let mut fields: u32 = 0;
    for a in aggs {
        let Some(more) = fields.checked_add(width(*a)) else {
            return Err(NoMemory);
        };
        fields = more;
    }
    Ok(fields)
}

/// The columns of a row of this many.
#[tactic(auto, using(crate::proofs::PieceColumns::columns_more))]
fn all_columns(alloc: Global, n: u32) -> Result<List<u32>, NoMemory>
    ensures { IfOk result (λ columns. columns ≡ range_with_len 0 n) }
{
    let mut columns = List::new(alloc);
    for column in 0..n {
        columns.push(column)?;
    }
    Ok(columns)
}

fn assign(alloc: Global, made: &[(Var, Expr)], input: &Phys) -> Result<Kind, NoMemory>
    ensures is { IfOk result (λ kind. kind ≡ K.Assign (spec.made_rexes (meaning.phys_live input.now) made.now)) }
    ensures values { IfOk result (λ kind. AreValues (kind_literals kind)) }
{
    let vars = phys_live(alloc, input)?;
    Ok(Kind::Assign {
        made: made_rexes(alloc, vars.as_slice(), made)?,
    })
}

fn select(alloc: Global, cond: &Expr, input: &Phys) -> Result<Kind, NoMemory>
    ensures is { IfOk result (λ kind. kind ≡ K.Select (spec.rex_of (meaning.phys_live input.now) cond.now)) }
    ensures values { IfOk result (λ kind. AreValues (kind_literals kind)) }
{
    let vars = phys_live(alloc, input)?;
    Ok(Kind::Select {
        cond: rex_of(alloc, vars.as_slice(), cond)?,
    })
}

/// The columns of these variables in the rows of a plan.
fn columns_in(alloc: Global, named: &[Var], input: &Phys) -> Result<List<u32>, NoMemory>
    ensures { IfOk result (λ columns. columns ≡ spec.columns_of (meaning.phys_live input.now) named.now) }
{
    let vars = phys_live(alloc, input)?;
    columns_of(alloc, vars.as_slice(), named)
}

fn keys_in(alloc: Global, keys: &[OrderKey], input: &Phys) -> Result<List<SortKey>, NoMemory>
    ensures { IfOk result (λ by. by ≡ spec.sort_keys (meaning.phys_live input.now) keys.now) }
{
    let vars = phys_live(alloc, input)?;
    sort_keys(alloc, vars.as_slice(), keys)
}

fn unnest(alloc: Global, items: &Generator, input: &Phys) -> Result<Kind, NoMemory>
    ensures is { IfOk result (λ kind. kind ≡ K.Unnest (spec.gen_rex (meaning.phys_live input.now) items.now)) }
    ensures values { IfOk result (λ kind. AreValues (kind_literals kind)) }
{
    let vars = phys_live(alloc, input)?;
    Ok(Kind::Unnest {
        items: gen_rex(alloc, vars.as_slice(), items)?,
    })
}

fn subplan(alloc: Global, nested: &Plan, input: &Phys) -> Result<Kind, NoMemory>
    ensures is { IfOk result (λ kind. kind ≡ K.Subplan (spec.nested_of (meaning.phys_live input.now) nested.now)) }
    ensures values { IfOk result (λ kind. AreValues (kind_literals kind)) }
{
    let vars = phys_live(alloc, input)?;
    Ok(Kind::Subplan {
        nested: nested_of(alloc, vars.as_slice(), nested)?,
    })
}

fn check(alloc: Global, name: &Text, cond: &Expr, input: &Phys) -> Result<Kind, NoMemory>
    ensures is { IfOk result (λ kind. kind ≡ K.Check name.now (spec.rex_of (meaning.phys_live input.now) cond.now)) }
    ensures values { IfOk result (λ kind. AreValues (kind_literals kind)) }
{
    let vars = phys_live(alloc, input)?;
    Ok(Kind::Check {
        name: name.copy(alloc)?,
        cond: rex_of(alloc, vars.as_slice(), cond)?,
    })
}

fn pre_group(
    alloc: Global,
    keys: &[(Var, Var)],
    nested: &Plan,
    input: &Phys,
) -> Result<Kind, NoMemory>
    ensures is { IfOk result (λ kind. kind ≡ K.PreGroup (spec.columns_of (meaning.phys_live input.now) (map (λ k. k.1) keys.now)) (spec.nested_of (meaning.phys_live input.now) nested.now)) }
    ensures values { IfOk result (λ kind. AreValues (kind_literals kind)) }
{
    let vars = phys_live(alloc, input)?;
    Ok(Kind::PreGroup {
        keys: old_columns(alloc, vars.as_slice(), keys)?,
        nested: nested_of(alloc, vars.as_slice(), nested)?,
    })
}

fn union(alloc: Global, ls: &[Var], rs: &[Var], left: &Phys, right: &Phys) -> Result<Kind, NoMemory>
    ensures { IfOk result (λ kind. kind ≡ K.Union (spec.columns_of (meaning.phys_live left.now) ls.now) (spec.columns_of (meaning.phys_live right.now) rs.now)) }
{
    Ok(Kind::Union {
        left: columns_in(alloc, ls, left)?,
        right: columns_in(alloc, rs, right)?,
    })
}

/// One row of partial states, as wide as the states are.
fn put_agg_part(
    alloc: Global,
    activities: &mut List<Activity>,
    number: u32,
    made: &[(Var, AggCall)],
    input: &Phys,
) -> Result<(), NoMemory>
    ensures is { OnOk result (activities.new ≡ activities.old ++ activities_from number (steps.step (K.AggPart (spec.made_aggs (meaning.phys_live input.now) made.now)) (steps.state_width (map (λ m. spec.agg_kind m.1) made.now)) ∷ [])) }
    ensures values { OnOk result (HaveValueLiterals activities.old → HaveValueLiterals activities.new) }
{
    let vars = phys_live(alloc, input)?;
    let aggs = agg_kinds(alloc, made)?;
    let fields = state_width(aggs.as_slice())?;
    let made = made_aggs(alloc, vars.as_slice(), made)?;
    put(activities, number, Kind::AggPart { made }, fields)
}

fn group_arg(
    alloc: Global,
    keys: &[(Var, Var)],
    nested: &Plan,
    input: &Phys,
) -> Result<GroupArg, NoMemory>
    ensures is { IfOk result (λ arg. arg ≡ steps.group_arg (spec.columns_of (meaning.phys_live input.now) (map (λ k. k.1) keys.now)) (Some nested.now) input.now) }
    ensures values { IfOk result (λ arg. AreValues (group_literals arg.nested)) }
{
    let vars = phys_live(alloc, input)?;
    let keys = old_columns(alloc, vars.as_slice(), keys)?;
    let nested = nested_of(alloc, vars.as_slice(), nested)?;
    Ok(GroupArg {
        keys,
        nested: Some(nested),
    })
}

/// The number of key values and state fields of a group.
fn group_width(alloc: Global, keys: &[(Var, Var)], nested: &Plan) -> Result<u32, NoMemory>
    ensures { IfOk result (λ n. n ≡ length keys.now + steps.state_width (spec.aggs_of nested.now)) }
{
    let aggs = aggs_of(alloc, nested)?;
    let fields = state_width(aggs.as_slice())?;
    match number(keys.len())?.checked_add(fields) {
        Some(n) => Ok(n),
        None => Err(NoMemory),
    }
}

fn put_group(
    alloc: Global,
    activities: &mut List<Activity>,
    number: u32,
    keys: &[(Var, Var)],
    nested: &Plan,
    input: &Phys,
    arity: u32,
) -> Result<(), NoMemory>
    ensures is { OnOk result (activities.new ≡ activities.old ++ activities_from number (let arg = steps.group_arg (spec.columns_of (meaning.phys_live input.now) (map (λ k. k.1) keys.now)) (Some nested.now) input.now in
        steps.step (K.GroupBuild arg) (length keys.now + steps.state_width (spec.aggs_of nested.now)) ∷ steps.step (K.GroupEmit arg) arity ∷ [])) }
    ensures values { OnOk result (HaveValueLiterals activities.old → HaveValueLiterals activities.new) }
{
    let second = next(number)?;
    let built = group_width(alloc, keys, nested)?;
    let build = group_arg(alloc, keys, nested, input)?;
    put(activities, number, Kind::GroupBuild(build), built)?;
    let emit = group_arg(alloc, keys, nested, input)?;
    put(activities, second, Kind::GroupEmit(emit), arity)
}

fn distinct_arg(alloc: Global, input: &Phys) -> Result<GroupArg, NoMemory>
    ensures is { IfOk result (λ arg. arg ≡ steps.group_arg (steps.all_columns input.now) None input.now) }
    ensures values { IfOk result (λ arg. AreValues (group_literals arg.nested)) }
{
    let columns = live_width(alloc, input)?;
    Ok(GroupArg {
        keys: all_columns(alloc, columns)?,
        nested: None,
    })
}

fn put_distinct(
    alloc: Global,
    activities: &mut List<Activity>,
    number: u32,
    input: &Phys,
    arity: u32,
) -> Result<(), NoMemory>
    ensures is { OnOk result (activities.new ≡ activities.old ++ activities_from number (let arg = steps.group_arg (steps.all_columns input.now) None input.now in
        steps.step (K.GroupBuild arg) (length (meaning.phys_live input.now)) ∷ steps.step (K.GroupEmit arg) arity ∷ [])) }
    ensures values { OnOk result (HaveValueLiterals activities.old → HaveValueLiterals activities.new) }
{
    let second = next(number)?;
    let built = live_width(alloc, input)?;
    let build = distinct_arg(alloc, input)?;
    put(activities, number, Kind::GroupBuild(build), built)?;
    let emit = distinct_arg(alloc, input)?;
    put(activities, second, Kind::GroupEmit(emit), arity)
}

fn put_sort(
    alloc: Global,
    activities: &mut List<Activity>,
    number: u32,
    keys: &[OrderKey],
    input: &Phys,
    arity: u32,
) -> Result<(), NoMemory>
    ensures is { OnOk result (activities.new ≡ activities.old ++ activities_from number (let by = spec.sort_keys (meaning.phys_live input.now) keys.now in
        steps.step (K.SortBuild by) (length (meaning.phys_live input.now)) ∷ steps.step (K.SortEmit by) arity ∷ [])) }
    ensures values { OnOk result (HaveValueLiterals activities.old → HaveValueLiterals activities.new) }
{
    let second = next(number)?;
    let built = live_width(alloc, input)?;
    let build = keys_in(alloc, keys, input)?;
    put(activities, number, Kind::SortBuild(build), built)?;
    let emit = keys_in(alloc, keys, input)?;
    put(activities, second, Kind::SortEmit(emit), arity)
}

fn join_of(
    alloc: Global,
    form: JoinForm,
    cond: &Expr,
    left: &Phys,
    right: &Phys,
) -> Result<JoinArg, NoMemory>
    ensures is { IfOk result (λ arg. arg ≡ spec.join_arg (forms.is_hash form) (forms.is_outer form) (meaning.phys_live left.now) (meaning.phys_live right.now) cond.now) }
    ensures values { IfOk result (λ arg. AreValues (literals arg.rest)) }
{
    let ls = phys_live(alloc, left)?;
    let rs = phys_live(alloc, right)?;
    join_arg(alloc, form, ls.as_slice(), rs.as_slice(), cond)
}

/// The build takes the right rows, and the probe the left ones.
fn put_join(
    alloc: Global,
    activities: &mut List<Activity>,
    number: u32,
    form: JoinForm,
    cond: &Expr,
    left: &Phys,
    right: &Phys,
    arity: u32,
) -> Result<(), NoMemory>
    ensures is { OnOk result (activities.new ≡ activities.old ++ activities_from number (let arg = spec.join_arg (forms.is_hash form) (forms.is_outer form) (meaning.phys_live left.now) (meaning.phys_live right.now) cond.now in
        steps.step (K.JoinBuild arg) (length (meaning.phys_live right.now)) ∷ steps.step (K.JoinProbe arg) arity ∷ [])) }
    ensures values { OnOk result (HaveValueLiterals activities.old → HaveValueLiterals activities.new) }
{
    let second = next(number)?;
    let built = live_width(alloc, right)?;
    let build = join_of(alloc, form, cond, left, right)?;
    put(activities, number, Kind::JoinBuild(build), built)?;
    let probe = join_of(alloc, form, cond, left, right)?;
    put(activities, second, Kind::JoinProbe(probe), arity)
}

/// Puts the activities of an operator behind the others, of which the first has this number.
#[tactic(auto, using(crate::proofs::PieceShapes::own_laws))]
pub fn put_own(
    alloc: Global,
    activities: &mut List<Activity>,
    number: u32,
    p: &Phys,
) -> Result<(), NoMemory>
    ensures is { OnOk result (activities.new ≡ activities.old ++ activities_from number (own_of p.now)) }
    ensures values { OnOk result (HaveValueLiterals activities.old → HaveValueLiterals activities.new) }
{
    let arity = live_width(alloc, p)?;
    match p {
        Phys::Scan { set, .. } => {
            let set = set.copy(alloc)?;
            put(activities, number, Kind::Scan { set }, arity)
        },
        Phys::One => put(activities, number, Kind::One, arity),
        Phys::Assign { made, input } => {
            let kind = assign(alloc, made.as_slice(), input.get())?;
            put(activities, number, kind, arity)
        }
        Phys::Select { cond, input } => {
            let kind = select(alloc, cond, input.get())?;
            put(activities, number, kind, arity)
        }
        Phys::Project { vars, input } => {
            let columns = columns_in(alloc, vars.as_slice(), input.get())?;
            put(activities, number, Kind::Project { columns }, arity)
        }
        Phys::Unnest { items, input, .. } => {
            let kind = unnest(alloc, items, input.get())?;
            put(activities, number, kind, arity)
        }
        Phys::Subplan { nested, input } => {
            let kind = subplan(alloc, nested, input.get())?;
            put(activities, number, kind, arity)
        }
        Phys::Check { name, cond, input } => {
            let kind = check(alloc, name, cond, input.get())?;
            put(activities, number, kind, arity)
        }
        Phys::Join {
            form,
            cond,
            left,
            right,
        } => put_join(
            alloc,
            activities,
            number,
            *form,
            cond,
            left.get(),
            right.get(),
            arity,
        ),
        Phys::HashGroup {
            keys,
            nested,
            input,
        } => put_group(
            alloc,
            activities,
            number,
            keys.as_slice(),
            nested,
            input.get(),
            arity,
        ),
        Phys::PreGroup {
            keys,
            nested,
            input,
        } => {
            let kind = pre_group(alloc, keys.as_slice(), nested, input.get())?;
            put(activities, number, kind, arity)
        }
        Phys::HashDistinct { input } => put_distinct(alloc, activities, number, input.get(), arity),
        Phys::AggPart { made, input } => put_agg_part(
            alloc,
            activities,
            number,
            made.as_slice(),
            input.get(),
        ),
        Phys::AggFinal { made, .. } => {
            let made = agg_kinds(alloc, made.as_slice())?;
            put(activities, number, Kind::AggFinal { made }, arity)
        }
        Phys::Union {
            left_vars,
            right_vars,
            left,
            right,
            ..
        } => {
            let kind = union(
                alloc,
                left_vars.as_slice(),
                right_vars.as_slice(),
                left.get(),
                right.get(),
            )?;
            put(activities, number, kind, arity)
        }
        Phys::Sort { keys, input } => put_sort(
            alloc,
            activities,
            number,
            keys.as_slice(),
            input.get(),
            arity,
        ),
        Phys::Limit { n, k, .. } => put(activities, number, Kind::Limit { n: *n, k: *k }, arity),
        Phys::LocalLimit { n, .. } => put(activities, number, Kind::LocalLimit { n: *n }, arity),
        Phys::Result { vars, input } => {
            let columns = columns_in(alloc, vars.as_slice(), input.get())?;
            put(activities, number, Kind::Result { columns }, arity)
        }
        Phys::HashExchange { .. }
        | Phys::Broadcast { .. }
        | Phys::Gather { .. }
        | Phys::Merge { .. } => Ok(()),
    }
}

/// How many activities an operator has.
#[tactic(auto, using(crate::proofs::PieceShapes::own_laws))]
pub fn count_of(p: &Phys) -> u32
    ensures { result ≡ length (own_of p.now) }
{
    match p {
        Phys::HashExchange { .. }
        | Phys::Broadcast { .. }
        | Phys::Gather { .. }
        | Phys::Merge { .. } => 0,
        Phys::Join { .. }
        | Phys::HashGroup { .. }
        | Phys::HashDistinct { .. }
        | Phys::Sort { .. } => 2,
        _ => 1,
    }
}

/// How the rows of a plan go on: by its exchange, else to the same partition.
#[tactic(auto, using(crate::proofs::PieceShapes::wire_laws))]
pub fn wire_of(alloc: Global, p: &Phys) -> Result<Wire, NoMemory>
    ensures { IfOk result (λ wire. wire ≡ steps.wire_step (out-Phys p.now)) }
{
    match p {
        Phys::HashExchange { vars, input } => {
            let columns = columns_in(alloc, vars.as_slice(), input.get())?;
            Ok(Wire::Hash(columns))
        }
        Phys::Broadcast { .. } => Ok(Wire::Broadcast),
        Phys::Gather { .. } => Ok(Wire::Gather),
        Phys::Merge { keys, input } => {
            let by = keys_in(alloc, keys.as_slice(), input.get())?;
            Ok(Wire::Merge(by))
        }
        _ => Ok(Wire::OneToOne),
    }
}

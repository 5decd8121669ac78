ghost use Rattle.std.specs.Prelude.{◌≡◌, [], ◌++◌, IfOk, IfErr, map};
ghost use Rattle.std.specs.List.{All, AllZip};
ghost use Rattle.al_plan.specs.Eval.{Bytes};
ghost use Rattle.al_plan.specs.Allows.{Faults, live, new_of};
ghost use Rattle.al_plan.specs.Refines.{Fills, Fit, scans};
ghost use Rattle.al_plain.specs.Gives.{Answers, AnswersNested, AreWide, Gives, sets_of};
ghost use Rattle.al_plain.specs.Groups.{Extends, IsOverGroups, alone};

use crate::group::{Bunch, each_alone, groups_of};
use crate::join::before_each;
use crate::operators as op;
use crate::plan::{Data, PlainFault, Rows};
use crate::rows::{append, both_vars, made_vars};
use al_plan::{Plan, Var};
use al_value::{List, Row};
use std::alloc::Global;

/// One list of rows that the plan allows over the datasets, each row with its values in the order
/// of the plan's live variables. Where a check's input has a row over which the condition is not
/// TRUE, the answer is the name of that check, the first of them in the walk from the leaves.
pub fn evaluate(alloc: Global, p: &Plan, sets: &[Data]) -> Result<List<Row>, PlainFault>
    requires fit { Fit p.now }
    requires fills { Fills (scans p.now) (sets_of sets.now) }
    ensures rows { IfOk result (Gives p.now (sets_of sets.now)) }
    ensures check { IfErr result (λ e. (name : Bytes) → e ≡ PlainFault.Check name
        → Faults p.now (sets_of sets.now) [] [] name) }
{
    let at = Scope {
        sets,
        vars: &[],
        rows: &[],
    };
    let out = run(alloc, p, &at)?;
    Ok(out.rows)
}

/// Where a plan is evaluated: the datasets, and the variables and the rows of `nested`.
#[derive(Clone, Copy)]
pub struct Scope<'a> {
    pub sets: &'a [Data],
    pub vars: &'a [Var],
    pub rows: &'a [Row],
}

/// One list of rows that the plan allows.
#[cycle(run)]
pub fn run(alloc: Global, p: &Plan, at: &Scope) -> Result<Rows, PlainFault>
    ensures { Answers p.now (sets_of at.now.sets.now) at.now.vars.now at.now.rows.now result }
{
    match p {
        Plan::Scan { set, vars } => op::scan(alloc, at.sets, set, vars.as_slice()),
        Plan::Empty => op::empty(alloc),
        Plan::Nested => op::copied(alloc, at.vars, at.rows),
        Plan::Assign { made, input } => {
            op::assign(alloc, made.as_slice(), run(alloc, input.get(), at)?)
        }
        Plan::Select { cond, input } => op::select(alloc, cond, run(alloc, input.get(), at)?),
        Plan::Project { vars, input } => {
            op::cut(alloc, vars.as_slice(), run(alloc, input.get(), at)?)
        }
        Plan::Unnest { var, items, input } => {
            op::unnest(alloc, var, items, run(alloc, input.get(), at)?)
        }
        Plan::Subplan { nested, input } => {
            subplan(alloc, nested.get(), at.sets, run(alloc, input.get(), at)?)
        }
        Plan::Join { cond, left, right } => {
            let left = run(alloc, left.get(), at)?;
            op::join(alloc, cond, left, run(alloc, right.get(), at)?)
        }
        Plan::LeftJoin { cond, left, right } => {
            let left = run(alloc, left.get(), at)?;
            op::left_join(alloc, cond, left, run(alloc, right.get(), at)?)
        }
        Plan::Group {
            keys,
            nested,
            input,
        } => {
            group(
                alloc,
                keys.as_slice(),
                nested.get(),
                at.sets,
                run(alloc, input.get(), at)?,
            )
        }
        Plan::Distinct { input } => op::distinct(alloc, run(alloc, input.get(), at)?),
        Plan::Union {
            made,
            left_vars,
            right_vars,
            left,
            right,
        } => {
            let left = run(alloc, left.get(), at)?;
            let right = run(alloc, right.get(), at)?;
            op::union(
                alloc,
                made.as_slice(),
                left_vars.as_slice(),
                right_vars.as_slice(),
                left,
                right,
            )
        }
        Plan::Aggregate { made, input } => {
            op::aggregate(alloc, made.as_slice(), run(alloc, input.get(), at)?)
        }
        Plan::Order { keys, input } => op::order(keys.as_slice(), run(alloc, input.get(), at)?),
        Plan::Limit { n, k, input } => op::limit(alloc, *n, *k, run(alloc, input.get(), at)?),
        Plan::Check { name, cond, input } => {
            op::check(alloc, name, cond, run(alloc, input.get(), at)?)
        }
        Plan::Result { vars, input } => {
            op::cut(alloc, vars.as_slice(), run(alloc, input.get(), at)?)
        }
    }
}

/// Each row beside the row that the nested plan gives over it alone.
#[cycle(run)]
fn subplan(alloc: Global, nested: &Plan, sets: &[Data], input: Rows) -> Result<Rows, PlainFault>
    ensures { AnswersNested nested.now (sets_of sets.now) input.vars (AreWide input.vars input.rows)
        (input.vars ++ live nested.now input.vars)
        (AllZip (Extends nested.now (sets_of sets.now) input.vars (live nested.now input.vars)) (map alone input.rows))
        result }
{
    let bunches = each_alone(alloc, input.rows.as_slice())?;
    let inner = nest(
        alloc,
        nested,
        sets,
        input.vars.as_slice(),
        bunches.as_slice(),
    )?;
    let vars = both_vars(alloc, input.vars.as_slice(), inner.vars.as_slice())?;
    Ok(Rows {
        vars,
        rows: inner.rows,
    })
}

/// For each group the values of its keys, beside the row that the nested plan gives over it.
#[cycle(run)]
fn group(
    alloc: Global,
    keys: &[(Var, Var)],
    nested: &Plan,
    sets: &[Data],
    input: Rows,
) -> Result<Rows, PlainFault>
    ensures { AnswersNested nested.now (sets_of sets.now) input.vars (AreWide input.vars input.rows)
        (new_of keys.now ++ live nested.now input.vars)
        (IsOverGroups keys.now nested.now (sets_of sets.now) input.vars input.rows)
        result }
{
    let groups = groups_of(alloc, keys, input.vars.as_slice(), input.rows.as_slice())?;
    let inner = nest(
        alloc,
        nested,
        sets,
        input.vars.as_slice(),
        groups.as_slice(),
    )?;
    let new = made_vars(alloc, keys)?;
    let vars = both_vars(alloc, new.as_slice(), inner.vars.as_slice())?;
    Ok(Rows {
        vars,
        rows: inner.rows,
    })
}

/// The head of each bunch before each row that the nested plan gives over its members.
#[cycle(run)]
fn nest(
    alloc: Global,
    nested: &Plan,
    sets: &[Data],
    vars: &[Var],
    bunches: &[Bunch],
) -> Result<Rows, PlainFault>
    ensures { AnswersNested nested.now (sets_of sets.now) vars.now (All (λ b. AreWide vars.now b.members) bunches.now)
        (live nested.now vars.now)
        (AllZip (Extends nested.now (sets_of sets.now) vars.now (live nested.now vars.now)) bunches.now)
        result }
{
    let none = run(
        alloc,
        nested,
        &Scope {
            sets,
            vars,
            rows: &[],
        },
    )?;
    let mut rows = List::new(alloc);
    for bunch in bunches {
        let members = bunch.members.as_slice();
        let inner = run(
            alloc,
            nested,
            &Scope {
                sets,
                vars,
                rows: members,
            },
        )?;
        append(
            &mut rows,
            before_each(alloc, &bunch.head, inner.rows.as_slice())?,
        )?;
    }
    Ok(Rows {
        vars: none.vars,
        rows,
    })
}

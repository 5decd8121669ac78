//! The row of a nested plan over the rows of a small table, which the plan of a text makes.

ghost use Rattle.std.specs.Prelude.{◌≡◌, ℕ, true};
ghost use Rattle.hy_job.specs.Nested.{n_width};
ghost use Rattle.hy_job.specs.RunLaws.{AreWide};
ghost use Rattle.hy_job.specs.Sound.{SoundJob, SoundNested, is_aggregate};

use crate::texts::{accepted, job};
use al_plain::evaluate;
use al_value::{List, Row, Value};
use hy_job::{Job, Kind, NestedPlan};
use hy_nested::{row_wise, run_nested};
use std::alloc::Global;
use std::test::Fail;

/// The rows `1,Ann,X,10`, `2,Bob,Y,20`, `3,Cy,X,-` and `4,Di,-,5`, each with a further 1.
const EMP: &str =
    "(assign (($name (if (eq $id 1) \"Ann\" (if (eq $id 2) \"Bob\" (if (eq $id 3) \"Cy\" \"Di\")))) \
     ($dept (if (eq $id 2) \"Y\" (if (eq $id 4) null \"X\"))) \
     ($pay (if (eq $id 1) 10 (if (eq $id 2) 20 (if (eq $id 3) null 5)))) ($one 1)) (unnest $id (range 1 4) (empty)))";

fn file_of(alloc: Global, plan: &str) -> Result<String, Fail> {
    Ok(format!(in alloc; "(algebricks 1 (dataset none \"none.csv\" (a int)) (result {plan}))")?)
}

/// What the plain evaluator gives for a plan without datasets.
fn plain_rows(alloc: Global, plan: &str) -> Result<List<Row>, Fail> {
    let file = accepted(alloc, file_of(alloc, plan)?.as_str())?;
    match evaluate(alloc, &file.get().root, &[]) {
        Ok(rows) => Ok(rows),
        Err(_) => Err(Fail::from("not evaluated")),
    }
}

fn put(alloc: Global, text: &mut String, value: &Value) -> Result<(), Fail> {
    match value {
        Value::Null => text.push_str("-")?,
        Value::Bool(true) => text.push_str("TRUE")?,
        Value::Bool(false) => text.push_str("FALSE")?,
        Value::Int(n) => {
            let digits = format!(in alloc; "{n}")?;
            text.push_str(digits.as_str())?;
        }
        Value::Text(t) => text.push_str(t.as_str())?,
    }
    Ok(())
}

/// The values between commas.
fn shown(alloc: Global, row: &[Value]) -> Result<String, Fail> {
    let mut text = String::new(alloc);
    let mut first = true;
    for value in row {
        if !first {
            text.push_str(",")?;
        }
        first = false;
        put(alloc, &mut text, value)?;
    }
    Ok(text)
}

/// Whether each row has so many values.
fn are_wide(rows: &[Row], width: usize) -> bool
    ensures { result ≡ true → AreWide width rows.now }
{
    for row in rows {
        if row.len() != width {
            return false;
        }
    }
    true
}

/// The row of the plan over the rows, where they have so many values.
fn row_over(alloc: Global, plan: &NestedPlan, width: usize, rows: &[Row]) -> Result<Row, Fail>
    requires { SoundNested plan.now width }
{
    if !are_wide(rows, width) {
        return Err(Fail::from("other rows than the plan is for"));
    }
    Ok(run_nested(alloc, plan, rows)?)
}

/// The number of aggregates at the root.
#[tactic(auto, unfolding(crate::specs::Opens::nested_shape, crate::specs::Opens::nested_hidden, crate::specs::Opens::row_hidden))]
fn made(plan: &NestedPlan) -> usize
    ensures { (width : ℕ) → is_aggregate plan.now ≡ true → n_width plan.now width ≡ result }
{
    match plan {
        NestedPlan::Aggregate { made, .. } => made.len(),
        _ => 0,
    }
}

/// What the subplan of a job gives over the rows, and whether it is row-wise.
fn subplan_row(alloc: Global, job: &Job, rows: &[Row]) -> Result<(Row, bool), Fail>
    requires { SoundJob job.now }
{
    for activity in job.activities.as_slice() {
        if let Kind::Subplan { nested } = &activity.kind {
            let width = (activity.arity as usize).saturating_sub(made(nested));
            return Ok((row_over(alloc, nested, width, rows)?, row_wise(nested)));
        }
    }
    Err(Fail::from("no subplan"))
}

/// The row of a nested plan over the rows, whether it is row-wise, as text.
fn nested_answer(alloc: Global, vars: &str, nested: &str, rows: &[Row]) -> Result<String, Fail> {
    let plan = format!(in alloc; "({vars}) (subplan {nested} {EMP})")?;
    let job = job(alloc, file_of(alloc, plan.as_str())?.as_str())?;
    let (row, row_wise) = subplan_row(alloc, job.get(), rows)?;
    let row = shown(alloc, row.as_slice())?;
    let works = if row_wise { "by row" } else { "as a whole" };
    Ok(format!(in alloc; "{} {works}", row.as_str())?)
}

/// The row that the plain evaluator gives for the nested plan over all rows, as one group.
fn plain_answer(alloc: Global, vars: &str, nested: &str) -> Result<String, Fail> {
    let plan = format!(in alloc; "({vars}) (group (($all $one)) {nested} {EMP})")?;
    match plain_rows(alloc, plan.as_str())?.as_slice() {
        [row] => shown(alloc, row.as_slice()),
        _ => Err(Fail::from("no single row")),
    }
}

/// The variables of a nested plan, the plan, its row over EMP, and how it works.
const PLANS: [(&str, &str, &str, &str); 20] = [
    (
        "$c $n $s $l $h",
        "(aggregate (($c (countall)) ($n (count $pay)) ($s (sum $pay)) ($l (min $pay)) ($h (max $pay))) (nested))",
        "4,3,35,5,20",
        "by row",
    ),
    (
        "$c",
        "(aggregate (($c (countall))) (select (eq $dept \"X\") (nested)))",
        "2",
        "by row",
    ),
    (
        "$s $m",
        "(aggregate (($s (sum $twice)) ($m (max $next))) (assign (($twice (add $pay $pay)) ($next (add $id 1))) (nested)))",
        "70,5",
        "by row",
    ),
    (
        "$m",
        "(aggregate (($m (max $dept))) (project ($dept) (nested)))",
        "Y",
        "by row",
    ),
    (
        "$c $s",
        "(aggregate (($c (countall)) ($s (sum $k))) (unnest $k (range 1 $id) (nested)))",
        "10,20",
        "by row",
    ),
    (
        "$c $m",
        "(aggregate (($c (countall)) ($m (max $w))) (unnest $w (split $name \"n\") (nested)))",
        "6,Di",
        "by row",
    ),
    (
        "$c $m",
        "(aggregate (($c (countall)) ($m (max $k))) (select (lt 1 $k) (unnest $k (range 1 $two) (project ($two) \
         (assign (($two (add $id 1))) (select (lt $id 3) (nested)))))))",
        "3,3",
        "by row",
    ),
    (
        "$c $s $m",
        "(aggregate (($c (countall)) ($s (sum $pay)) ($m (min $pay))) (select (eq $id 9) (nested)))",
        "0,-,-",
        "by row",
    ),
    (
        "$m $c",
        "(aggregate (($m (min $pay)) ($c (countall))) (limit 2 1 (order (($pay desc)) (nested))))",
        "5,2",
        "as a whole",
    ),
    (
        "$m $h",
        "(aggregate (($m (min $pay)) ($h (max $pay))) (limit 2 1 (order (($pay asc)) (nested))))",
        "5,10",
        "as a whole",
    ),
    (
        "$m",
        "(aggregate (($m (max $id))) (limit 1 0 (order (($dept asc) ($pay desc)) (nested))))",
        "4",
        "as a whole",
    ),
    (
        "$m",
        "(aggregate (($m (max $id))) (limit 1 1 (order (($dept desc) ($pay asc)) (nested))))",
        "3",
        "as a whole",
    ),
    (
        "$c",
        "(aggregate (($c (countall))) (order (($id asc)) (nested)))",
        "4",
        "as a whole",
    ),
    (
        "$c $m",
        "(aggregate (($c (countall)) ($m (max $dept))) (distinct (project ($dept) (nested))))",
        "3,Y",
        "as a whole",
    ),
    (
        "$c",
        "(aggregate (($c (countall))) (distinct (nested)))",
        "4",
        "as a whole",
    ),
    (
        "$c",
        "(aggregate (($c (countall))) (limit 3 2 (nested)))",
        "2",
        "as a whole",
    ),
    (
        "$c",
        "(aggregate (($c (countall))) (limit 9223372036854775807 3 (nested)))",
        "1",
        "as a whole",
    ),
    (
        "$m",
        "(aggregate (($m (max $c))) (aggregate (($c (countall))) (select false (nested))))",
        "0",
        "as a whole",
    ),
    (
        "$c $s",
        "(aggregate (($c (countall)) ($s (sum $k))) (unnest $k (range 0 $id) (limit 2 0 (order (($id desc)) (nested)))))",
        "9,16",
        "as a whole",
    ),
    (
        "$s",
        "(aggregate (($s (sum $k))) (select (lt $k 4) (assign (($j $k)) (project ($k) (distinct (project ($k) (unnest $k (range 1 $id) (nested)))))))) ",
        "6",
        "as a whole",
    ),
];

/// A plan's row, and how it is worked on.
fn beside(alloc: Global, wanted: &str, works: &str) -> Result<String, Fail> {
    Ok(format!(in alloc; "{wanted} {works}")?)
}

#[test]
fn gives_a_row(rt: HostRuntime) -> Result<(), Fail> {
    let alloc = rt.alloc();
    let all = format!(in alloc; "($id $name $dept $pay $one) {EMP}")?;
    let rows = plain_rows(alloc, all.as_str())?;
    for (vars, nested, wanted, works) in PLANS {
        let expected = beside(alloc, wanted, works)?;
        let given = nested_answer(alloc, vars, nested, rows.as_slice())?;
        assert_eq!(rt; given.as_str(), expected.as_str());
        assert_eq!(rt; plain_answer(alloc, vars, nested)?.as_str(), wanted);
    }
    Ok(())
}

/// The variables of a nested plan, the plan, and its row over no rows.
const OVER_NONE: [(&str, &str, &str); 4] = [
    (
        "$c $s",
        "(aggregate (($c (countall)) ($s (sum $pay))) (nested))",
        "0,- by row",
    ),
    (
        "$c $s",
        "(aggregate (($c (countall)) ($s (sum $pay))) (order (($id asc)) (nested)))",
        "0,- as a whole",
    ),
    (
        "$c",
        "(aggregate (($c (countall))) (distinct (limit 1 1 (nested))))",
        "0 as a whole",
    ),
    (
        "$c",
        "(aggregate (($c (countall))) (aggregate (($s (sum $pay))) (nested)))",
        "1 as a whole",
    ),
];

#[test]
fn gives_a_row_over_none(rt: HostRuntime) -> Result<(), Fail> {
    let alloc = rt.alloc();
    for (vars, nested, wanted) in OVER_NONE {
        assert_eq!(rt; nested_answer(alloc, vars, nested, &[])?.as_str(), wanted);
    }
    Ok(())
}

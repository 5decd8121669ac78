//! Plans evaluated over no data: the rows of a small table are made by the plan itself.

use crate::texts::accepted;
use al_plain::{PlainFault, evaluate};
use al_plan::Plan;
use al_value::{Row, Value};
use std::alloc::Global;
use std::test::Fail;

fn put(alloc: Global, text: &mut String, value: &Value) -> Result<(), Fail> {
    match value {
        Value::Null => text.push_str("-")?,
        Value::Bool(true) => text.push_str("TRUE")?,
        Value::Bool(false) => text.push_str("FALSE")?,
        Value::Int(n) => {
            let digits = format!(in alloc; "{n}")?;
            text.push_str(digits.as_str())?;
        }
        Value::Text(t) => text.push_str(t.as_str())?,
    }
    Ok(())
}

/// The rows as text: cells between commas, rows between semicolons.
fn shown(alloc: Global, rows: &[Row]) -> Result<String, Fail> {
    let mut text = String::new(alloc);
    for row in rows {
        if !text.as_str().is_empty() {
            text.push_str(";")?;
        }
        let mut first = true;
        for value in row.as_slice() {
            if !first {
                text.push_str(",")?;
            }
            first = false;
            put(alloc, &mut text, value)?;
        }
    }
    Ok(text)
}

/// The rows `1,Ann,X,10`, `2,Bob,Y,20`, `3,Cy,X,-` and `4,Di,-,5`.
const EMP: &str =
    "(assign (($name (if (eq $id 1) \"Ann\" (if (eq $id 2) \"Bob\" (if (eq $id 3) \"Cy\" \"Di\")))) \
     ($dept (if (eq $id 2) \"Y\" (if (eq $id 4) null \"X\"))) \
     ($pay (if (eq $id 1) 10 (if (eq $id 2) 20 (if (eq $id 3) null 5))))) (unnest $id (range 1 4) (empty)))";

/// The same rows in other variables.
const OTHER: &str =
    "(assign (($n (if (eq $i 1) \"Ann\" (if (eq $i 2) \"Bob\" (if (eq $i 3) \"Cy\" \"Di\")))) \
     ($d (if (eq $i 2) \"Y\" (if (eq $i 4) null \"X\"))) \
     ($p (if (eq $i 1) 10 (if (eq $i 2) 20 (if (eq $i 3) null 5))))) (unnest $i (range 1 4) (empty)))";

/// The row `X,Ex`.
const DEPT: &str = "(assign (($d \"X\") ($title \"Ex\")) (empty))";

/// A file of this plan, in which EMP, OTHER and DEPT stand for those rows.
fn file_of(alloc: Global, plan: &str) -> Result<String, Fail> {
    let plan = plan.replace(alloc, "EMP", EMP)?;
    let plan = plan.replace(alloc, "OTHER", OTHER)?;
    let plan = plan.replace(alloc, "DEPT", DEPT)?;
    Ok(format!(in alloc; "(algebricks 1 (dataset none \"none.csv\" (a int)) (result {plan}))")?)
}

/// What a plan gives where no dataset has rows, or the name of the check.
fn answer(alloc: Global, plan: &str) -> Result<String, Fail> {
    let file = accepted(alloc, file_of(alloc, plan)?.as_bytes())?;
    match evaluate(alloc, &file.get().root, &[]) {
        Ok(rows) => shown(alloc, rows.as_slice()),
        Err(PlainFault::Check(name)) => Ok(format!(in alloc; "check {}", name.as_str())?),
        Err(PlainFault::NoMemory) => Ok(String::from_str(alloc, "no memory")?),
    }
}

/// The variables that are listed and a plan, and its rows.
const ANSWERS: [(&str, &str); 18] = [
    (
        "($id $name $dept $pay) (select (eq $dept \"X\") EMP)",
        "1,Ann,X,10;3,Cy,X,-",
    ),
    ("($pay $id) (project ($pay $id) EMP)", "10,1;20,2;-,3;5,4"),
    ("($a) (scan none ($a))", ""),
    ("($dept) EMP", "X;Y;X;-"),
    (
        "($a $b) (assign (($a (div 7 -2)) ($b (add 9223372036854775807 1))) (empty))",
        "-3,-",
    ),
    (
        "($id $pay) (project ($id $pay) (order (($pay desc)) EMP))",
        "2,20;1,10;4,5;3,-",
    ),
    (
        "($id $name $dept $pay) (limit 2 3 (order (($id asc)) EMP))",
        "4,Di,-,5",
    ),
    (
        "($of $all) (order (($of asc)) (group (($of $dept)) (aggregate (($all (sum $pay))) (nested)) EMP))",
        "-,5;X,10;Y,20",
    ),
    (
        "($id $i) (project ($id $i) (join (eq $dept $d) EMP OTHER))",
        "1,1;1,3;2,2;3,1;3,3",
    ),
    (
        "($id $d $title) (project ($id $d $title) (leftjoin (eq $dept $d) EMP DEPT))",
        "1,X,Ex;2,-,-;3,X,Ex;4,-,-",
    ),
    ("($dept) (distinct (project ($dept) EMP))", "X;Y;-"),
    ("($what) (union ($what) ($dept) ($d) EMP DEPT)", "X;Y;X;-;X"),
    ("($n) (unnest $n (range -1 2) (empty))", "-1;0;1;2"),
    (
        "($id $count) (project ($id $count) (subplan (aggregate (($count (countall))) \
         (unnest $piece (split $name \"n\") (nested))) EMP))",
        "1,3;2,1;3,1;4,1",
    ),
    (
        "($count) (aggregate (($count (countall))) (scan none ($a)))",
        "0",
    ),
    (
        "($a $b $c) (aggregate (($a (count $pay)) ($b (min $pay)) ($c (max $pay))) EMP)",
        "3,5,20",
    ),
    ("($id) (check small (lt $pay 15) EMP)", "check small"),
    (
        "($id) (project ($id) (check small (lt (coalesce $pay 0) 100) EMP))",
        "1;2;3;4",
    ),
];

#[test]
fn evaluates_plans(rt: HostRuntime) -> Result<(), Fail> {
    for (plan, wanted) in ANSWERS {
        assert_eq!(rt; answer(rt.alloc(), plan)?.as_str(), wanted);
    }
    Ok(())
}

#[test]
fn evaluates_the_empty_plan(rt: HostRuntime) -> Result<(), Fail> {
    let alloc = rt.alloc();
    let rows = evaluate(alloc, &Plan::Empty, &[])?;
    assert_eq!(rt; rows.len(), 1);
    assert_eq!(rt; shown(alloc, rows.as_slice())?.as_str(), "");
    Ok(())
}

use crate::case::{Case, expect, serve};
use crate::queries::file_of;
use std::alloc::Global;
use std::process::Abort;
use std::test::Fail;

const EMP_AND_DEPT: &str = "$id $name $dept $pay $c $t";

/// A plan over the variables that are listed, the steps of its trace, and the plan that they lead
/// to; what comes behind the line `physical` is left open. SCAN stands for the scan of emp, and DEPT for that of dept.
struct Row<'a> {
    listed: &'a str,
    plan: &'a str,
    steps: &'a str,
    rewritten: &'a str,
}

fn dept_file(alloc: Global, listed: &str, plan: &str) -> Result<String, Fail> {
    let plan = plan.replace(alloc, "DEPT", "(scan dept ($c $t))")?;
    file_of(alloc, listed, plan.as_str())
}

fn explains<R: Abort + AllocGlobal>(rt: &R, row: &Row) -> Result<(), Fail> {
    let alloc = rt.alloc();
    let file = dept_file(alloc, row.listed, row.plan)?;
    let after = dept_file(alloc, row.listed, row.rewritten)?;
    let steps = row.steps;
    let text = format!(in alloc; "trace\n{steps}plan\n{after}\nphysical\n")?;
    let left = serve(
        alloc,
        &Case::of_plan("explain p --partitions 2", file.as_str()),
    )?;
    assert_eq!(rt; left.code, 0);
    assert!(rt; left.out.bytes().starts_with(text.as_bytes()));
    Ok(())
}

const OF_A_SELECT: &str = "trace
1 prune result-project /
2 prune project-below-select /0
plan
(algebricks 1 (dataset emp \"emp.csv\" (id int) (name text) (dept text) (pay int)) (result ($id) (project ($id) (select (eq $dept \"X\") (project ($id $dept) (scan emp ($id $name $dept $pay)))))))
physical
result ($id) | unpartitioned | none
  gather | unpartitioned | none
    project ($id) | random | none
      select (eq $dept \"X\") | random | none
        project ($id $dept) | random | none
          scan emp ($id $name $dept $pay) | random | none
job
stage 0: 0 1 2 3 4
activity 0 scan
activity 1 project
activity 2 select
activity 3 project
activity 4 result
wire 0 -> 1 one-to-one
wire 1 -> 2 one-to-one
wire 2 -> 3 one-to-one
wire 3 -> 4 gather
";

const OF_AN_ORDER: &str = "trace
plan
(algebricks 1 (dataset t \"t.csv\" (a int)) (result ($a) (order (($a asc)) (scan t ($a)))))
physical
result ($a) | unpartitioned | order (($a asc))
  merge (($a asc)) | unpartitioned | order (($a asc))
    sort (($a asc)) | random | order (($a asc))
      scan t ($a) | random | none
job
stage 0: 0 1
stage 1: 2 3
activity 0 scan
activity 1 sort-build
activity 2 sort-emit
activity 3 result
wire 0 -> 1 one-to-one
wire 2 -> 3 merge
block 1 -> 2
";

#[test]
fn explains_whole(rt: HostRuntime) -> Result<(), Fail> {
    let select =
        "(algebricks 1 (dataset emp \"emp.csv\" (id int) (name text) (dept text) (pay int)) (result ($id) (select (eq $dept \"X\") (scan emp ($id $name $dept $pay)))))";
    let case = Case::of_plan("explain p --partitions 2", select);
    expect(&rt, &case, 0, OF_A_SELECT, "")?;
    let order =
        "(algebricks 1 (dataset t \"t.csv\" (a int)) (result ($a) (order (($a asc)) (scan t ($a)))))";
    let case = Case::of_plan("explain p --partitions 2", order);
    expect(&rt, &case, 0, OF_AN_ORDER, "")
}

const SELECTS: [Row<'static>; 12] = [
    Row {
        listed: "$c $t",
        plan: "(select (eq $t \"Ex\") DEPT)",
        steps: "",
        rewritten: "(select (eq $t \"Ex\") DEPT)",
    },
    Row {
        listed: "$c $t",
        plan: "(select (and (eq $t \"Ex\") true) DEPT)",
        steps: "1 split split-and /0\n2 select select-true /0/0\n",
        rewritten: "(select (eq $t \"Ex\") DEPT)",
    },
    Row {
        listed: "$c $t $u",
        plan: "(select (eq $t \"Ex\") (assign (($u $c)) DEPT))",
        steps: "1 select select-below-assign /0\n",
        rewritten: "(assign (($u $c)) (select (eq $t \"Ex\") DEPT))",
    },
    Row {
        listed: "$t",
        plan: "(select (eq $t \"Ex\") (project ($t) DEPT))",
        steps: "1 select select-below-project /0\n2 prune project-below-select /0\n3 prune project-all /0\n",
        rewritten: "(select (eq $t \"Ex\") (project ($t) DEPT))",
    },
    Row {
        listed: "$c $t $u",
        plan: "(select (eq $t \"Ex\") (unnest $u (range 1 2) DEPT))",
        steps: "1 select select-below-unnest /0\n",
        rewritten: "(unnest $u (range 1 2) (select (eq $t \"Ex\") DEPT))",
    },
    Row {
        listed: "$c $t $u",
        plan: "(select (eq $t \"Ex\") (subplan (aggregate (($u (countall))) (nested)) DEPT))",
        steps: "1 select select-below-subplan /0\n",
        rewritten: "(subplan (aggregate (($u (countall))) (nested)) (select (eq $t \"Ex\") DEPT))",
    },
    Row {
        listed: "$c $t",
        plan: "(select (eq $t \"Ex\") (order (($c asc)) DEPT))",
        steps: "1 select select-below-order /0\n",
        rewritten: "(order (($c asc)) (select (eq $t \"Ex\") DEPT))",
    },
    Row {
        listed: "$c $t",
        plan: "(select (eq $t \"Ex\") (distinct DEPT))",
        steps: "1 select select-below-distinct /0\n",
        rewritten: "(distinct (select (eq $t \"Ex\") DEPT))",
    },
    Row {
        listed: EMP_AND_DEPT,
        plan: "(select (eq $id 1) (join (eq $dept $c) SCAN DEPT))",
        steps: "1 select select-below-join-left /0\n",
        rewritten: "(join (eq $dept $c) (select (eq $id 1) SCAN) DEPT)",
    },
    Row {
        listed: EMP_AND_DEPT,
        plan: "(select (eq $t \"Ex\") (join (eq $dept $c) SCAN DEPT))",
        steps: "1 select select-below-join-right /0\n",
        rewritten: "(join (eq $dept $c) SCAN (select (eq $t \"Ex\") DEPT))",
    },
    Row {
        listed: EMP_AND_DEPT,
        plan: "(select (lt $name $t) (join (eq $dept $c) SCAN DEPT))",
        steps: "1 select select-into-join /0\n",
        rewritten: "(join (and (eq $dept $c) (lt $name $t)) SCAN DEPT)",
    },
    Row {
        listed: EMP_AND_DEPT,
        plan: "(select (eq $id 1) (leftjoin (eq $dept $c) SCAN DEPT))",
        steps: "1 select select-below-leftjoin /0\n",
        rewritten: "(leftjoin (eq $dept $c) (select (eq $id 1) SCAN) DEPT)",
    },
];

#[test]
fn explains_selects(rt: HostRuntime) -> Result<(), Fail> {
    for row in &SELECTS {
        explains(&rt, row)?;
    }
    Ok(())
}

const JOINS: [Row<'static>; 5] = [
    Row {
        listed: "$id $t",
        plan: "(order (($id asc)) (select (eq $t \"Ex\") (leftjoin (eq $dept $c) SCAN DEPT)))",
        steps: "1 join leftjoin-to-join /0/0\n2 join join-cond-right /0/0\n3 prune result-project /\n4 prune project-below-order /0\n5 prune project-all /0\n6 prune project-below-join /0/0\n",
        rewritten: "(order (($id asc)) (project ($id $t) (join (eq $dept $c) (project ($id $dept) SCAN) (select (eq $t \"Ex\") DEPT))))",
    },
    Row {
        listed: EMP_AND_DEPT,
        plan: "(order (($id asc)) (select (eq $t \"Ex\") (leftjoin (eq $dept $c) SCAN DEPT)))",
        steps: "1 join leftjoin-to-join /0/0\n2 join join-cond-right /0/0\n",
        rewritten: "(order (($id asc)) (join (eq $dept $c) SCAN (select (eq $t \"Ex\") DEPT)))",
    },
    Row {
        listed: EMP_AND_DEPT,
        plan: "(join (and true (eq $dept $c)) SCAN DEPT)",
        steps: "1 join drop-true /0\n",
        rewritten: "(join (eq $dept $c) SCAN DEPT)",
    },
    Row {
        listed: EMP_AND_DEPT,
        plan: "(join (and (eq $id 1) (eq $dept $c)) SCAN DEPT)",
        steps: "1 join join-cond-left /0\n",
        rewritten: "(join (eq $dept $c) (select (eq $id 1) SCAN) DEPT)",
    },
    Row {
        listed: EMP_AND_DEPT,
        plan: "(leftjoin (and (eq $dept $c) (eq $t \"Ex\")) SCAN DEPT)",
        steps: "1 join leftjoin-cond-right /0\n",
        rewritten: "(leftjoin (eq $dept $c) SCAN (select (eq $t \"Ex\") DEPT))",
    },
];

#[test]
fn explains_joins(rt: HostRuntime) -> Result<(), Fail> {
    for row in &JOINS {
        explains(&rt, row)?;
    }
    Ok(())
}

const ORDERS: [Row<'static>; 6] = [
    Row {
        listed: "$c $t",
        plan: "(distinct (order (($c asc)) DEPT))",
        steps: "1 order drop-order /0\n",
        rewritten: "(distinct DEPT)",
    },
    Row {
        listed: "$c $t",
        plan: "(order (($c asc)) (order (($t asc)) DEPT))",
        steps: "1 order order-over-order /0\n",
        rewritten: "(order (($c asc)) DEPT)",
    },
    Row {
        listed: "$c $t",
        plan: "(limit 3 1 (limit 5 2 DEPT))",
        steps: "1 order limit-over-limit /0\n",
        rewritten: "(limit 3 3 DEPT)",
    },
    Row {
        listed: "$t",
        plan: "(limit 1 0 (project ($t) DEPT))",
        steps: "1 order limit-below-project /0\n",
        rewritten: "(project ($t) (limit 1 0 DEPT))",
    },
    Row {
        listed: "$c $t $u",
        plan: "(limit 1 0 (assign (($u $c)) DEPT))",
        steps: "1 order limit-below-assign /0\n",
        rewritten: "(assign (($u $c)) (limit 1 0 DEPT))",
    },
    Row {
        listed: "$n",
        plan: "(aggregate (($n (countall))) (order (($id asc)) SCAN))",
        steps: "1 order drop-order /0\n2 prune aggregate-project-input /0\n",
        rewritten: "(aggregate (($n (countall))) (project () SCAN))",
    },
];

#[test]
fn explains_orders_and_limits(rt: HostRuntime) -> Result<(), Fail> {
    for row in &ORDERS {
        explains(&rt, row)?;
    }
    Ok(())
}

const GROUPS: [Row<'static>; 6] = [
    Row {
        listed: "$dept",
        plan: "(distinct (distinct (project ($dept) SCAN)))",
        steps: "1 group distinct-over-distinct /0\n",
        rewritten: "(distinct (project ($dept) SCAN))",
    },
    Row {
        listed: "$k $n",
        plan: "(distinct (group (($k $c)) (aggregate (($n (count $t))) (nested)) DEPT))",
        steps: "1 group distinct-over-group /0\n",
        rewritten: "(group (($k $c)) (aggregate (($n (count $t))) (nested)) DEPT)",
    },
    Row {
        listed: "$n $m",
        plan: "(distinct (aggregate (($n (count $t)) ($m (count $c))) DEPT))",
        steps: "1 group distinct-over-aggregate /0\n",
        rewritten: "(aggregate (($n (count $t)) ($m (count $c))) DEPT)",
    },
    Row {
        listed: "$n $m",
        plan: "(aggregate (($n (count $t)) ($m (count $c))) (project ($c $t) DEPT))",
        steps: "1 group aggregate-over-project /0\n",
        rewritten: "(aggregate (($n (count $t)) ($m (count $c))) DEPT)",
    },
    Row {
        listed: "$k $n",
        plan: "(group (($k $c)) (aggregate (($n (count $t))) (nested)) (project ($c $t) DEPT))",
        steps: "1 group group-over-project /0\n",
        rewritten: "(group (($k $c)) (aggregate (($n (count $t))) (nested)) DEPT)",
    },
    Row {
        listed: "$k $n",
        plan: "(group (($k $c)) (aggregate (($n (countall))) (distinct (nested))) (project ($c) DEPT))",
        steps: "",
        rewritten: "(group (($k $c)) (aggregate (($n (countall))) (distinct (nested))) (project ($c) DEPT))",
    },
];

#[test]
fn explains_groups(rt: HostRuntime) -> Result<(), Fail> {
    for row in &GROUPS {
        explains(&rt, row)?;
    }
    Ok(())
}

const PRUNES: [Row<'static>; 8] = [
    Row {
        listed: "$id",
        plan: "(limit 2 3 (order (($id asc)) SCAN))",
        steps: "1 prune result-project /\n",
        rewritten: "(project ($id) (limit 2 3 (order (($id asc)) SCAN)))",
    },
    Row {
        listed: "$id",
        plan: "(select (eq $dept \"X\") SCAN)",
        steps: "1 prune result-project /\n2 prune project-below-select /0\n",
        rewritten: "(project ($id) (select (eq $dept \"X\") (project ($id $dept) SCAN)))",
    },
    Row {
        listed: "$c",
        plan: "(project ($c) (project ($c $t) DEPT))",
        steps: "1 prune project-over-project /0\n",
        rewritten: "(project ($c) DEPT)",
    },
    Row {
        listed: "$t $c",
        plan: "(project ($t $c) DEPT)",
        steps: "1 prune project-all /0\n",
        rewritten: "DEPT",
    },
    Row {
        listed: "$c $t",
        plan: "(project ($c $t) (assign (($u $c)) DEPT))",
        steps: "1 prune assign-under-project /0\n2 prune project-all /0\n",
        rewritten: "DEPT",
    },
    Row {
        listed: "$id",
        plan: "(project ($id) (order (($pay asc)) SCAN))",
        steps: "1 prune project-below-order /0\n",
        rewritten: "(project ($id) (order (($pay asc)) (project ($id $pay) SCAN)))",
    },
    Row {
        listed: "$id $t",
        plan: "(project ($id $t) (join (eq $dept $c) SCAN DEPT))",
        steps: "1 prune project-below-join /0\n",
        rewritten: "(project ($id $t) (join (eq $dept $c) (project ($id $dept) SCAN) DEPT))",
    },
    Row {
        listed: "$d $s",
        plan: "(group (($d $dept)) (aggregate (($s (sum $pay))) (nested)) SCAN)",
        steps: "1 prune group-project-input /0\n",
        rewritten: "(group (($d $dept)) (aggregate (($s (sum $pay))) (nested)) (project ($dept $pay) SCAN))",
    },
];

#[test]
fn explains_columns_that_nobody_reads(rt: HostRuntime) -> Result<(), Fail> {
    for row in &PRUNES {
        explains(&rt, row)?;
    }
    Ok(())
}

/// A balanced tree of 1,023 `and`s.
fn conjunction(alloc: Global) -> Result<String, Fail> {
    let mut tree = String::from_str(alloc, "(eq $dept $c)")?;
    for _ in 0..10 {
        tree = format!(in alloc; "(and {tree} {tree})")?;
    }
    Ok(tree)
}

/// The condition is put back nested to the right, a thousand deep.
#[test]
fn explains_large_conditions(rt: HostRuntime) -> Result<(), Fail> {
    let alloc = rt.alloc();
    let tree = conjunction(alloc)?;
    let plan = format!(in alloc; "(join (and true {tree}) SCAN DEPT)")?;
    let file = dept_file(alloc, EMP_AND_DEPT, plan.as_str())?;
    let mut case = Case::of_plan("explain p", file.as_str());
    case.room = 200_000;
    let left = serve(alloc, &case)?;
    assert_eq!(&rt; left.code, 0);
    assert!(&rt;
        left.out
            .bytes()
            .starts_with(b"trace\n1 join drop-true /0\nplan\n")
    );
    Ok(())
}

#[test]
fn explains_no_refused_plan(rt: HostRuntime) -> Result<(), Fail> {
    let file =
        "(algebricks 1 (dataset t \"t.csv\" (a int)) (result ($a) (project () (scan t ($a)))))";
    let refused = "plan refused: NotLive at 42\n";
    expect(&rt, &Case::of_plan("explain p", file), 2, "", refused)?;
    let absent = "plan refused: Absent at 0\n";
    expect(&rt, &Case::of_words("explain p"), 2, "", absent)
}

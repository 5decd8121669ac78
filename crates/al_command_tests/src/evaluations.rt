//! Plans over data, evaluated: the rows come in the order in which `plain` gives them.

use crate::case::{Case, EMP, serve};
use crate::queries::{DEPT_DATA, file_of};
use std::alloc::Global;
use std::str::from_utf8;
use std::test::Fail;

fn show_cell(text: &mut String, cell: &str) -> Result<(), Fail> {
    if cell.is_empty() || cell == "\"\"" {
        text.push('-')?;
    } else {
        text.push_str(cell)?;
    }
    Ok(())
}

/// The records behind the header: cells between commas, records between semicolons, and a dash for
/// NULL.
fn shown(alloc: Global, printed: &str) -> Result<String, Fail> {
    let mut text = String::new(alloc);
    for line in printed.lines().skip(1) {
        if !text.as_str().is_empty() {
            text.push(';')?;
        }
        for (place, cell) in line.split(',').enumerate() {
            if place > 0 {
                text.push(',')?;
            }
            show_cell(&mut text, cell)?;
        }
    }
    Ok(text)
}

/// What a plan file gives over `emp` and `dept`.
fn answer(alloc: Global, file: &str) -> Result<String, Fail> {
    let case = Case::over_emp("plain p", file, EMP, Some(DEPT_DATA));
    let left = serve(alloc, &case)?;
    shown(alloc, from_utf8(left.out.bytes()).unwrap_or(""))
}

/// Whether a plan file, which is one line of canonical text, is printed as it is.
fn is_printed(alloc: Global, file: &str) -> Result<bool, Fail> {
    let left = serve(alloc, &Case::of_plan("check p", file))?;
    let line = format!(in alloc; "{file}\n")?;
    Ok(left.code == 0 && left.out.bytes() == line.as_bytes())
}

/// Whether a plan file is explained.
fn is_explained(alloc: Global, file: &str) -> Result<bool, Fail> {
    let left = serve(alloc, &Case::of_plan("explain p --partitions 3", file))?;
    Ok(left.code == 0 && left.out.bytes().starts_with(b"trace\n"))
}

/// The variables that are listed, a plan in which SCAN stands for the scan of emp, and its rows.
const ANSWERS: [(&str, &str, &str); 17] = [
    (
        "$id $name $dept $pay",
        "(select (eq $dept \"X\") SCAN)",
        "1,Ann,X,10;3,Cy,X,-",
    ),
    ("$pay $id", "(project ($pay $id) SCAN)", "10,1;20,2;-,3;5,4"),
    ("$dept", "SCAN", "X;Y;X;-"),
    (
        "$id $pay",
        "(project ($id $pay) (order (($pay desc)) SCAN))",
        "2,20;1,10;4,5;3,-",
    ),
    (
        "$id $name $dept $pay",
        "(limit 2 3 (order (($id asc)) SCAN))",
        "4,Di,-,5",
    ),
    (
        "$of $all",
        "(order (($of asc)) (group (($of $dept)) (aggregate (($all (sum $pay))) (nested)) SCAN))",
        "-,5;X,10;Y,20",
    ),
    (
        "$id $i",
        "(project ($id $i) (join (eq $dept $d) SCAN (scan emp ($i $n $d $p))))",
        "1,1;1,3;2,2;3,1;3,3",
    ),
    (
        "$id $d $title",
        "(project ($id $d $title) (leftjoin (eq $dept $d) SCAN (scan dept ($d $title))))",
        "1,X,Ex;2,-,-;3,X,Ex;4,-,-",
    ),
    ("$dept", "(distinct (project ($dept) SCAN))", "X;Y;-"),
    (
        "$what",
        "(union ($what) ($dept) ($d) SCAN (scan dept ($d $title)))",
        "X;Y;X;-;X",
    ),
    (
        "$id $count",
        "(project ($id $count) (subplan (aggregate (($count (countall))) (unnest $piece (split $name \"n\") (nested))) SCAN))",
        "1,3;2,1;3,1;4,1",
    ),
    (
        "$a $b $c",
        "(aggregate (($a (count $pay)) ($b (min $pay)) ($c (max $pay))) SCAN)",
        "3,5,20",
    ),
    (
        "$id",
        "(project ($id) (check small (lt (coalesce $pay 0) 100) SCAN))",
        "1;2;3;4",
    ),
    (
        "$x $y",
        "(assign (($y (add $x 1))) (unnest $x (range 1 4) (empty)))",
        "1,2;2,3;3,4;4,5",
    ),
    (
        "$piece",
        "(unnest $piece (split \"v-w-x-y-z\" \"-\") (empty))",
        "v;w;x;y;z",
    ),
    (
        "$rest $all",
        "(order (($rest asc)) (group (($rest $m)) (aggregate (($all (countall))) (nested)) (assign (($m (mod $x 4))) (unnest $x (range 1 10) (empty)))))",
        "0,2;1,3;2,3;3,2",
    ),
    (
        "$m",
        "(order (($m desc)) (distinct (project ($m) (assign (($m (mod $x 5))) (unnest $x (range 1 12) (empty))))))",
        "4;3;2;1;0",
    ),
];

/// Together the plans have each operator, aggregate and generator.
#[test]
fn plans_are_evaluated_printed_and_explained(rt: HostRuntime) -> Result<(), Fail> {
    for (listed, plan, wanted) in ANSWERS {
        let file = file_of(rt.alloc(), listed, plan)?;
        assert_eq!(rt; answer(rt.alloc(), file.as_str())?.as_str(), wanted);
        assert!(rt; is_printed(rt.alloc(), file.as_str())?);
        assert!(rt; is_explained(rt.alloc(), file.as_str())?);
    }
    Ok(())
}

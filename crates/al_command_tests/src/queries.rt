use crate::case::{Case, EMP, expect, serve};
use std::alloc::Global;
use std::process::Abort;
use std::test::Fail;

const DECL: &str = "(dataset emp \"emp.csv\" (id int) (name text) (dept text) (pay int))";

const DEPT: &str = "(dataset dept \"dept.csv\" (code text) (title text))";

const SCAN: &str = "(scan emp ($id $name $dept $pay))";

const SUMS: &str =
    "(order (($d asc)) (group (($d $dept)) (aggregate (($s (sum $pay))) (nested)) SCAN))";

const NONE: &str = "id,name,dept,pay\n";

/// A plan file over `emp.csv` and `dept.csv`. SCAN in the plan stands for the scan of emp.
pub fn file_of(alloc: Global, listed: &str, plan: &str) -> Result<String, Fail> {
    let plan = plan.replace(alloc, "SCAN", SCAN)?;
    Ok(format!(in alloc; "(algebricks 1 {DECL} {DEPT} (result ({listed}) {plan}))")?)
}

pub const DEPT_DATA: &str = "code,title\nX,Ex\n";

/// Answers a plan file by `plain` and by `step`.
fn answers_file<'a, R: Abort + AllocGlobal>(
    rt: &R,
    file: &'a str,
    emp: &'a str,
    code: u8,
    texts: (&str, &str),
) -> Result<(), Fail> {
    let plain = Case::over_emp("plain p", file, emp, Some(DEPT_DATA));
    expect(rt, &plain, code, texts.0, texts.1)?;
    let step = Case::over_emp("step p", file, emp, Some(DEPT_DATA));
    expect(rt, &step, code, texts.0, texts.1)
}

fn answers<R: Abort + AllocGlobal>(
    rt: &R,
    listed: &str,
    plan: &str,
    emp: &str,
    code: u8,
    texts: (&str, &str),
) -> Result<(), Fail> {
    let file = file_of(rt.alloc(), listed, plan)?;
    answers_file(rt, file.as_str(), emp, code, texts)
}

fn gives<R: Abort + AllocGlobal>(rt: &R, listed: &str, plan: &str, text: &str) -> Result<(), Fail> {
    answers(rt, listed, plan, EMP, 0, (text, ""))
}

#[test]
fn groups_and_sums(rt: HostRuntime) -> Result<(), Fail> {
    gives(&rt, "$d $s", SUMS, "d,s\n,5\nX,10\nY,20\n")?;
    answers(&rt, "$d $s", SUMS, NONE, 0, ("d,s\n", ""))?;
    let count = "(aggregate (($c (countall))) SCAN)";
    answers(&rt, "$c", count, NONE, 0, ("c\n0\n", ""))
}

#[test]
fn limits(rt: HostRuntime) -> Result<(), Fail> {
    gives(
        &rt,
        "$id",
        "(limit 2 3 (order (($id asc)) SCAN))",
        "id\n4\n",
    )?;
    gives(&rt, "$id", "(limit 2 4 (order (($id asc)) SCAN))", "id\n")?;
    takes_any(&rt)
}

/// A limit over rows without an order may take each of them.
fn takes_any<R: Abort + AllocGlobal>(rt: &R) -> Result<(), Fail> {
    let file = file_of(rt.alloc(), "$id", "(limit 1 0 SCAN)")?;
    let case = Case::over_emp("step p", file.as_str(), EMP, Some(DEPT_DATA));
    let left = serve(rt.alloc(), &case)?;
    assert!(rt;
        matches!(
            left.out.bytes(),
            b"id\n1\n" | b"id\n2\n" | b"id\n3\n" | b"id\n4\n"
        )
    );
    Ok(())
}

#[test]
fn joins(rt: HostRuntime) -> Result<(), Fail> {
    let pairs = "(order (($id asc) ($j asc)) (join (eq $dept $e) SCAN (scan emp ($j $m $e $q))))";
    gives(&rt, "$id $j", pairs, "id,j\n1,1\n1,3\n2,2\n3,1\n3,3\n")?;
    let left = "(order (($id asc)) (leftjoin (eq $dept $c) SCAN (scan dept ($c $t))))";
    gives(&rt, "$id $t", left, "id,t\n1,Ex\n2,\n3,Ex\n4,\n")?;
    let selected =
        "(order (($id asc)) (select (eq $t \"Ex\") (leftjoin (eq $dept $c) SCAN (scan dept ($c $t)))))";
    gives(&rt, "$id $t", selected, "id,t\n1,Ex\n3,Ex\n")
}

#[test]
fn checks(rt: HostRuntime) -> Result<(), Fail> {
    let small = "(check small (lt $pay 15) SCAN)";
    answers(&rt, "$id", small, EMP, 4, ("", "check failed: small\n"))?;
    let passes = "(order (($id asc)) (check small (lt (coalesce $pay 0) 100) SCAN))";
    gives(&rt, "$id", passes, "id\n1\n2\n3\n4\n")
}

#[test]
fn computes(rt: HostRuntime) -> Result<(), Fail> {
    let past = "(assign (($x (add 9223372036854775807 1))) (empty))";
    gives(&rt, "$x", past, "x\n\"\"\n")?;
    gives(&rt, "$x", "(assign (($x (div 7 -2))) (empty))", "x\n-3\n")?;
    let pieces =
        "(order (($id asc)) (subplan (aggregate (($c (countall))) (unnest $w (split $name \"n\") (nested))) SCAN))";
    gives(&rt, "$id $c", pieces, "id,c\n1,3\n2,1\n3,1\n4,1\n")
}

#[test]
fn refuses_data(rt: HostRuntime) -> Result<(), Fail> {
    let short = "id,name,dept,pay\n1,Ann,X,10\n2,Bob,Y\n3,Cy,X,\n4,Di,,5\n";
    let refused = "data refused: emp.csv: BadCount record 2 column 0\n";
    answers(&rt, "$id", "SCAN", short, 3, ("", refused))?;
    let file = file_of(rt.alloc(), "$id", "SCAN")?;
    let case = Case::over_emp("step p", file.as_str(), EMP, None);
    let absent = "data refused: dept.csv: Absent record 0 column 0\n";
    expect(&rt, &case, 3, "", absent)
}

/// The header `a`, and behind it so many of a piece.
fn line_of(alloc: Global, piece: &str, count: u32) -> Result<String, Fail> {
    let mut line = String::from_str(alloc, "a\n")?;
    for _ in 0..count {
        line.push_str(piece)?;
    }
    Ok(line)
}

/// Answers a plan over one file, `t.csv`, by `plain` and by `step`.
fn answers_over<R: Abort + AllocGlobal>(
    rt: &R,
    plan: &str,
    data: &str,
    code: u8,
    texts: (&str, &str),
) -> Result<(), Fail> {
    expect(
        rt,
        &Case::over("plain p", plan, data),
        code,
        texts.0,
        texts.1,
    )?;
    expect(
        rt,
        &Case::over("step p", plan, data),
        code,
        texts.0,
        texts.1,
    )
}

#[test]
fn sums_past_small_numbers(rt: HostRuntime) -> Result<(), Fail> {
    let plan =
        "(algebricks 1 (dataset t \"t.csv\" (a int)) (result ($s) (aggregate (($s (sum $a))) (scan t ($a)))))";
    let past = "a\n9223372036854775807\n1\n";
    answers_over(&rt, plan, past, 0, ("s\n\"\"\n", ""))?;
    let back = "a\n9223372036854775807\n1\n-1\n";
    answers_over(&rt, plan, back, 0, ("s\n9223372036854775807\n", ""))
}

#[test]
fn joins_equal_keys(rt: HostRuntime) -> Result<(), Fail> {
    let ones = line_of(rt.alloc(), "1\n", 500)?;
    let plan =
        "(algebricks 1 (dataset t \"t.csv\" (a int)) (result ($c) (aggregate (($c (countall))) (join (eq $a $b) (scan t ($a)) (scan t ($b))))))";
    answers_over(&rt, plan, ones.as_str(), 0, ("c\n250000\n", ""))
}

#[test]
fn takes_texts_up_to_their_limit(rt: HostRuntime) -> Result<(), Fail> {
    let plan = "(algebricks 1 (dataset t \"t.csv\" (a text)) (result ($a) (scan t ($a))))";
    let mut data = line_of(rt.alloc(), "x", 32_000)?;
    data.push('\n')?;
    answers_over(&rt, plan, data.as_str(), 0, (data.as_str(), ""))
}

#[test]
fn refuses_texts_past_their_limit(rt: HostRuntime) -> Result<(), Fail> {
    let plan = "(algebricks 1 (dataset t \"t.csv\" (a text)) (result ($a) (scan t ($a))))";
    let data = line_of(rt.alloc(), "x", 32_001)?;
    let refused = "data refused: t.csv: TooLong record 1 column 1\n";
    answers_over(&rt, plan, data.as_str(), 3, ("", refused))
}

#[test]
fn writes_a_part_into_a_small_sink(rt: HostRuntime) -> Result<(), Fail> {
    let file = file_of(rt.alloc(), "$d $s", SUMS)?;
    let mut case = Case::over_emp("step p", file.as_str(), EMP, Some(DEPT_DATA));
    case.room = 10;
    expect(&rt, &case, 6, "d,s\n,5\nX,1", "sink fault\n")?;
    let mut case = Case::over_emp("plain p", file.as_str(), EMP, Some(DEPT_DATA));
    case.room = 10;
    expect(&rt, &case, 6, "d,s\n,5\nX,1", "sink fault\n")
}

//! Unusual data files, plans at the limits, and which cause comes first.

use crate::case::{Case, EMP, expect, serve};
use std::alloc::Global;
use std::test::Fail;

/// A plan over the texts of `t.csv`.
const TEXTS: &str = "(algebricks 1 (dataset t \"t.csv\" (a text)) (result ($a) (scan t ($a))))";

/// A data file, and the answer.
const FILES: [(&str, &str); 6] = [
    // A byte order mark is no part of the header, and what ends a line is CR, LF or both.
    ("\u{feff}a\nx\n", "a\nx\n"),
    ("a\rx\ry\r", "a\nx\ny\n"),
    ("a\r\nx\r\ny\r\n", "a\nx\ny\n"),
    // Blank lines are no records.
    ("a\n\nx\n\n\ny\n", "a\nx\ny\n"),
    // A field may hold a line's end, and an open quote runs to the end of the file.
    ("a\n\"x\ny\"\nz\n", "a\n\"x\ny\"\nz\n"),
    ("a\n\"x\ny", "a\n\"x\ny\"\n"),
];

#[test]
fn reads_unusual_files(rt: HostRuntime) -> Result<(), Fail> {
    for (data, answer) in FILES {
        expect(&rt, &Case::over("step p", TEXTS, data), 0, answer, "")?;
    }
    Ok(())
}

#[test]
fn explain_opens_no_dataset(rt: HostRuntime) -> Result<(), Fail> {
    // The plan file takes three calls.
    let mut case = Case::over("explain p", TEXTS, "a\nx\n");
    case.failing = Some(3);
    let left = serve(rt.alloc(), &case)?;
    assert_eq!(rt; left.code, 0);
    Ok(())
}

#[test]
fn names_the_innermost_check(rt: HostRuntime) -> Result<(), Fail> {
    let plan =
        "(algebricks 1 (dataset t \"t.csv\" (a int)) (result ($a) (check upper (lt $a 1) (check middle (lt $a 2) (check lower (lt $a 3) (scan t ($a)))))))";
    let failed = "check failed: lower\n";
    expect(&rt, &Case::over("step p", plan, "a\n5\n"), 4, "", failed)
}

#[test]
fn refuses_the_first_dataset_first(rt: HostRuntime) -> Result<(), Fail> {
    let plan =
        "(algebricks 1 (dataset t \"t.csv\" (a int)) (dataset emp \"emp.csv\" (id int)) (result ($a) (scan t ($a))))";
    let mut case = Case::over("step p", plan, "a\nx\n");
    case.emp = Some(EMP);
    // The plan file and the first data file take three calls each; the second can't be opened.
    case.failing = Some(6);
    let refused = "data refused: t.csv: BadInt record 1 column 1\n";
    expect(&rt, &case, 3, "", refused)
}

/// The union of two plans of one variable each.
fn union_of(alloc: Global, number: usize, pair: &[String]) -> Result<String, Fail> {
    let [left, right] = pair else {
        return Err(Fail::from("no pair"));
    };
    let below = number.saturating_mul(2);
    let beside = below.saturating_add(1);
    Ok(format!(in alloc; "(union ($v{number}) ($v{below}) ($v{beside}) {left} {right})")?)
}

/// A tree of unions over 128 scans, which are 255 operators. The variable of each is the number of
/// its place in the tree: 1 at the root, and below place n stand 2n and 2n + 1.
fn tree(alloc: Global) -> Result<String, Fail> {
    let mut plans = Vec::new(alloc);
    for number in 128..256usize {
        plans.push(format!(in alloc; "(scan t ($v{number}))")?)?;
    }
    for level in [64usize, 32, 16, 8, 4, 2, 1] {
        let mut unions = Vec::new(alloc);
        for (place, pair) in plans.as_slice().chunks(2).enumerate() {
            unions.push(union_of(alloc, level.saturating_add(place), pair)?)?;
        }
        plans = unions;
    }
    match plans.pop() {
        Some(plan) => Ok(plan),
        None => Err(Fail::from("no plan")),
    }
}

#[test]
fn explains_256_operators(rt: HostRuntime) -> Result<(), Fail> {
    let plan = tree(rt.alloc())?;
    let text = format!(in rt.alloc();
        "(algebricks 1 (dataset t \"t.csv\" (a int)) (result ($v1) {plan}))"
    )?;
    let left = serve(
        rt.alloc(),
        &Case::of_plan("explain p --partitions 2", text.as_str()),
    )?;
    assert_eq!(rt; left.code, 0);
    let more = format!(in rt.alloc();
        "(algebricks 1 (dataset t \"t.csv\" (a int)) (result ($v1) (distinct {plan})))"
    )?;
    let left = serve(rt.alloc(), &Case::of_plan("explain p", more.as_str()))?;
    assert_eq!(rt; left.code, 2);
    Ok(())
}

/// A select whose condition has so many negations.
fn negated(alloc: Global, negations: usize) -> Result<String, Fail> {
    let opened = "(not ".repeat(alloc, negations)?;
    let closed = ")".repeat(alloc, negations)?;
    Ok(format!(in alloc;
        "(algebricks 1 (result ($a) (select {opened}true{closed} (assign (($a 1)) (empty)))))"
    )?)
}

#[test]
fn explains_100_parentheses(rt: HostRuntime) -> Result<(), Fail> {
    let deep = negated(rt.alloc(), 97)?;
    let left = serve(rt.alloc(), &Case::of_plan("explain p", deep.as_str()))?;
    assert_eq!(rt; left.code, 0);
    // 35 bytes stand before the first negation, and 97 negations of 5 before the last.
    let deeper = negated(rt.alloc(), 98)?;
    let refused = "plan refused: TooDeep at 520\n";
    expect(
        &rt,
        &Case::of_plan("explain p", deeper.as_str()),
        2,
        "",
        refused,
    )
}

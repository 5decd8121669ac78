//! Conditions of many conjuncts: each of them may become an operator of its own.

use crate::case::{Case, serve};
use std::alloc::Global;
use std::process::Abort;
use std::test::Fail;

/// The exit status of `no memory`.
const NO_MEMORY: u8 = 8;

/// So many of a condition, all of them to be TRUE.
fn many(alloc: Global, condition: &str, times: usize) -> Result<String, Fail> {
    let before = format!(in alloc; "(and {condition} ")?;
    let opened = before.repeat(alloc, times.saturating_sub(1))?;
    let closed = ")".repeat(alloc, times.saturating_sub(1))?;
    Ok(format!(in alloc; "{opened}{condition}{closed}")?)
}

/// A condition of as many conjuncts as the product of these numbers, each of them the same.
fn conjunction(alloc: Global, each: &str, numbers: &[usize]) -> Result<String, Fail> {
    let mut whole = String::from_str(alloc, each)?;
    for times in numbers {
        whole = many(alloc, whole.as_str(), *times)?;
    }
    Ok(whole)
}

/// A file with a select of such a condition over a scan.
fn over_scan(alloc: Global, condition: &str) -> Result<String, Fail> {
    Ok(format!(in alloc;
        "(algebricks 1 (dataset t \"t.csv\" (a int)) (result ($a) (select {condition} (scan t ($a)))))"
    )?)
}

/// The same over an assign, below which each conjunct may go.
fn over_assign(alloc: Global, condition: &str) -> Result<String, Fail> {
    Ok(format!(in alloc;
        "(algebricks 1 (dataset t \"t.csv\" (a int)) (result ($a) (select {condition} (assign (($b 2)) (scan t ($a))))))"
    )?)
}

/// A file with a join on such a condition.
fn joined(alloc: Global, condition: &str) -> Result<String, Fail> {
    Ok(format!(in alloc;
        "(algebricks 1 (dataset t \"t.csv\" (a int)) (result ($a $b) (join {condition} (scan t ($a)) (scan t ($b)))))"
    )?)
}

/// The exit status of `explain`, and how many bytes it wrote.
fn explained(alloc: Global, file: &str) -> Result<(u8, usize), Fail> {
    let mut case = Case::of_plan("explain p", file);
    case.room = 20_000_000;
    let left = serve(alloc, &case)?;
    Ok((left.code, left.out.bytes().len()))
}

#[test]
fn explains_800_conjuncts(rt: HostRuntime) -> Result<(), Fail> {
    let alloc = rt.alloc();
    let condition = conjunction(alloc, "(eq $a 1)", &[20, 40])?;
    let file = over_scan(alloc, condition.as_str())?;
    let (code, written) = explained(alloc, file.as_str())?;
    assert_eq!(&rt; code, 0);
    assert!(&rt; written > 1_000_000);
    Ok(())
}

/// An operator for each conjunct goes below the assign.
#[test]
fn explains_400_conjuncts_over_an_assign(rt: HostRuntime) -> Result<(), Fail> {
    let alloc = rt.alloc();
    let condition = conjunction(alloc, "(eq $a 1)", &[20, 20])?;
    let file = over_assign(alloc, condition.as_str())?;
    let (code, _) = explained(alloc, file.as_str())?;
    assert_eq!(&rt; code, 0);
    Ok(())
}

/// Four operators and 1,196 conjuncts are as many as there may be.
#[test]
fn explains_at_most_1200_parts(rt: HostRuntime) -> Result<(), Fail> {
    let alloc = rt.alloc();
    let condition = conjunction(alloc, "(eq $a $b)", &[52, 23])?;
    let file = joined(alloc, condition.as_str())?;
    let (code, _) = explained(alloc, file.as_str())?;
    assert_eq!(&rt; code, 0);
    let condition = conjunction(alloc, "(eq $a $b)", &[57, 21])?;
    let file = joined(alloc, condition.as_str())?;
    let (code, written) = explained(alloc, file.as_str())?;
    assert_eq!(&rt; code, NO_MEMORY);
    assert_eq!(&rt; written, 0);
    Ok(())
}

/// So many conjuncts over a scan, and over an assign, are too many.
fn explains_none<R: Abort + AllocGlobal>(rt: &R, numbers: &[usize]) -> Result<(), Fail> {
    let alloc = rt.alloc();
    let condition = conjunction(alloc, "(eq $a 1)", numbers)?;
    let file = over_scan(alloc, condition.as_str())?;
    let (code, written) = explained(alloc, file.as_str())?;
    assert_eq!(rt; code, NO_MEMORY);
    assert_eq!(rt; written, 0);
    let file = over_assign(alloc, condition.as_str())?;
    let (code, written) = explained(alloc, file.as_str())?;
    assert_eq!(rt; code, NO_MEMORY);
    assert_eq!(rt; written, 0);
    Ok(())
}

#[test]
fn explains_no_4000_conjuncts(rt: HostRuntime) -> Result<(), Fail> {
    explains_none(&rt, &[20, 20, 10])
}

#[test]
fn explains_no_40000_conjuncts(rt: HostRuntime) -> Result<(), Fail> {
    explains_none(&rt, &[20, 20, 10, 10])
}

//! Canonical text.

use crate::texts::read;
use al_print::{print_plan, printing_laws};
use al_value::List;
use std::alloc::Global;
use std::process::Abort;
use std::str::from_utf8;
use std::test::Fail;

/// The canonical text of a plan text.
fn printed(alloc: Global, text: &str) -> Result<List<u8>, Fail> {
    let file = read(alloc, text.as_bytes())?;
    Ok(print_plan(alloc, file.get())?)
}

/// Compares the canonical text of a plan text, and that of the canonical text.
fn prints<R: Abort + AllocGlobal>(rt: &R, text: &str, expected: &str) -> Result<(), Fail> {
    let canonical = printed(rt.alloc(), text)?;
    assert!(rt; from_utf8(canonical.as_slice()) == Ok(expected));
    let again = printed(rt.alloc(), expected)?;
    assert!(rt; from_utf8(again.as_slice()) == Ok(expected));
    Ok(())
}

#[test]
fn prints_operators_and_escapes(rt: HostRuntime) -> Result<(), Fail> {
    prints(
        &rt,
        "(algebricks 1(dataset t\"t\\\"1.csv\"(a int)(b text))\n(result($g $s)(limit 00 9223372036854775807 ; all\n\
         (group(($g $a))(aggregate(($n(countall))($s(sum(neg $a))))(nested))\
         (unnest $w(split $b\"\\n\\\\\")(order(($b desc))(scan t($a $b))))))))",
        "(algebricks 1 (dataset t \"t\\\"1.csv\" (a int) (b text)) (result ($g $s) (limit 0 9223372036854775807 \
         (group (($g $a)) (aggregate (($n (countall)) ($s (sum (neg $a)))) (nested)) \
         (unnest $w (split $b \"\\n\\\\\") (order (($b desc)) (scan t ($a $b))))))))\n",
    )
}

#[test]
fn prints_numbers_and_empty_lists(rt: HostRuntime) -> Result<(), Fail> {
    prints(
        &rt,
        "(algebricks 01 (result ($x) (assign (($x -05) ($y -0) ($z true) ($u null)) (project () (empty)))))",
        "(algebricks 1 (result ($x) (assign (($x -5) ($y 0) ($z true) ($u null)) (project () (empty)))))\n",
    )
}

#[test]
fn calls_the_law(_rt: HostRuntime) -> Result<(), Fail> {
    printing_laws();
    Ok(())
}

//! Which files are accepted.

use crate::texts::read;
use al_infer::{AcceptRefused, accept, acceptance_laws};
use al_plan::{Refused, RefusedKind};
use std::alloc::Global;
use std::process::Abort;
use std::test::Fail;

/// Why a text is not accepted. The file that is handed back has to be that of the text.
fn refused<R: Abort>(rt: &R, alloc: Global, text: &[u8]) -> Result<Option<Refused>, Fail> {
    let again = read(alloc, text)?;
    match accept(alloc, read(alloc, text)?.into_inner()) {
        Ok(file) => {
            assert!(rt; file.file() == again.get());
            assert!(rt; file.into_file() == again.into_inner());
            Ok(None)
        }
        Err(AcceptRefused::Refused(back, refused)) => {
            assert!(rt; back == again.into_inner());
            Ok(Some(refused))
        }
        Err(AcceptRefused::NoMemory(back)) => {
            assert!(rt; back == again.into_inner());
            Err(Fail::from("no memory"))
        }
    }
}

/// Where an `@` stands.
fn place_of(text: &str) -> u32 {
    match u32::try_from(text.find('@').unwrap_or(0)) {
        Ok(place) => place,
        Err(_) => 0,
    }
}

/// Compares the fault of a text. An `@` stands in front of what is refused, and is left out.
fn compare<R: Abort + AllocGlobal>(
    rt: &R,
    text: &str,
    wanted: Option<RefusedKind>,
) -> Result<(), Fail> {
    let alloc = rt.alloc();
    let place = place_of(text);
    let plain = text.replace(alloc, "@", "")?;
    let told = refused(rt, alloc, plain.as_bytes())?;
    assert!(rt;
        told == wanted.map(|kind| Refused { kind, place }),
        "{text}"
    );
    Ok(())
}

/// Compares the fault of a plan over the datasets `t` with the column `a`, and `u` with `b` and `c`.
fn expect<R: Abort + AllocGlobal>(
    rt: &R,
    plan: &str,
    wanted: Option<RefusedKind>,
) -> Result<(), Fail> {
    let text = format!(in rt.alloc();
        "(algebricks 1 (dataset t \"t.csv\" (a int)) (dataset u \"t.csv\" (b int) (c int)) {plan})"
    )?;
    compare(rt, text.as_str(), wanted)
}

const ACCEPTED: [&str; 5] = [
    "(result ($a) (select (eq $a $a) (scan t ($a))))",
    "(result ($c $a) (join (eq $a $b) (scan t ($a)) (scan u ($b $c))))",
    "(result ($y $x) (union ($x $y) ($a $a) ($c $b) (scan t ($a)) (scan u ($b $c))))",
    "(result ($s $k) (order (($s desc)) (group (($k $b)) (aggregate (($s (sum $c))) (nested)) \
     (leftjoin (eq $a $b) (scan t ($a)) (scan u ($b $c))))))",
    "(result ($x $a) (check sane (eq $x $a) (limit 1 2 (unnest $x (range $a $a) (distinct (scan t ($a)))))))",
];

#[test]
fn accepts_good_files(rt: HostRuntime) -> Result<(), Fail> {
    acceptance_laws();
    for plan in ACCEPTED {
        expect(&rt, plan, None)?;
    }
    Ok(())
}

const NOT_LIVE: [&str; 6] = [
    "@(result ($a) (project () (scan t ($a))))",
    "@(result ($a) (aggregate (($s (sum $a))) (scan t ($a))))",
    "(result ($a) @(select (eq $a $z) (scan t ($a))))",
    // A side of a union.
    "(result ($x) @(union ($x) ($a) ($a) (scan t ($a)) (scan u ($b $c))))",
    // Keys are looked at in the input.
    "(result ($k) @(group (($k $s)) (aggregate (($s (sum $b))) (nested)) (scan u ($b $c))))",
    "(result ($a) @(order (($z desc)) (scan t ($a))))",
];

const MADE_TWICE: [&str; 6] = [
    "(result ($a) @(assign (($x 1) ($a 1)) (scan t ($a))))",
    "(result ($a) @(assign (($x 1) ($x 1)) (scan t ($a))))",
    "(result ($a) (join (eq $a $a) (scan t ($a)) @(scan t ($a))))",
    "(result ($a) @(project ($a $a) (scan t ($a))))",
    "@(result ($a $a) (scan t ($a)))",
    // Behind the input, where the variable is made first.
    "(result ($b) (subplan @(aggregate (($b (sum $b))) (nested)) (scan u ($b $c))))",
];

const NOT_IN_NESTED: [&str; 3] = [
    "(result ($a) (subplan (aggregate (($s (sum $b))) @(scan u ($b $c))) (scan t ($a))))",
    "(result ($a) @(nested))",
    // No aggregate is at the root of the nested plan.
    "(result ($k) @(group (($k $a)) (project ($a) (nested)) (scan t ($a))))",
];

#[test]
fn refuses_variables(rt: HostRuntime) -> Result<(), Fail> {
    for plan in NOT_LIVE {
        expect(&rt, plan, Some(RefusedKind::NotLive))?;
    }
    let unnest = "(result ($a) @(unnest $x (range $a $x) (scan t ($a))))";
    expect(&rt, unnest, Some(RefusedKind::NotLive))?;
    for plan in MADE_TWICE {
        expect(&rt, plan, Some(RefusedKind::TwiceMade))?;
    }
    Ok(())
}

const OTHER_FAULTS: [(RefusedKind, &str); 7] = [
    (
        RefusedKind::UnknownDataset,
        "(result ($a) @(scan none ($a $a)))",
    ),
    (RefusedKind::WrongArity, "(result ($b) @(scan u ($b)))"),
    (
        RefusedKind::WrongArity,
        "(result ($a) @(select (eq $z) (scan t ($a))))",
    ),
    (
        RefusedKind::UnionArity,
        "(result ($x) @(union ($x) ($a) ($b $c) (scan t ($a)) (scan u ($b $c))))",
    ),
    // The left fault comes first.
    (
        RefusedKind::WrongArity,
        "(result ($a) (join (eq $z $z) @(scan u ($b)) (scan none ($a))))",
    ),
    (
        RefusedKind::UnknownDataset,
        "(result ($a) (join (eq $z $z) (scan t ($b)) @(scan none ($a))))",
    ),
    // The input comes before the nested plan.
    (
        RefusedKind::WrongArity,
        "(result ($b) (subplan (aggregate (($s (sum $z))) (scan t ($a))) @(scan u ($b))))",
    ),
];

#[test]
fn refuses_operators(rt: HostRuntime) -> Result<(), Fail> {
    for plan in NOT_IN_NESTED {
        expect(&rt, plan, Some(RefusedKind::NotInNested))?;
    }
    for (kind, plan) in OTHER_FAULTS {
        expect(&rt, plan, Some(kind))?;
    }
    Ok(())
}

#[test]
fn tells_the_place_in_the_text(rt: HostRuntime) -> Result<(), Fail> {
    let text =
        b"(algebricks 1 (dataset t \"t.csv\" (a int)) (result ($a) (project () (scan t ($a)))))";
    let kind = RefusedKind::NotLive;
    let place = 42;
    assert!(rt; refused(&rt, rt.alloc(), text)? == Some(Refused { kind, place }));
    Ok(())
}

/// A piece for each number below this one, in which `N` stands for the number.
fn numbered(alloc: Global, count: u32, piece: &str) -> Result<String, Fail> {
    let mut text = String::new(alloc);
    for n in 0..count {
        let digits = n.to_string(alloc)?;
        let piece = piece.replace(alloc, "N", digits.as_str())?;
        text.push_str(piece.as_str())?;
    }
    Ok(text)
}

/// Compares the fault of an assign of so many variables beside another one.
fn assigns<R: Abort + AllocGlobal>(
    rt: &R,
    count: u32,
    wanted: Option<RefusedKind>,
) -> Result<(), Fail> {
    let made = numbered(rt.alloc(), count, "($vN 1)")?;
    let plan = format!(in rt.alloc(); "(result ($a) @(assign ({made}) (scan t ($a))))")?;
    expect(rt, plan.as_str(), wanted)
}

#[test]
fn counts_variables(rt: HostRuntime) -> Result<(), Fail> {
    assigns(&rt, 63, None)?;
    assigns(&rt, 64, Some(RefusedKind::TooWide))
}

#[test]
fn refuses_datasets(rt: HostRuntime) -> Result<(), Fail> {
    let alloc = rt.alloc();
    let twice =
        "(algebricks 1 (dataset t \"t.csv\" (a int)) (dataset u \"t.csv\" (a int)) @(dataset t \"t.csv\" (b int)) \
         (result ($a) (scan none ($a))))";
    compare(&rt, twice, Some(RefusedKind::TwiceMade))?;
    let most = numbered(alloc, 64, "(vN int)")?;
    let over = numbered(alloc, 65, "(vN int)")?;
    let wide = format!(in alloc;
        "(algebricks 1 (dataset t \"t.csv\" {most}) @(dataset u \"t.csv\" {over}) (result ($a) (scan none ($a))))"
    )?;
    compare(&rt, wide.as_str(), Some(RefusedKind::TooWide))
}

#[test]
fn accepts_256_operators(rt: HostRuntime) -> Result<(), Fail> {
    let alloc = rt.alloc();
    // Four operators in each piece, three behind them, and the result.
    let front = numbered(alloc, 63, "(join true (distinct (distinct (empty))) ")?;
    let back = numbered(alloc, 63, ")")?;
    let plan = format!(in alloc; "(result ($a) {front}(distinct (distinct (scan t ($a)))){back})")?;
    expect(&rt, plan.as_str(), None)
}

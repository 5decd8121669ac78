use crate::texts::read;
use al_csv::{Column, Decl, Kind};
use al_func::Func;
use al_plan::{Expr, OrderKey, Plan, PlanFile, Refused, RefusedKind, Var};
use al_read::{ReadRefused, one_plan_reading, read_plan};
use al_value::{Boxed, List, Name, NoMemory, Value};
use std::alloc::Global;
use std::process::Abort;
use std::test::Fail;

const SMALL: &[u8; 83] =
    b"(algebricks 1 (dataset t \"t.csv\" (a int)) (result ($a) (project () (scan t ($a)))))";

fn assert_refused(
    rt: &impl Abort,
    read: Result<PlanFile, ReadRefused>,
    kind: RefusedKind,
    place: u32,
) -> Result<(), Fail> {
    match read {
        Ok(_) => assert!(rt; false),
        Err(refused) => {
            assert_eq!(rt; refused, ReadRefused::Refused(Refused { kind, place }));
        }
    }
    Ok(())
}

fn var(alloc: Global, name: &str) -> Result<Var, NoMemory> {
    Ok(Var {
        name: Name::new(alloc, name)?,
    })
}

fn vars(alloc: Global, name: &str) -> Result<List<Var>, NoMemory> {
    let mut vars = List::new(alloc);
    vars.push(var(alloc, name)?)?;
    Ok(vars)
}

/// The result of `$a` over this plan.
fn root(alloc: Global, input: Plan) -> Result<Plan, NoMemory> {
    Ok(Plan::Result {
        vars: vars(alloc, "a")?,
        input: Boxed::new(alloc, input)?,
    })
}

/// A text with `piece` so many times between the others.
fn repeated(
    alloc: Global,
    front: &[u8],
    piece: &[u8],
    times: usize,
    back: &[u8],
) -> Result<Vec<u8>, Fail> {
    let mut text = Vec::new(alloc);
    text.extend_from_slice(front)?;
    for _i in 0..times {
        text.extend_from_slice(piece)?;
    }
    text.extend_from_slice(back)?;
    Ok(text)
}

#[test]
fn reads_a_file(rt: HostRuntime) -> Result<(), Fail> {
    let alloc = rt.alloc();
    let file = read_plan(alloc, SMALL)?;
    assert_eq!(&rt; file.version, 1);
    assert_eq!(&rt; file.dataset_places.as_slice().len(), 1);
    assert_eq!(&rt; file.dataset_places.as_slice()[0], 14);
    assert_eq!(&rt; file.places.as_slice().len(), 3);
    assert_eq!(&rt; file.places.as_slice()[0], 42);
    assert_eq!(&rt; file.places.as_slice()[1], 55);
    assert_eq!(&rt; file.places.as_slice()[2], 67);
    let mut columns = List::new(alloc);
    columns.push(Column {
        name: Name::new(alloc, "a")?,
        kind: Kind::Int,
    })?;
    let dataset = Decl {
        name: Name::new(alloc, "t")?,
        file: Name::new(alloc, "t.csv")?,
        columns,
    };
    assert_eq!(&rt; file.datasets.as_slice().len(), 1);
    assert!(&rt; file.datasets.as_slice()[0] == dataset);
    let scan = Plan::Scan {
        set: Name::new(alloc, "t")?,
        vars: vars(alloc, "a")?,
    };
    let project = Plan::Project {
        vars: List::new(alloc),
        input: Boxed::new(alloc, scan)?,
    };
    assert!(&rt; file.root == root(alloc, project)?);
    one_plan_reading();
    Ok(())
}

#[test]
fn refuses_each_beginning(rt: HostRuntime) -> Result<(), Fail> {
    for n in 0..SMALL.len() {
        match read_plan(rt.alloc(), &SMALL[..n]) {
            Ok(_) => assert!(&rt; false),
            Err(refused) => assert!(&rt; refused != ReadRefused::NoMemory),
        }
    }
    Ok(())
}

#[test]
fn reads_items_in_their_order(rt: HostRuntime) -> Result<(), Fail> {
    let alloc = rt.alloc();
    let text =
        b"(algebricks 01 (result ($a) (order (($b desc) ($a asc)) (join (not null) (empty) (nested)))))";
    let file = read_plan(alloc, text)?;
    let mut args = List::new(alloc);
    args.push(Expr::Lit(Value::Null))?;
    let join = Plan::Join {
        cond: Expr::Call(Func::Not, args),
        left: Boxed::new(alloc, Plan::Empty)?,
        right: Boxed::new(alloc, Plan::Nested)?,
    };
    let mut keys = List::new(alloc);
    keys.push(OrderKey {
        var: var(alloc, "b")?,
        descending: true,
    })?;
    keys.push(OrderKey {
        var: var(alloc, "a")?,
        descending: false,
    })?;
    let order = Plan::Order {
        keys,
        input: Boxed::new(alloc, join)?,
    };
    assert_eq!(&rt; file.version, 1);
    assert!(&rt; file.root == root(alloc, order)?);
    Ok(())
}

#[test]
fn reads_a_nested_plan_first(rt: HostRuntime) -> Result<(), Fail> {
    let alloc = rt.alloc();
    let text = b"(algebricks 1 (result ($a) (group (($a $b)) (nested) (limit -0 7 (empty)))))";
    let file = read_plan(alloc, text)?;
    let limit = Plan::Limit {
        n: 0,
        k: 7,
        input: Boxed::new(alloc, Plan::Empty)?,
    };
    let mut keys = List::new(alloc);
    keys.push((var(alloc, "a")?, var(alloc, "b")?))?;
    let group = Plan::Group {
        keys,
        nested: Boxed::new(alloc, Plan::Nested)?,
        input: Boxed::new(alloc, limit)?,
    };
    assert!(&rt; file.root == root(alloc, group)?);
    Ok(())
}

#[test]
fn refuses_at_the_first_wrong_token(rt: HostRuntime) -> Result<(), Fail> {
    let rows: [(&[u8], RefusedKind, u32); 16] = [
        (b"", RefusedKind::Form, 0),
        (
            b"(algebricks 1 (dataset t \"t.csv\" (a int)) (result ($b",
            RefusedKind::Form,
            53,
        ),
        (
            b"(algebricks 1 (result ($a) (empty))) x",
            RefusedKind::Form,
            37,
        ),
        (b"(algebricks 1 (result () (empty)))", RefusedKind::Form, 23),
        (b"(algebricks 1 (empty))", RefusedKind::Form, 15),
        (
            b"(algebricks 1 (result ($a) (result ($a) (empty))))",
            RefusedKind::Form,
            28,
        ),
        (
            b"(algebricks 1 (result ($a) (check \"c\" true (empty))))",
            RefusedKind::Form,
            34,
        ),
        (b"(algebricks 1 (dataset t \"a\\q\"", RefusedKind::Token, 25),
        (b"(algebricks 1 \xff", RefusedKind::Utf8, 14),
        (
            b"(algebricks 3 (result ($a) (empty)))",
            RefusedKind::Number,
            12,
        ),
        (
            b"(algebricks -1 (result ($a) (empty)))",
            RefusedKind::Number,
            12,
        ),
        (
            b"(algebricks 1 (result ($a) (limit -1 0 (empty))))",
            RefusedKind::Number,
            34,
        ),
        (
            b"(algebricks 1 (result ($a) (limit 0 9223372036854775808 (empty))))",
            RefusedKind::Number,
            36,
        ),
        (
            b"(algebricks 1 (result ($a) (select 9223372036854775808 (empty))))",
            RefusedKind::Number,
            35,
        ),
        (
            b"(algebricks 1 (result ($a) 9223372036854775808",
            RefusedKind::Form,
            27,
        ),
        (b"((", RefusedKind::Form, 1),
    ];
    for (text, kind, place) in rows {
        assert_refused(&rt, read_plan(rt.alloc(), text), kind, place)?;
    }
    Ok(())
}

#[test]
fn reads_the_least_int(rt: HostRuntime) -> Result<(), Fail> {
    let text = b"(algebricks 1 (result ($a) (select -9223372036854775808 (empty))))";
    assert_eq!(&rt; operators(rt.alloc(), text)?, 3);
    Ok(())
}

const FRONT: &[u8; 35] = b"(algebricks 1 (result ($a) (select ";

#[test]
fn refuses_what_opens_too_deep(rt: HostRuntime) -> Result<(), Fail> {
    // Three parentheses are open behind the front, and one more behind each piece. The last text
    // couldn't go on so either.
    let rows: [(usize, &[u8], RefusedKind, u32); 3] = [
        (97, b"", RefusedKind::Form, 520),
        (98, b"", RefusedKind::TooDeep, 520),
        (96, b"((", RefusedKind::TooDeep, 516),
    ];
    for (times, back, kind, place) in rows {
        let text = repeated(rt.alloc(), FRONT, b"(not ", times, back)?;
        assert_refused(&rt, read_plan(rt.alloc(), &text), kind, place)?;
    }
    Ok(())
}

/// How many operators the plan of a text has.
fn operators(alloc: Global, text: &[u8]) -> Result<usize, Fail> {
    let file = read(alloc, text)?;
    Ok(file.get().places.len())
}

#[test]
fn reads_what_opens_so_deep(rt: HostRuntime) -> Result<(), Fail> {
    let alloc = rt.alloc();
    let depth = repeated(alloc, FRONT, b"(not ", 97, b"null")?;
    let whole = repeated(alloc, &depth, b")", 97, b" (empty))))")?;
    assert_eq!(&rt; operators(alloc, &whole)?, 3);
    Ok(())
}

/// The text of a result over 63 joins, with this piece innermost.
fn joins(alloc: Global, inner: &[u8]) -> Result<Vec<u8>, Fail> {
    // One operator in front, and four in each piece.
    let piece = b"(join true (distinct (distinct (empty))) ";
    repeated(alloc, b"(algebricks 1 (result ($a) ", piece, 63, inner)
}

#[test]
fn reads_256_operators(rt: HostRuntime) -> Result<(), Fail> {
    let alloc = rt.alloc();
    let most = joins(alloc, b"(distinct (distinct (empty)))")?;
    let most = repeated(alloc, &most, b")", 65, b"")?;
    assert_eq!(&rt; operators(alloc, &most)?, 256);
    Ok(())
}

#[test]
fn refuses_what_is_too_large(rt: HostRuntime) -> Result<(), Fail> {
    let alloc = rt.alloc();
    let over = joins(alloc, b"(distinct (distinct (distinct (")?;
    assert_refused(&rt, read_plan(alloc, &over), RefusedKind::TooLarge, 2640)?;
    let long = repeated(alloc, b"", b" ", 1_048_577, b"")?;
    assert_refused(
        &rt,
        read_plan(alloc, &long),
        RefusedKind::TooLarge,
        1_048_576,
    )
}

//! Joins of small rows, by hash and pair by pair.
ghost use Rattle.std.specs.Prelude.{IfOk};
ghost use Rattle.al_func.specs.Rex.{IsSound};

use crate::answers::{plain_rows, shown};
use al_func::{Func, Rex};
use al_value::{List, NoMemory, Value};
use hy_join::join_cases;
use hy_test_runs::{Table, join_of, joined};
use std::alloc::Global;
use std::test::Fail;

/// More turns than any of these runs takes.
const TURNS: u64 = 200;

/// The left rows `1,1`, `-,2`, `2,3`, `2,4` and `9,5`.
const LEFT: &str =
    "(assign (($a (if (eq $b 1) 1 (if (eq $b 2) null (if (eq $b 5) 9 2))))) (unnest $b (range 1 5) (empty)))";

/// The right rows `1,1`, `2,2`, `-,3`, `2,4`, `7,5` and `2,6`.
const RIGHT: &str =
    "(assign (($c (if (eq $d 1) 1 (if (eq $d 3) null (if (eq $d 5) 7 2))))) (unnest $d (range 1 6) (empty)))";

/// No right rows.
const NONE: &str = "(select false (assign (($c 1)) (unnest $d (range 1 6) (empty))))";

/// What is asked beside equal keys: nothing, or that the left row's second value is less than the
/// right row's, or greater.
#[derive(Clone, Copy)]
enum Beside {
    Nothing,
    Less,
    Greater,
}

/// Whether the left row's second value is less than the right row's.
#[tactic(auto, using(al_func::proofs::RexLaws::is_sound_laws))]
fn less(alloc: Global) -> Result<Rex, NoMemory>
    ensures { IfOk result (λ e. IsSound 4 e) }
{
    let mut args = List::new(alloc);
    args.push(Rex::Col(1))?;
    args.push(Rex::Col(3))?;
    Ok(Rex::Call(Func::Lt, args))
}

/// Whether it is greater.
#[tactic(auto, using(al_func::proofs::RexLaws::is_sound_laws))]
fn greater(alloc: Global) -> Result<Rex, NoMemory>
    ensures { IfOk result (λ e. IsSound 4 e) }
{
    let mut args = List::new(alloc);
    args.push(Rex::Col(3))?;
    args.push(Rex::Col(1))?;
    Ok(Rex::Call(Func::Lt, args))
}

/// It as an expression over joined rows.
#[tactic(auto, using(al_func::proofs::RexLaws::is_sound_laws))]
fn rest(alloc: Global, beside: Beside) -> Result<Rex, NoMemory>
    ensures { IfOk result (λ e. IsSound 4 e) }
{
    match beside {
        Beside::Nothing => Ok(Rex::Lit(Value::Bool(true))),
        Beside::Less => less(alloc),
        Beside::Greater => greater(alloc),
    }
}

/// The rows that the drivers join, as text.
fn answer(
    alloc: Global,
    keyed: bool,
    beside: Beside,
    outer: bool,
    right: &str,
) -> Result<String, Fail> {
    let lefts = plain_rows(alloc, format!(in alloc; "($a $b) {LEFT}")?.as_str())?;
    let rights = plain_rows(alloc, format!(in alloc; "($c $d) {right}")?.as_str())?;
    let arg = join_of(alloc, keyed, rest(alloc, beside)?, outer)?;
    let mut rows = List::new(alloc);
    let left = Table::of(lefts.as_slice());
    let right = Table::of(rights.as_slice());
    joined(alloc, arg, left, right, &mut rows, TURNS)?;
    shown(alloc, 4, rows)
}

/// The rows that the plain evaluator joins, as text.
fn plain_answer(alloc: Global, cond: &str, outer: bool, right: &str) -> Result<String, Fail> {
    let operator = if outer { "leftjoin" } else { "join" };
    let plan = format!(in alloc; "($a $b $c $d) ({operator} {cond} {LEFT} {right})")?;
    let rows = plain_rows(alloc, plan.as_str())?;
    shown(alloc, 4, rows)
}

/// Whether a join is on its rows' first values, what it asks beside that, its condition as text,
/// whether left rows without a partner are kept, the right rows, and the joined rows.
const JOINS: [(bool, Beside, &str, bool, &str, &str); 11] = [
    (
        true,
        Beside::Nothing,
        "(eq $a $c)",
        false,
        RIGHT,
        "1,1,1,1;2,3,2,2;2,3,2,4;2,3,2,6;2,4,2,2;2,4,2,4;2,4,2,6",
    ),
    (
        true,
        Beside::Nothing,
        "(eq $a $c)",
        true,
        RIGHT,
        "-,2,-,-;1,1,1,1;2,3,2,2;2,3,2,4;2,3,2,6;2,4,2,2;2,4,2,4;2,4,2,6;9,5,-,-",
    ),
    (
        true,
        Beside::Less,
        "(and (eq $a $c) (lt $b $d))",
        false,
        RIGHT,
        "2,3,2,4;2,3,2,6;2,4,2,6",
    ),
    (
        true,
        Beside::Less,
        "(and (eq $a $c) (lt $b $d))",
        true,
        RIGHT,
        "-,2,-,-;1,1,-,-;2,3,2,4;2,3,2,6;2,4,2,6;9,5,-,-",
    ),
    (
        true,
        Beside::Greater,
        "(and (eq $a $c) (lt $d $b))",
        true,
        RIGHT,
        "-,2,-,-;1,1,-,-;2,3,2,2;2,4,2,2;9,5,-,-",
    ),
    (
        false,
        Beside::Less,
        "(lt $b $d)",
        false,
        RIGHT,
        "-,2,-,3;-,2,2,4;-,2,2,6;-,2,7,5;1,1,-,3;1,1,2,2;1,1,2,4;1,1,2,6;1,1,7,5;2,3,2,4;2,3,2,6;2,3,7,5;2,4,2,6;2,4,7,5;9,5,2,6",
    ),
    (
        false,
        Beside::Greater,
        "(lt $d $b)",
        true,
        RIGHT,
        "-,2,1,1;1,1,-,-;2,3,1,1;2,3,2,2;2,4,-,3;2,4,1,1;2,4,2,2;9,5,-,3;9,5,1,1;9,5,2,2;9,5,2,4",
    ),
    (
        true,
        Beside::Nothing,
        "(eq $a $c)",
        true,
        NONE,
        "-,2,-,-;1,1,-,-;2,3,-,-;2,4,-,-;9,5,-,-",
    ),
    (true, Beside::Nothing, "(eq $a $c)", false, NONE, ""),
    (
        false,
        Beside::Nothing,
        "true",
        true,
        NONE,
        "-,2,-,-;1,1,-,-;2,3,-,-;2,4,-,-;9,5,-,-",
    ),
    (false, Beside::Nothing, "true", false, NONE, ""),
];

#[test]
fn rows_are_joined(rt: HostRuntime) -> Result<(), Fail> {
    let alloc = rt.alloc();
    for (keyed, beside, cond, outer, right, wanted) in JOINS {
        assert_eq!(rt;
            answer(alloc, keyed, beside, outer, right)?.as_str(),
            wanted
        );
        assert_eq!(rt; plain_answer(alloc, cond, outer, right)?.as_str(), wanted);
    }
    Ok(())
}

#[test]
fn cases_are_called() {
    join_cases();
}

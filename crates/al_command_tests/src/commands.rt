use crate::case::{Case, expect, serve};
use std::process::Abort;
use std::test::Fail;

const USAGE: &str = "usage: algebricks COMMAND ARGUMENTS [OPTIONS]\n";

fn is_usage<R: Abort + AllocGlobal>(rt: &R, words: &str) -> Result<(), Fail> {
    expect(rt, &Case::of_words(words), 1, "", USAGE)
}

#[test]
fn refuses_words(rt: HostRuntime) -> Result<(), Fail> {
    is_usage(&rt, "step")?;
    is_usage(&rt, "step p --memory 2")?;
    is_usage(&rt, "check p --workers 2")?;
    is_usage(&rt, "--help")
}

#[test]
fn serves_some_commands_later(rt: HostRuntime) -> Result<(), Fail> {
    is_usage(&rt, "run p")?;
    is_usage(&rt, "frames p t")?;
    is_usage(&rt, "drill 1 1 p")
}

#[test]
fn prints_plans(rt: HostRuntime) -> Result<(), Fail> {
    let text =
        "(algebricks 01 (dataset t \"t.csv\" (a int)) ; a comment\n(result ($a)\n (limit 007 -0 (scan t ( $a )))))";
    let printed =
        "(algebricks 1 (dataset t \"t.csv\" (a int)) (result ($a) (limit 7 0 (scan t ($a)))))\n";
    expect(&rt, &Case::of_plan("check p", text), 0, printed, "")?;
    expect(&rt, &Case::of_plan("check p", printed), 0, printed, "")
}

#[test]
fn generates_data(rt: HostRuntime) -> Result<(), Fail> {
    let case = Case::of_words("gen 7 0");
    expect(&rt, &case, 0, "id,grp,val,tag\n", "")
}

fn refuses_a_plan<R: Abort + AllocGlobal>(rt: &R, words: &str) -> Result<(), Fail> {
    let absent = "plan refused: Absent at 0\n";
    expect(rt, &Case::of_words(words), 2, "", absent)?;
    let plan =
        "(algebricks 1 (dataset t \"t.csv\" (a int)) (result ($a) (project () (scan t ($a)))))";
    let refused = "plan refused: NotLive at 42\n";
    expect(rt, &Case::of_plan(words, plan), 2, "", refused)?;
    let cut = "(algebricks 1 (dataset t \"t.csv\" (a int)) (result ($b";
    let short = "plan refused: Form at 53\n";
    expect(rt, &Case::of_plan(words, cut), 2, "", short)
}

#[test]
fn refuses_plans(rt: HostRuntime) -> Result<(), Fail> {
    refuses_a_plan(&rt, "step p")?;
    refuses_a_plan(&rt, "plain p")?;
    refuses_a_plan(&rt, "check p")
}

const TEXTS: &str = "(algebricks 1 (dataset t \"t.csv\" (a text)) (result ($a) (scan t ($a))))";

#[test]
fn tells_faults(rt: HostRuntime) -> Result<(), Fail> {
    let mut case = Case::over("step p", TEXTS, "a\nx\ny\n");
    case.room = 3;
    expect(&rt, &case, 6, "a\nx", "sink fault\n")?;
    case.room = 100;
    // Each of the source's calls fails in turn, until a run makes fewer calls.
    for number in 0..6 {
        case.failing = Some(number);
        expect(&rt, &case, 5, "", "source fault\n")?;
    }
    case.failing = Some(6);
    expect(&rt, &case, 0, "a\nx\ny\n", "")
}

#[test]
fn check_opens_no_dataset(rt: HostRuntime) -> Result<(), Fail> {
    // The plan file takes three calls.
    let mut case = Case::over("check p", TEXTS, "a\nx\n");
    case.failing = Some(3);
    let left = serve(rt.alloc(), &case)?;
    assert_eq!(rt; left.code, 0);
    Ok(())
}

//! What a command is given and what it leaves.

use al_io::{MemSink, MemSource};
use al_query::{Status, plain_command};
use std::alloc::Global;
use std::process::Abort;
use std::test::Fail;

pub const EMP: &str = "id,name,dept,pay\n1,Ann,X,10\n2,Bob,Y,20\n3,Cy,X,\n4,Di,,5\n";

/// What a command is given: its words with a space between them, the files `p`, `t.csv`,
/// `emp.csv` and `dept.csv` where they are there, the source's call that fails, and the room of
/// `out`.
#[derive(Clone, Copy)]
pub struct Case<'a> {
    pub words: &'a str,
    pub plan: Option<&'a str>,
    pub data: Option<&'a str>,
    pub emp: Option<&'a str>,
    pub dept: Option<&'a str>,
    pub failing: Option<u64>,
    pub room: usize,
}

impl<'a> Case<'a> {
    pub fn of_words(words: &'a str) -> Case<'a> {
        Case {
            words,
            plan: None,
            data: None,
            emp: None,
            dept: None,
            failing: None,
            room: 100_000,
        }
    }

    pub fn of_plan(words: &'a str, plan: &'a str) -> Case<'a> {
        Case {
            words,
            plan: Some(plan),
            data: None,
            emp: None,
            dept: None,
            failing: None,
            room: 100_000,
        }
    }

    /// A plan over `t.csv`.
    pub fn over(words: &'a str, plan: &'a str, data: &'a str) -> Case<'a> {
        Case {
            words,
            plan: Some(plan),
            data: Some(data),
            emp: None,
            dept: None,
            failing: None,
            room: 100_000,
        }
    }

    /// A plan over `emp.csv` and `dept.csv`.
    pub fn over_emp(
        words: &'a str,
        plan: &'a str,
        emp: &'a str,
        dept: Option<&'a str>,
    ) -> Case<'a> {
        Case {
            words,
            plan: Some(plan),
            data: None,
            emp: Some(emp),
            dept,
            failing: None,
            room: 100_000,
        }
    }
}

/// What a command left: its exit status, and what `out` and `err` gained.
#[derive(Drop)]
pub struct Left {
    pub code: u8,
    pub out: MemSink,
    pub err: MemSink,
}

fn source_of(alloc: Global, case: &Case) -> Result<MemSource, Fail> {
    let mut source = MemSource::new(alloc);
    if let Some(plan) = case.plan {
        source.add_file("p", plan.as_bytes())?;
    }
    if let Some(data) = case.data {
        source.add_file("t.csv", data.as_bytes())?;
    }
    if let Some(emp) = case.emp {
        source.add_file("emp.csv", emp.as_bytes())?;
    }
    if let Some(dept) = case.dept {
        source.add_file("dept.csv", dept.as_bytes())?;
    }
    if let Some(number) = case.failing {
        source.fail_call(number)?;
    }
    Ok(source)
}

fn words_of(alloc: Global, line: &str) -> Result<Vec<String>, Fail> {
    let mut words = Vec::new(alloc);
    for word in line.split(' ') {
        words.push(String::from_str(alloc, word)?)?;
    }
    Ok(words)
}

/// Serves a case.
pub fn serve(alloc: Global, case: &Case) -> Result<Left, Fail> {
    let words = words_of(alloc, case.words)?;
    let mut source = source_of(alloc, case)?;
    let mut out = MemSink::new(alloc, case.room)?;
    let mut err = MemSink::new(alloc, 200)?;
    let status: Status = plain_command(alloc, words.as_slice(), &mut source, &mut out, &mut err);
    let code = status.code();
    Ok(Left { code, out, err })
}

/// Serves a case, and compares what it left.
pub fn expect<R: Abort + AllocGlobal>(
    rt: &R,
    case: &Case,
    code: u8,
    out_text: &str,
    err_text: &str,
) -> Result<(), Fail> {
    let left = serve(rt.alloc(), case)?;
    assert_eq!(rt; left.err.bytes(), err_text.as_bytes());
    assert_eq!(rt; left.out.bytes(), out_text.as_bytes());
    assert_eq!(rt; left.code, code);
    Ok(())
}

use al_io::{MemSink, MemSource};
use al_query::{Status, compile, plain_command};
use std::alloc::Global;
use std::process::Abort;
use std::test::Fail;

const EMP: &str = "id,name,dept,pay\n1,Ann,X,10\n2,Bob,Y,20\n3,Cy,X,7\n";

/// `select sum(pay) from emp where dept = 'DEPARTMENT'`.
#[derive(Clone, Copy)]
struct Question<'a> {
    department: &'a str,
}

impl<'a> Question<'a> {
    /// The question as a plan. A department with a quote would have to be escaped.
    fn plan(&self, alloc: Global) -> Result<String, Fail> {
        let mut text = String::from_str(
            alloc,
            "(algebricks 1 (dataset emp \"emp.csv\" (id int) (name text) (dept text) (pay int)) ",
        )?;
        text.push_str("(result ($s) (aggregate (($s (sum $pay))) (select (eq $dept \"")?;
        text.push_str(self.department)?;
        text.push_str("\") (scan emp ($id $name $dept $pay))))))")?;
        Ok(text)
    }
}

/// The answer as CSV, or the status that says why there is none.
fn answer(alloc: Global, plan: &str) -> Result<(Status, MemSink), Fail> {
    let mut source = MemSource::new(alloc);
    source.add_file("question.plan", plan.as_bytes())?;
    source.add_file("emp.csv", EMP.as_bytes())?;
    let mut words = Vec::new(alloc);
    words.push(String::from_str(alloc, "plain")?)?;
    words.push(String::from_str(alloc, "question.plan")?)?;
    let mut out = MemSink::new(alloc, 1_000)?;
    let mut err = MemSink::new(alloc, 200)?;
    let status = plain_command(alloc, words.as_slice(), &mut source, &mut out, &mut err);
    Ok((status, out))
}

/// Why the plan is refused, as a user may be told; nothing where it isn't.
fn refusal(alloc: Global, plan: &str) -> Result<String, Fail> {
    match compile(alloc, plan.as_bytes(), 4) {
        Err(fault) => Ok(fault.to_string(alloc)?),
        Ok(_) => Ok(String::new(alloc)),
    }
}

#[test]
fn a_question_is_answered(rt: HostRuntime) -> Result<(), Fail> {
    let question = Question { department: "X" };
    let plan = question.plan(rt.alloc())?;
    let (status, out) = answer(rt.alloc(), plan.as_str())?;
    assert_eq!(&rt; status.code(), 0);
    assert_eq!(&rt; out.bytes(), "s\n17\n".as_bytes());
    Ok(())
}

#[test]
fn a_question_becomes_a_job(rt: HostRuntime) -> Result<(), Fail> {
    let plan = Question { department: "Y" }.plan(rt.alloc())?;
    has_no_block(&rt, rt.alloc(), plan.as_str())
}

/// On 4 partitions no activity of the plan's job has to end before another begins: the parts of the sum
/// are summed up as they come.
fn has_no_block(rt: &impl Abort, alloc: Global, plan: &str) -> Result<(), Fail> {
    match compile(alloc, plan.as_bytes(), 4) {
        Ok(compiled) => {
            assert_eq!(rt; compiled.job.blocks.len(), 0);
            Ok(())
        }
        Err(_) => {
            assert!(rt; false);
            Ok(())
        }
    }
}

#[test]
fn a_department_that_ends_its_quote_is_refused(rt: HostRuntime) -> Result<(), Fail> {
    let plan = Question {
        department: "X\" \"Y",
    }
    .plan(rt.alloc())?;
    let (status, out) = answer(rt.alloc(), plan.as_str())?;
    assert_eq!(&rt; status.code(), 2);
    assert!(&rt; out.bytes().is_empty());
    // the byte is that of the select, whose `eq` has three arguments
    assert_eq!(&rt;
        refusal(rt.alloc(), plan.as_str())?.as_str(),
        "plan refused: WrongArity at 123"
    );
    Ok(())
}

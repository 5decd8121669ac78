//! The jobs of physical plans.

use crate::texts::job;
use al_func::{Func, Rex};
use al_jobgen::{column_laws, literal_cases};
use al_value::{Boxed, List, Name, NoMemory, SortKey, Text, Value};
use hy_job::{Activity, Block, Edge, Job, JoinArg, Kind, Wire};
use std::alloc::Global;
use std::test::Fail;

/// The job of a plan over these datasets, for so many partitions.
fn job_over(
    alloc: Global,
    datasets: &str,
    plan: &str,
    partitions: u32,
) -> Result<Boxed<Job>, Fail> {
    let text = format!(in alloc; "(algebricks 1 {datasets} (result {plan}))")?;
    job(alloc, text.as_str(), partitions)
}

fn rex_call(alloc: Global, f: Func, first: Rex, second: Rex) -> Result<Rex, NoMemory> {
    let args = vec![in alloc; first, second]?;
    Ok(Rex::Call(f, List::from_vec(args)))
}

fn columns(alloc: Global, columns: &[u32]) -> Result<List<u32>, NoMemory> {
    Ok(List::from_vec(columns.to_vec(alloc)?))
}

fn by_first(alloc: Global) -> Result<List<SortKey>, NoMemory> {
    let first = SortKey {
        column: 0,
        descending: false,
    };
    Ok(List::from_vec(vec![in alloc; first]?))
}

fn scan(alloc: Global, set: &str) -> Result<Kind, NoMemory> {
    let set = Name::new(alloc, set)?;
    Ok(Kind::Scan { set })
}

fn projected(alloc: Global, kept: &[u32]) -> Result<Kind, NoMemory> {
    let columns = columns(alloc, kept)?;
    Ok(Kind::Project { columns })
}

fn listed(alloc: Global, kept: &[u32]) -> Result<Kind, NoMemory> {
    let columns = columns(alloc, kept)?;
    Ok(Kind::Result { columns })
}

fn activity(number: u32, kind: Kind, arity: u32) -> Activity {
    Activity {
        number,
        kind,
        arity,
    }
}

/// An edge into the first input.
fn edge(from: u32, to: u32, wire: Wire) -> Edge {
    Edge {
        from,
        to,
        input: 0,
        wire,
    }
}

/// `(eq COLUMN-1 "X")`
fn is_text(alloc: Global) -> Result<Kind, Fail> {
    let text = Rex::Lit(Value::Text(Text::new(alloc, "X")?));
    let cond = rex_call(alloc, Func::Eq, Rex::Col(1), text)?;
    Ok(Kind::Select { cond })
}

fn selecting(alloc: Global) -> Result<List<Activity>, Fail> {
    let mut activities = List::new(alloc);
    activities.push(activity(0, scan(alloc, "emp")?, 4))?;
    activities.push(activity(1, projected(alloc, &[0, 2])?, 2))?;
    activities.push(activity(2, is_text(alloc)?, 2))?;
    activities.push(activity(3, projected(alloc, &[0])?, 1))?;
    activities.push(activity(4, listed(alloc, &[0])?, 1))?;
    Ok(activities)
}

#[test]
fn gathers_what_is_selected(rt: HostRuntime) -> Result<(), Fail> {
    let alloc = rt.alloc();
    let edges = vec![in alloc;
        edge(0, 1, Wire::OneToOne),
        edge(1, 2, Wire::OneToOne),
        edge(2, 3, Wire::OneToOne),
        edge(3, 4, Wire::Gather),
    ]?;
    let expected = Job {
        activities: selecting(alloc)?,
        edges: List::from_vec(edges),
        blocks: List::new(alloc),
        partitions: 4,
    };
    let emp = "(dataset emp \"emp.csv\" (id int) (name text) (dept text) (pay int))";
    let plan =
        "($id) (project ($id) (select (eq $dept \"X\") (project ($id $dept) (scan emp ($id $name $dept $pay)))))";
    assert_eq!(rt; *job_over(alloc, emp, plan, 4)?.get(), expected);
    Ok(())
}

fn sorting(alloc: Global) -> Result<List<Activity>, Fail> {
    let mut activities = List::new(alloc);
    activities.push(activity(0, scan(alloc, "t")?, 1))?;
    activities.push(activity(1, Kind::SortBuild(by_first(alloc)?), 1))?;
    activities.push(activity(2, Kind::SortEmit(by_first(alloc)?), 1))?;
    activities.push(activity(3, listed(alloc, &[0])?, 1))?;
    Ok(activities)
}

fn block(alloc: Global, before: u32, after: u32) -> Result<List<Block>, NoMemory> {
    Ok(List::from_vec(vec![in alloc; Block { before, after }]?))
}

#[test]
fn merges_what_is_sorted(rt: HostRuntime) -> Result<(), Fail> {
    let alloc = rt.alloc();
    let merge = Wire::Merge(by_first(alloc)?);
    let edges = vec![in alloc; edge(0, 1, Wire::OneToOne), edge(2, 3, merge)]?;
    let expected = Job {
        activities: sorting(alloc)?,
        edges: List::from_vec(edges),
        blocks: block(alloc, 1, 2)?,
        partitions: 4,
    };
    let t = "(dataset t \"t.csv\" (a int))";
    let plan = "($a) (order (($a asc)) (scan t ($a)))";
    assert_eq!(rt; *job_over(alloc, t, plan, 4)?.get(), expected);
    Ok(())
}

fn join_arg(alloc: Global) -> Result<JoinArg, NoMemory> {
    Ok(JoinArg {
        left: columns(alloc, &[0])?,
        right: columns(alloc, &[1])?,
        rest: rex_call(alloc, Func::Lt, Rex::Col(1), Rex::Col(2))?,
        outer: false,
    })
}

fn joining(alloc: Global) -> Result<List<Activity>, Fail> {
    let mut activities = List::new(alloc);
    activities.push(activity(0, scan(alloc, "t")?, 2))?;
    activities.push(activity(1, scan(alloc, "u")?, 2))?;
    activities.push(activity(2, Kind::JoinBuild(join_arg(alloc)?), 2))?;
    activities.push(activity(3, Kind::JoinProbe(join_arg(alloc)?), 4))?;
    activities.push(activity(4, listed(alloc, &[0, 1, 2, 3])?, 4))?;
    Ok(activities)
}

// The right rows go into the build, which the probe waits for.
#[test]
fn hashes_both_sides_of_a_join(rt: HostRuntime) -> Result<(), Fail> {
    let alloc = rt.alloc();
    let second = Wire::Hash(columns(alloc, &[1])?);
    let first = Wire::Hash(columns(alloc, &[0])?);
    let edges = vec![in alloc;
        edge(1, 2, second),
        edge(0, 3, first),
        edge(3, 4, Wire::Gather),
    ]?;
    let expected = Job {
        activities: joining(alloc)?,
        edges: List::from_vec(edges),
        blocks: block(alloc, 2, 3)?,
        partitions: 3,
    };
    let both = "(dataset t \"t.csv\" (a int) (b int)) (dataset u \"u.csv\" (c int) (d int))";
    let plan = "($a $b $c $d) (join (and (eq $d $a) (lt $b $c)) (scan t ($a $b)) (scan u ($c $d)))";
    assert_eq!(rt; *job_over(alloc, both, plan, 3)?.get(), expected);
    Ok(())
}

#[test]
fn calls_the_laws() {
    column_laws();
    literal_cases();
}

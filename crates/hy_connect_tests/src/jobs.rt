//! Two small jobs of two partitions.
ghost use Rattle.std.specs.Prelude.{◌≡◌, [], ◌∷◌, IfOk};
ghost use Rattle.hy_job.specs.Cases as cases;
ghost use Rattle.hy_job.specs.Sound.{SoundJob};

use al_func::Rex;
use al_value::{Boxed, List, Name, NoMemory, SortKey};
use hy_job::{Activity, AggRex, Block, Edge, GroupArg, Job, Kind, NestedPlan, Wire, job_cases};
use std::alloc::Global;

/// The first column, upwards.
fn by_first(alloc: Global) -> Result<List<SortKey>, NoMemory>
    ensures { IfOk result (λ keys. keys ≡ cases.by_first) }
{
    let mut keys = List::new(alloc);
    keys.push(SortKey {
        column: 0,
        descending: false,
    })?;
    Ok(keys)
}

/// The first column alone.
fn first_column(alloc: Global) -> Result<List<u32>, NoMemory>
    ensures { IfOk result (λ columns. columns ≡ 0 ∷ []) }
{
    let mut columns = List::new(alloc);
    columns.push(0)?;
    Ok(columns)
}

/// Three columns.
fn three_columns(alloc: Global) -> Result<List<u32>, NoMemory>
    ensures { IfOk result (λ columns. columns ≡ 0 ∷ 1 ∷ 2 ∷ []) }
{
    let mut columns = first_column(alloc)?;
    columns.push(1)?;
    columns.push(2)?;
    Ok(columns)
}

/// Four activities, each with the number of values of its rows.
fn four(
    alloc: Global,
    first: (Kind, u32),
    second: (Kind, u32),
    third: (Kind, u32),
    fourth: (Kind, u32),
) -> Result<List<Activity>, NoMemory>
    ensures { IfOk result (λ list. list ≡ cases.act 0 first.0 first.1 ∷ cases.act 1 second.0 second.1 ∷ cases.act 2 third.0 third.1 ∷ cases.act 3 fourth.0 fourth.1 ∷ []) }
{
    let mut list = List::new(alloc);
    list.push(activity(0, first))?;
    list.push(activity(1, second))?;
    list.push(activity(2, third))?;
    list.push(activity(3, fourth))?;
    Ok(list)
}

fn activity(number: u32, what: (Kind, u32)) -> Activity
    ensures { result ≡ cases.act number what.0 what.1 }
{
    let (kind, arity) = what;
    Activity {
        number,
        kind,
        arity,
    }
}

/// The first activity feeds the second, and the third the fourth.
fn two_edges(alloc: Global, first: Wire, second: Wire) -> Result<List<Edge>, NoMemory>
    ensures { IfOk result (λ edges. edges ≡ cases.wire 0 1 first ∷ cases.wire 2 3 second ∷ []) }
{
    let mut edges = List::new(alloc);
    edges.push(edge(0, 1, first))?;
    edges.push(edge(2, 3, second))?;
    Ok(edges)
}

fn edge(from: u32, to: u32, wire: Wire) -> Edge
    ensures { result ≡ cases.wire from to wire }
{
    Edge {
        from,
        to,
        input: 0,
        wire,
    }
}

/// Such a job, whose third activity waits for the second.
fn job(alloc: Global, activities: List<Activity>, edges: List<Edge>) -> Result<Job, NoMemory>
    ensures { IfOk result (λ job. job ≡ record { activities = activities; edges = edges; blocks = cases.block 1 2 ∷ []; partitions = 2 }) }
{
    let mut blocks = List::new(alloc);
    blocks.push(Block {
        before: 1,
        after: 2,
    })?;
    Ok(Job {
        activities,
        edges,
        blocks,
        partitions: 2,
    })
}

fn sort_activities(alloc: Global, set: Name) -> Result<List<Activity>, NoMemory>
    ensures { IfOk result (λ list. list ≡ (cases.sorting set []).activities) }
{
    let build = Kind::SortBuild(by_first(alloc)?);
    let emit = Kind::SortEmit(by_first(alloc)?);
    let columns = first_column(alloc)?;
    four(
        alloc,
        (Kind::Scan { set }, 1),
        (build, 1),
        (emit, 1),
        (Kind::Result { columns }, 1),
    )
}

/// Rows of one column are scanned, sorted and merged for the result.
pub(crate) fn sorting(alloc: Global) -> Result<Job, NoMemory>
    ensures { IfOk result SoundJob }
{
    job_cases();
    let activities = sort_activities(alloc, Name::new(alloc, "t")?)?;
    let merge = Wire::Merge(by_first(alloc)?);
    let edges = two_edges(alloc, Wire::OneToOne, merge)?;
    job(alloc, activities, edges)
}

/// The number of rows, and the sum of the second column.
fn counting(alloc: Global) -> Result<NestedPlan, NoMemory>
    ensures { IfOk result (λ plan. plan ≡ cases.counting) }
{
    let mut made = List::new(alloc);
    made.push(AggRex::CountAll)?;
    made.push(AggRex::Sum(Rex::Col(1)))?;
    let input = Boxed::new(alloc, NestedPlan::Nested)?;
    Ok(NestedPlan::Aggregate { made, input })
}

fn by_value(alloc: Global) -> Result<GroupArg, NoMemory>
    ensures { IfOk result (λ arg. arg ≡ cases.by_value) }
{
    let keys = first_column(alloc)?;
    let nested = counting(alloc)?;
    Ok(GroupArg {
        keys,
        nested: Some(nested),
    })
}

fn group_activities(alloc: Global, set: Name) -> Result<List<Activity>, NoMemory>
    ensures { IfOk result (λ list. list ≡ (cases.grouping set 6 3).activities) }
{
    let build = Kind::GroupBuild(by_value(alloc)?);
    let emit = Kind::GroupEmit(by_value(alloc)?);
    let columns = three_columns(alloc)?;
    four(
        alloc,
        (Kind::Scan { set }, 2),
        (build, 6),
        (emit, 3),
        (Kind::Result { columns }, 3),
    )
}

fn group_edges(alloc: Global) -> Result<List<Edge>, NoMemory>
    ensures { IfOk result (λ edges. edges ≡ (cases.grouping [] 6 3).edges) }
{
    let split = Wire::Hash(first_column(alloc)?);
    two_edges(alloc, split, Wire::Gather)
}

/// Rows of two columns are scanned, split by the hash of the first one, grouped by it, and gathered for the result.
pub(crate) fn grouping(alloc: Global) -> Result<Job, NoMemory>
    ensures { IfOk result SoundJob }
{
    job_cases();
    let activities = group_activities(alloc, Name::new(alloc, "t")?)?;
    let edges = group_edges(alloc)?;
    job(alloc, activities, edges)
}

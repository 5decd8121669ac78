use crate::nested::{AggRex, GenRex, NestedPlan};
use al_agg::Agg;
use al_func::Rex;
use al_value::{List, Name, SortKey, Text};

/// What a hash group or a hash distinct works by: the columns of its keys, and the nested plan,
/// which a distinct lacks. A distinct has all columns as keys.
#[derive(Debug, PartialEq, Drop)]
pub struct GroupArg {
    pub keys: List<u32>,
    pub nested: Option<NestedPlan>,
}

/// What a join works by: the key columns of the left and of the right row, place by place, the
/// rest of its condition over the columns of the joined row, and whether left rows without a
/// partner are kept. A loop join has no keys.
#[derive(Debug, PartialEq, Drop)]
pub struct JoinArg {
    pub left: List<u32>,
    pub right: List<u32>,
    pub rest: Rex,
    pub outer: bool,
}

/// What an activity does. New values stand behind those of the row, and a joined row has the left
/// values and then the right ones.
#[derive(Debug, PartialEq, Drop)]
pub enum Kind {
    Scan { set: Name },
    /// One row without values, in the first partition.
    One,
    Assign { made: List<Rex> },
    Select { cond: Rex },
    Project { columns: List<u32> },
    Unnest { items: GenRex },
    Subplan { nested: NestedPlan },
    Check { name: Text, cond: Rex },
    Union { left: List<u32>, right: List<u32> },
    Limit { n: u64, k: u64 },
    LocalLimit { n: u64 },
    PreGroup { keys: List<u32>, nested: NestedPlan },
    Result { columns: List<u32> },
    SortBuild(List<SortKey>),
    SortEmit(List<SortKey>),
    GroupBuild(GroupArg),
    GroupEmit(GroupArg),
    JoinBuild(JoinArg),
    JoinProbe(JoinArg),
    /// One row of partial states.
    AggPart { made: List<AggRex> },
    /// The values of joined partial states.
    AggFinal { made: List<Agg> },
}

/// An activity: its number, which is its place in the job's list, what it does, and the number of
/// values of the rows that it puts or hands on.
#[derive(Debug, PartialEq, Drop)]
pub struct Activity {
    pub number: u32,
    pub kind: Kind,
    pub arity: u32,
}

/// How rows go from the tasks of one activity to those of another.
#[derive(Debug, PartialEq, Drop)]
pub enum Wire {
    /// To the same partition.
    OneToOne,
    /// To the partition that the hash of these columns names.
    Hash(List<u32>),
    /// To every partition.
    Broadcast,
    /// To the first partition.
    Gather,
    /// To the first partition, in the order of these keys where the rows of each sender are.
    Merge(List<SortKey>),
}

/// A wire between two activities, and the number of the input that it feeds.
#[derive(Debug, PartialEq, Drop)]
pub struct Edge {
    pub from: u32,
    pub to: u32,
    pub input: u32,
    pub wire: Wire,
}

/// The activity `after` begins when `before` has ended.
#[derive(Debug, PartialEq, Eq, Clone, Copy)]
pub struct Block {
    pub before: u32,
    pub after: u32,
}

/// A job: its activities by number, its edges by the activity that they end in and then by input,
/// its blocks, and the number of partitions, in each of which every activity has a task.
#[derive(Debug, PartialEq, Drop)]
pub struct Job {
    pub activities: List<Activity>,
    pub edges: List<Edge>,
    pub blocks: List<Block>,
    pub partitions: u32,
}

/// The activities that run at the same time, by their numbers, in order.
#[derive(Debug, PartialEq, Drop)]
pub struct Stage {
    pub activities: List<u32>,
}

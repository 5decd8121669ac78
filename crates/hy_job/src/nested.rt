use al_func::Rex;
use al_value::{Boxed, List, SortKey};

/// A call of an aggregate over columns.
#[derive(Debug, PartialEq, Drop)]
pub enum AggRex {
    CountAll,
    Count(Rex),
    Sum(Rex),
    Min(Rex),
    Max(Rex),
}

/// A generator over columns.
#[derive(Debug, PartialEq, Drop)]
pub enum GenRex {
    Range(Rex, Rex),
    Split(Rex, Rex),
}

/// A nested plan over columns. New values stand behind those of the row.
#[derive(Debug, PartialEq, Drop)]
pub enum NestedPlan {
    /// The outer row of a subplan, or the rows of a group.
    Nested,
    Assign {
        made: List<Rex>,
        input: Boxed<NestedPlan>,
    },
    Select {
        cond: Rex,
        input: Boxed<NestedPlan>,
    },
    Project {
        columns: List<u32>,
        input: Boxed<NestedPlan>,
    },
    Unnest {
        items: GenRex,
        input: Boxed<NestedPlan>,
    },
    Order {
        keys: List<SortKey>,
        input: Boxed<NestedPlan>,
    },
    Distinct {
        input: Boxed<NestedPlan>,
    },
    Limit {
        n: u64,
        k: u64,
        input: Boxed<NestedPlan>,
    },
    Aggregate {
        made: List<AggRex>,
        input: Boxed<NestedPlan>,
    },
}

use al_plan::{AggCall, Expr, Generator, OrderKey, Plan, Var};
use al_value::{Boxed, List, Name, Text};

/// How a join is computed: by the hash of its keys, or by going through all pairs.
#[derive(Clone, Copy, Debug, PartialEq, Eq)]
pub enum JoinForm {
    HashJoin,
    HashLeftJoin,
    LoopJoin,
    LoopLeftJoin,
}

/// A physical plan: operators over variables whose rows stand in parts, and the exchanges that
/// move rows from part to part. Each of `keys` in a group pairs a new variable with the one whose
/// values it takes.
#[derive(Debug, PartialEq, Drop)]
pub enum Phys {
    Scan {
        set: Name,
        vars: List<Var>,
    },
    /// One row without variables.
    One,
    Assign {
        made: List<(Var, Expr)>,
        input: Boxed<Phys>,
    },
    Select {
        cond: Expr,
        input: Boxed<Phys>,
    },
    Project {
        vars: List<Var>,
        input: Boxed<Phys>,
    },
    Unnest {
        var: Var,
        items: Generator,
        input: Boxed<Phys>,
    },
    Subplan {
        nested: Plan,
        input: Boxed<Phys>,
    },
    Check {
        name: Text,
        cond: Expr,
        input: Boxed<Phys>,
    },
    Join {
        form: JoinForm,
        cond: Expr,
        left: Boxed<Phys>,
        right: Boxed<Phys>,
    },
    HashGroup {
        keys: List<(Var, Var)>,
        nested: Plan,
        input: Boxed<Phys>,
    },
    /// Groups rows of equal keys that stand behind one another.
    PreGroup {
        keys: List<(Var, Var)>,
        nested: Plan,
        input: Boxed<Phys>,
    },
    HashDistinct {
        input: Boxed<Phys>,
    },
    /// Makes one row of partial states in each part.
    AggPart {
        made: List<(Var, AggCall)>,
        input: Boxed<Phys>,
    },
    /// Joins the partial states of the first part, and finishes them.
    AggFinal {
        made: List<(Var, AggCall)>,
        input: Boxed<Phys>,
    },
    Union {
        made: List<Var>,
        left_vars: List<Var>,
        right_vars: List<Var>,
        left: Boxed<Phys>,
        right: Boxed<Phys>,
    },
    /// Sorts each part.
    Sort {
        keys: List<OrderKey>,
        input: Boxed<Phys>,
    },
    Limit {
        n: u64,
        k: u64,
        input: Boxed<Phys>,
    },
    /// Cuts each part to its first `n` rows.
    LocalLimit {
        n: u64,
        input: Boxed<Phys>,
    },
    Result {
        vars: List<Var>,
        input: Boxed<Phys>,
    },
    HashExchange {
        vars: List<Var>,
        input: Boxed<Phys>,
    },
    Broadcast {
        input: Boxed<Phys>,
    },
    Gather {
        input: Boxed<Phys>,
    },
    /// Gathers sorted parts into one that is sorted.
    Merge {
        keys: List<OrderKey>,
        input: Boxed<Phys>,
    },
}

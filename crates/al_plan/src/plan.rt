use crate::expr::{Expr, Var};
use al_value::{Boxed, List, Name, Text};

/// A variable by which rows are ordered.
#[derive(Debug, PartialEq, Drop)]
pub struct OrderKey {
    pub var: Var,
    pub descending: bool,
}

/// A call of an aggregate over the rows of an input.
#[derive(Debug, PartialEq, Drop)]
pub enum AggCall {
    CountAll,
    Count(Expr),
    Sum(Expr),
    Min(Expr),
    Max(Expr),
}

/// What an `unnest` makes of a row: the ints from one number to another, or the pieces of a text
/// between the occurrences of another.
#[derive(Debug, PartialEq, Drop)]
pub enum Generator {
    Range(Expr, Expr),
    Split(Expr, Expr),
}

/// A logical plan, in the sense of Algebricks (Borkar et al., SoCC 2015): a tree of operators
/// over variables. Each of `keys` pairs a new variable with the one whose values it takes.
#[derive(Debug, PartialEq, Drop)]
pub enum Plan {
    Scan {
        set: Name,
        vars: List<Var>,
    },
    Empty,
    Nested,
    Assign {
        made: List<(Var, Expr)>,
        input: Boxed<Plan>,
    },
    Select {
        cond: Expr,
        input: Boxed<Plan>,
    },
    Project {
        vars: List<Var>,
        input: Boxed<Plan>,
    },
    Unnest {
        var: Var,
        items: Generator,
        input: Boxed<Plan>,
    },
    Subplan {
        nested: Boxed<Plan>,
        input: Boxed<Plan>,
    },
    Join {
        cond: Expr,
        left: Boxed<Plan>,
        right: Boxed<Plan>,
    },
    LeftJoin {
        cond: Expr,
        left: Boxed<Plan>,
        right: Boxed<Plan>,
    },
    Group {
        keys: List<(Var, Var)>,
        nested: Boxed<Plan>,
        input: Boxed<Plan>,
    },
    Distinct {
        input: Boxed<Plan>,
    },
    Union {
        made: List<Var>,
        left_vars: List<Var>,
        right_vars: List<Var>,
        left: Boxed<Plan>,
        right: Boxed<Plan>,
    },
    Aggregate {
        made: List<(Var, AggCall)>,
        input: Boxed<Plan>,
    },
    Order {
        keys: List<OrderKey>,
        input: Boxed<Plan>,
    },
    Limit {
        n: u64,
        k: u64,
        input: Boxed<Plan>,
    },
    Check {
        name: Text,
        cond: Expr,
        input: Boxed<Plan>,
    },
    Result {
        vars: List<Var>,
        input: Boxed<Plan>,
    },
}

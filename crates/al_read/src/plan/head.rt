//! Operators without their inputs.

ghost use Rattle.std.specs.Prelude.{◌≡◌, IfOk};
ghost use Rattle.al_read.specs.PlanReading as reading;

use super::items::filled;
use super::reader::{Reader, Stopped};
use super::words::{LeafOp, OneOp, Op, TwoOp};
use al_plan::{AggCall, Expr, Generator, OrderKey, Plan, Var};
use al_value::{Boxed, List, Name, NoMemory, Text};
use std::alloc::Global;

/// An operator without inputs.
#[derive(Drop)]
pub enum Leaf {
    Scan(Name, List<Var>),
    Empty,
    Nested,
}

/// What an operator over one input holds beside it.
#[derive(Drop)]
pub enum One {
    Assign(List<(Var, Expr)>),
    Select(Expr),
    Project(List<Var>),
    Unnest(Var, Generator),
    Distinct,
    Aggregate(List<(Var, AggCall)>),
    Order(List<OrderKey>),
    Limit(u64, u64),
    Check(Text, Expr),
}

/// What an operator over two inputs holds beside them.
#[derive(Drop)]
pub enum Two {
    Subplan,
    Join(Expr),
    LeftJoin(Expr),
    Group(List<(Var, Var)>),
    Union(List<Var>, List<Var>, List<Var>),
}

/// An operator without its inputs.
#[derive(Drop)]
pub enum Head {
    Leaf(Leaf),
    One(One),
    Two(Two),
}

impl Leaf {
    pub fn plan(self) -> Plan
        ensures { result ≡ reading.plan_of self }
    {
        match self {
            Leaf::Scan(set, vars) => Plan::Scan { set, vars },
            Leaf::Empty => Plan::Empty,
            Leaf::Nested => Plan::Nested,
        }
    }
}

impl One {
    fn over_boxed(self, input: Boxed<Plan>) -> Plan
        ensures { result ≡ reading.over self input }
    {
        match self {
            One::Assign(made) => Plan::Assign { made, input },
            One::Select(cond) => Plan::Select { cond, input },
            One::Project(vars) => Plan::Project { vars, input },
            One::Unnest(var, items) => Plan::Unnest { var, items, input },
            One::Distinct => Plan::Distinct { input },
            One::Aggregate(made) => Plan::Aggregate { made, input },
            One::Order(keys) => Plan::Order { keys, input },
            One::Limit(n, k) => Plan::Limit { n, k, input },
            One::Check(name, cond) => Plan::Check { name, cond, input },
        }
    }

    pub fn over(self, alloc: Global, input: Boxed<Plan>) -> Result<Boxed<Plan>, NoMemory>
        ensures { IfOk result (λ p. p ≡ reading.over self input) }
    {
        Boxed::new(alloc, self.over_boxed(input))
    }
}

impl Two {
    /// Over the input that is written first, and the other.
    fn over_boxed(self, first: Boxed<Plan>, second: Boxed<Plan>) -> Plan
        ensures { result ≡ reading.over_both self first second }
    {
        match self {
            Two::Subplan => Plan::Subplan {
                nested: first,
                input: second,
            },
            Two::Join(cond) => Plan::Join {
                cond,
                left: first,
                right: second,
            },
            Two::LeftJoin(cond) => Plan::LeftJoin {
                cond,
                left: first,
                right: second,
            },
            Two::Group(keys) => Plan::Group {
                keys,
                nested: first,
                input: second,
            },
            Two::Union(made, left_vars, right_vars) => Plan::Union {
                made,
                left_vars,
                right_vars,
                left: first,
                right: second,
            },
        }
    }

    /// Over the input that is written first, and the other.
    pub fn over(
        self,
        alloc: Global,
        first: Boxed<Plan>,
        second: Boxed<Plan>,
    ) -> Result<Boxed<Plan>, NoMemory>
        ensures { IfOk result (λ p. p ≡ reading.over_both self first second) }
    {
        Boxed::new(alloc, self.over_boxed(first, second))
    }
}

impl<'a> Reader<'a> {
    #[tactic(auto, unfolding(crate::specs::PlanReading::scan_args_at))]
    fn scan_args(&mut self) -> Result<Head, Stopped>
        ensures { reading.Gives result self.new (reading.scan_args_at (reading.state self.old)) }
    {
        let set = self.name()?;
        let vars = self.variables()?;
        Ok(Head::Leaf(Leaf::Scan(set, vars)))
    }

    #[tactic(auto, unfolding(crate::specs::PlanReading::assign_args_at))]
    fn assign_args(&mut self, levels: usize) -> Result<Head, Stopped>
        ensures { reading.Gives result self.new (reading.assign_args_at levels (reading.state self.old)) }
    {
        self.open()?;
        let made = filled(self, levels)?;
        Ok(Head::One(One::Assign(made)))
    }

    #[tactic(auto, unfolding(crate::specs::PlanReading::unnest_args_at))]
    fn unnest_args(&mut self, levels: usize) -> Result<Head, Stopped>
        ensures { reading.Gives result self.new (reading.unnest_args_at levels (reading.state self.old)) }
    {
        let var = self.variable()?;
        let items = self.generator(levels)?;
        Ok(Head::One(One::Unnest(var, items)))
    }

    #[tactic(auto, unfolding(crate::specs::PlanReading::aggregate_args_at))]
    fn aggregate_args(&mut self, levels: usize) -> Result<Head, Stopped>
        ensures { reading.Gives result self.new (reading.aggregate_args_at levels (reading.state self.old)) }
    {
        self.open()?;
        let made = filled(self, levels)?;
        Ok(Head::One(One::Aggregate(made)))
    }

    #[tactic(auto, unfolding(crate::specs::PlanReading::order_args_at))]
    fn order_args(&mut self) -> Result<Head, Stopped>
        ensures { reading.Gives result self.new (reading.order_args_at (reading.state self.old)) }
    {
        self.open()?;
        let keys = filled(self, 0)?;
        Ok(Head::One(One::Order(keys)))
    }

    #[tactic(auto, unfolding(crate::specs::PlanReading::limit_args_at))]
    fn limit_args(&mut self) -> Result<Head, Stopped>
        ensures { reading.Gives result self.new (reading.limit_args_at (reading.state self.old)) }
    {
        let n = self.count()?;
        let k = self.count()?;
        Ok(Head::One(One::Limit(n, k)))
    }

    #[tactic(auto, unfolding(crate::specs::PlanReading::check_args_at))]
    fn check_args(&mut self, levels: usize) -> Result<Head, Stopped>
        ensures { reading.Gives result self.new (reading.check_args_at levels (reading.state self.old)) }
    {
        let name = self.text()?;
        let cond = self.expr(levels)?;
        Ok(Head::One(One::Check(name, cond)))
    }

    #[tactic(auto, unfolding(crate::specs::PlanReading::group_args_at))]
    fn group_args(&mut self) -> Result<Head, Stopped>
        ensures { reading.Gives result self.new (reading.group_args_at (reading.state self.old)) }
    {
        self.open()?;
        let keys = filled(self, 0)?;
        Ok(Head::Two(Two::Group(keys)))
    }

    #[tactic(auto, unfolding(crate::specs::PlanReading::union_args_at))]
    fn union_args(&mut self) -> Result<Head, Stopped>
        ensures { reading.Gives result self.new (reading.union_args_at (reading.state self.old)) }
    {
        let made = self.variables()?;
        let left = self.variables()?;
        let right = self.variables()?;
        Ok(Head::Two(Two::Union(made, left, right)))
    }

    #[tactic(auto, unfolding(crate::specs::PlanReading::leaf_args_at))]
    fn leaf_args(&mut self, op: LeafOp) -> Result<Head, Stopped>
        ensures { reading.Gives result self.new (reading.leaf_args_at op (reading.state self.old)) }
    {
        match op {
            LeafOp::Scan => self.scan_args(),
            LeafOp::Empty => Ok(Head::Leaf(Leaf::Empty)),
            LeafOp::Nested => Ok(Head::Leaf(Leaf::Nested)),
        }
    }

    #[tactic(auto, unfolding(crate::specs::PlanReading::one_args_at))]
    fn one_args(&mut self, levels: usize, op: OneOp) -> Result<Head, Stopped>
        ensures { reading.Gives result self.new (reading.one_args_at levels op (reading.state self.old)) }
    {
        match op {
            OneOp::Assign => self.assign_args(levels),
            OneOp::Select => Ok(Head::One(One::Select(self.expr(levels)?))),
            OneOp::Project => Ok(Head::One(One::Project(self.variables()?))),
            OneOp::Unnest => self.unnest_args(levels),
            OneOp::Distinct => Ok(Head::One(One::Distinct)),
            OneOp::Aggregate => self.aggregate_args(levels),
            OneOp::Order => self.order_args(),
            OneOp::Limit => self.limit_args(),
            OneOp::Check => self.check_args(levels),
        }
    }

    #[tactic(auto, unfolding(crate::specs::PlanReading::two_args_at))]
    fn two_args(&mut self, levels: usize, op: TwoOp) -> Result<Head, Stopped>
        ensures { reading.Gives result self.new (reading.two_args_at levels op (reading.state self.old)) }
    {
        match op {
            TwoOp::Subplan => Ok(Head::Two(Two::Subplan)),
            TwoOp::Join => Ok(Head::Two(Two::Join(self.expr(levels)?))),
            TwoOp::LeftJoin => Ok(Head::Two(Two::LeftJoin(self.expr(levels)?))),
            TwoOp::Group => self.group_args(),
            TwoOp::Union => self.union_args(),
        }
    }

    #[tactic(auto, unfolding(crate::specs::PlanReading::args_at))]
    fn op_args(&mut self, levels: usize, op: Op) -> Result<Head, Stopped>
        ensures { reading.Gives result self.new (reading.args_at levels op (reading.state self.old)) }
    {
        match op {
            Op::Leaf(op) => self.leaf_args(op),
            Op::One(op) => self.one_args(levels, op),
            Op::Two(op) => self.two_args(levels, op),
        }
    }

    /// An operator's name, and what it holds beside its inputs.
    #[tactic(auto, unfolding(crate::specs::PlanReading::head_at))]
    pub fn head(&mut self, levels: usize) -> Result<Head, Stopped>
        ensures { reading.Gives result self.new (reading.head_at levels (reading.state self.old)) }
    {
        let op = self.op()?;
        self.op_args(levels, op)
    }
}

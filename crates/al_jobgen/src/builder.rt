//! The lists of a job while it is built.

ghost use Rattle.std.specs.Prelude.{◌≡◌, ◌+◌, [], ◌∷◌, IfOk, OnOk, length};
ghost use Rattle.al_phys.specs.declared.phys.Phys.{out-Phys};
ghost use Rattle.al_jobgen.specs.Added.{Added, AddedBoth, AddedOver, AddedPlan, AddedSource, EndsAt, both_edges, edge_of, over_edges, own_blocks, own_of};
ghost use Rattle.al_jobgen.specs.JobOf.{block_at, wire_step};
ghost use Rattle.al_jobgen.specs.Literals.{HaveValueLiterals};

use crate::columns::number;
use crate::inputs::{Inputs, inputs_of};
use crate::operators::{count_of, next, put_own, wire_of};
use al_phys::Phys;
use al_value::{List, NoMemory};
use hy_job::{Activity, Block, Edge, Wire};
use std::alloc::Global;

/// The lists of a job: those of the operators that have been gone through.
#[derive(Drop)]
pub struct Builder {
    pub activities: List<Activity>,
    pub edges: List<Edge>,
    pub blocks: List<Block>,
}

/// Where the rows of a plan come from: the number of its last activity, and the wire by which they
/// go on.
#[derive(Drop)]
pub struct Tail {
    pub last: u32,
    pub wire: Wire,
}

impl Builder {
    /// An edge into the next activity.
    fn edge(&mut self, tail: Tail, input: u32) -> Result<(), NoMemory>
        ensures { OnOk result (Added self.old self.new [] (edge_of tail (length self.old.activities) input ∷ []) []) }
    {
        let to = number(self.activities.len())?;
        self.edges.push(Edge {
            from: tail.last,
            to,
            input,
            wire: tail.wire,
        })
    }

    /// An edge into the activity behind the next one.
    fn edge_behind(&mut self, tail: Tail, input: u32) -> Result<(), NoMemory>
        ensures { OnOk result (Added self.old self.new [] (edge_of tail (length self.old.activities + 1) input ∷ []) []) }
    {
        let to = next(number(self.activities.len())?)?;
        self.edges.push(Edge {
            from: tail.last,
            to,
            input,
            wire: tail.wire,
        })
    }

    /// The block between the two activities of an operator that has two.
    fn own_block(&mut self, count: u32) -> Result<(), NoMemory>
        ensures { OnOk result (Added self.old self.new [] [] (own_blocks (length self.old.activities) count)) }
    {
        if count < 2 {
            return Ok(());
        }
        let before = number(self.activities.len())?;
        let after = next(before)?;
        self.blocks.push(Block { before, after })
    }

    /// The edge from an input; an exchange has none of its own.
    fn over_edge(&mut self, input: Tail, count: u32) -> Result<(), NoMemory>
        ensures { OnOk result (Added self.old self.new [] (over_edges input (length self.old.activities) count) []) }
    {
        if count == 0 {
            return Ok(());
        }
        self.edge(input, 0)
    }

    /// The edges from two inputs: a union takes both, and of a join the first activity takes the
    /// right one and the second the left one.
    fn both_edges(&mut self, left: Tail, right: Tail, count: u32) -> Result<(), NoMemory>
        ensures { OnOk result (Added self.old self.new [] (both_edges left right (length self.old.activities) count) []) }
    {
        if count < 2 {
            self.edge(left, 0)?;
            self.edge(right, 1)
        } else {
            self.edge(right, 0)?;
            self.edge_behind(left, 0)
        }
    }

    /// The activities of an operator.
    fn steps(&mut self, alloc: Global, p: &Phys) -> Result<(), NoMemory>
        ensures is { OnOk result (Added self.old self.new (own_of p.now) [] []) }
        ensures values { OnOk result (HaveValueLiterals self.old.activities → HaveValueLiterals self.new.activities) }
    {
        let first = number(self.activities.len())?;
        put_own(alloc, &mut self.activities, first, p)
    }

    /// The last activity, and how the rows of a plan go on.
    fn end(&self, alloc: Global, p: &Phys) -> Result<Tail, NoMemory>
        ensures { IfOk result (EndsAt self.now (wire_step (out-Phys p.now))) }
    {
        let last = number(self.activities.len().saturating_sub(1))?;
        let wire = wire_of(alloc, p)?;
        Ok(Tail { last, wire })
    }

    /// An operator without inputs.
    fn source(&mut self, alloc: Global, p: &Phys) -> Result<Tail, NoMemory>
        ensures is { IfOk result (AddedSource self.old self.new (own_of p.now) (wire_step (out-Phys p.now))) }
        ensures values { OnOk result (HaveValueLiterals self.old.activities → HaveValueLiterals self.new.activities) }
    {
        self.steps(alloc, p)?;
        self.end(alloc, p)
    }

    /// An operator over one input.
    fn over(&mut self, alloc: Global, input: Tail, p: &Phys) -> Result<Tail, NoMemory>
        ensures is { IfOk result (AddedOver self.old self.new input (own_of p.now) (wire_step (out-Phys p.now))) }
        ensures values { OnOk result (HaveValueLiterals self.old.activities → HaveValueLiterals self.new.activities) }
    {
        let count = count_of(p);
        self.over_edge(input, count)?;
        self.own_block(count)?;
        self.steps(alloc, p)?;
        self.end(alloc, p)
    }

    /// An operator over two inputs.
    fn both(&mut self, alloc: Global, left: Tail, right: Tail, p: &Phys) -> Result<Tail, NoMemory>
        ensures is { IfOk result (AddedBoth self.old self.new left right (own_of p.now) (wire_step (out-Phys p.now))) }
        ensures values { OnOk result (HaveValueLiterals self.old.activities → HaveValueLiterals self.new.activities) }
    {
        let count = count_of(p);
        self.both_edges(left, right, count)?;
        self.own_block(count)?;
        self.steps(alloc, p)?;
        self.end(alloc, p)
    }
}

/// Adds the operators of a physical plan, each behind its inputs.
pub fn add(alloc: Global, builder: &mut Builder, p: &Phys) -> Result<Tail, NoMemory>
    ensures is { IfOk result (AddedPlan builder.old builder.new p.now) }
    ensures values { OnOk result (HaveValueLiterals builder.old.activities → HaveValueLiterals builder.new.activities) }
{
    match inputs_of(p) {
        Inputs::None => builder.source(alloc, p),
        Inputs::One(input) => {
            let tail = add(alloc, builder, input)?;
            builder.over(alloc, tail, p)
        }
        Inputs::Two(left, right) => {
            let first = add(alloc, builder, left)?;
            let second = add(alloc, builder, right)?;
            builder.both(alloc, first, second, p)
        }
    }
}

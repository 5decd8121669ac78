//! Plans and files.

ghost use Rattle.std.specs.Prelude.{◌≡◌, ◌++◌, IfOk};
ghost use Rattle.al_plan.specs.declared.plan.Plan.TheVariants as P;
ghost use Rattle.al_read.specs.PlanReading as reading;

use super::head::{Head, One, Two};
use super::items::filled;
use super::reader::{Reader, Stopped};
use al_csv::Decl;
use al_plan::{Plan, Var};
use al_value::{Boxed, List, NoMemory};
use std::alloc::Global;

/// A plan file without the places.
#[derive(Drop)]
pub struct Parts {
    pub version: u32,
    pub datasets: List<Decl>,
    pub root: Boxed<Plan>,
}

fn result_over(alloc: Global, vars: List<Var>, input: Boxed<Plan>) -> Result<Boxed<Plan>, NoMemory>
    ensures { IfOk result (λ p. p ≡ P.Result vars input) }
{
    Boxed::new(alloc, Plan::Result { vars, input })
}

impl<'a> Reader<'a> {
    /// The parenthesis of an operator.
    #[tactic(auto, unfolding(crate::specs::PlanReading::begin_at))]
    fn begin(&mut self) -> Result<(), Stopped>
        ensures { reading.Gives result self.new (reading.begin_at (reading.state self.old)) }
    {
        let place = self.place()?;
        self.open()?;
        self.operators.push(place)?;
        Ok(())
    }

    #[cycle(plan)]
    #[tactic(auto, unfolding(crate::specs::PlanReading::inputs_at))]
    fn one_input(&mut self, levels: usize, one: One) -> Result<Boxed<Plan>, Stopped>
        ensures { reading.Gives result self.new (reading.inputs_at (reading.plan_at levels) (Head.One one) (reading.state self.old)) }
    {
        match self.plan(levels) {
            Ok(input) => Ok(one.over(self.alloc, input)?),
            Err(stopped) => {
                // A call, since what drops in place is proved variant by variant.
                drop(one);
                Err(stopped)
            }
        }
    }

    #[cycle(plan)]
    #[tactic(auto, unfolding(crate::specs::PlanReading::inputs_at))]
    fn two_inputs(&mut self, levels: usize, two: Two) -> Result<Boxed<Plan>, Stopped>
        ensures { reading.Gives result self.new (reading.inputs_at (reading.plan_at levels) (Head.Two two) (reading.state self.old)) }
    {
        let first = self.plan(levels)?;
        let second = self.plan(levels)?;
        Ok(two.over(self.alloc, first, second)?)
    }

    #[cycle(plan)]
    #[tactic(auto, unfolding(crate::specs::PlanReading::inputs_at))]
    fn inputs(&mut self, levels: usize, head: Head) -> Result<Boxed<Plan>, Stopped>
        ensures { reading.Gives result self.new (reading.inputs_at (reading.plan_at levels) head (reading.state self.old)) }
    {
        match head {
            Head::Leaf(leaf) => Ok(Boxed::new(self.alloc, leaf.plan())?),
            Head::One(one) => self.one_input(levels, one),
            Head::Two(two) => self.two_inputs(levels, two),
        }
    }

    /// A plan, where so many parentheses may open within one another.
    #[cycle(plan)]
    #[tactic(auto, unfolding(crate::specs::PlanReading::plan_at))]
    fn plan(&mut self, levels: usize) -> Result<Boxed<Plan>, Stopped>
        ensures { reading.Gives result self.new (reading.plan_at levels (reading.state self.old)) }
    {
        if levels == 0 {
            return Err(Stopped::Form);
        }
        self.begin()?;
        let head = self.head(levels - 1)?;
        let plan = self.inputs(levels - 1, head)?;
        self.close()?;
        Ok(plan)
    }

    /// A dataset behind its word.
    #[tactic(auto, unfolding(crate::specs::PlanReading::dataset_at))]
    fn dataset(&mut self) -> Result<Decl, Stopped>
        ensures { reading.Gives result self.new (reading.dataset_at (reading.state self.old)) }
    {
        let name = self.name()?;
        let file = self.file_name()?;
        let columns = filled(self, 0)?;
        Ok(Decl {
            name,
            file,
            columns,
        })
    }

    /// A dataset, or none where the root begins.
    #[tactic(auto, unfolding(crate::specs::PlanReading::part_at))]
    fn part(&mut self) -> Result<Option<Decl>, Stopped>
        ensures { reading.Gives result self.new (reading.part_at (reading.state self.old)) }
    {
        let place = self.place()?;
        self.open()?;
        if self.is_root()? {
            self.operators.push(place)?;
            return Ok(None);
        }
        self.datasets.push(place)?;
        Ok(Some(self.dataset()?))
    }

    /// The datasets, and the parenthesis and the word of the root.
    #[tactic(auto, unfolding(crate::specs::PlanReading::parts_at))]
    fn parts(&mut self) -> Result<List<Decl>, Stopped>
        ensures { reading.Gives result self.new (reading.parts_at (reading.state self.old)) }
    {
        let mut datasets = List::new(self.alloc);
        for _i in 0..self.rest.len() {
            match self.part() {
                Ok(Some(dataset)) => datasets.push(dataset)?,
                Ok(None) => return Ok(datasets),
                Err(stopped) => return Err(stopped),
            }
        }
        Err(Stopped::Form)
    }

    /// A root behind its word.
    #[tactic(auto, unfolding(crate::specs::PlanReading::root_at))]
    fn root(&mut self, levels: usize) -> Result<Boxed<Plan>, Stopped>
        ensures { reading.Gives result self.new (reading.root_at levels (reading.state self.old)) }
    {
        self.open()?;
        let vars = filled(self, 0)?;
        let input = self.plan(levels)?;
        self.close()?;
        Ok(result_over(self.alloc, vars, input)?)
    }

    /// A plan file, where so many parentheses may open within one another.
    #[tactic(auto, unfolding(crate::specs::PlanReading::file_at))]
    pub fn file(&mut self, levels: usize) -> Result<Parts, Stopped>
        ensures { reading.Gives result self.new (reading.file_at levels (reading.state self.old)) }
    {
        self.open()?;
        self.title()?;
        let version = self.version()?;
        let datasets = self.parts()?;
        let root = self.root(levels)?;
        self.close()?;
        Ok(Parts {
            version,
            datasets,
            root,
        })
    }
}

//! Lists of what is read, and the items that operators hold.

ghost use Rattle.std.specs.Prelude.{◌≡◌, ◌++◌};
ghost use Rattle.al_read.specs.PlanReading as reading;

use super::reader::{Reader, Stopped};
use al_agg::Agg;
use al_csv::Column;
use al_plan::{AggCall, Expr, Generator, OrderKey, Var};
use al_value::List;

/// What stands in a list of plan text.
pub trait Item: Drop + Sized {
    ghost use Rattle.std.specs.Prelude.{ℕ};
    ghost use Rattle.al_read.specs.PlanReading.{State, Outcome};

    ghost at: { ℕ → State → Outcome Self };

    fn read(reader: &mut Reader<'_>, levels: usize) -> Result<Self, Stopped>
        ensures { reading.Gives result reader.new (at levels (reading.state reader.old)) };
}

#[tactic(auto, unfolding(crate::specs::PlanReading::next_at))]
fn next<T: Item>(reader: &mut Reader<'_>, levels: usize) -> Result<Option<T>, Stopped>
    ensures { reading.Gives result reader.new (reading.next_at (T.at levels) (reading.state reader.old)) }
{
    if reader.closes() {
        reader.close()?;
        return Ok(None);
    }
    Ok(Some(T::read(reader, levels)?))
}

/// The items behind these, and the parenthesis that closes. Each takes a token, so the loop
/// sees all.
#[tactic(auto, unfolding(crate::specs::PlanReading::list_at))]
fn others<T: Item>(
    reader: &mut Reader<'_>,
    levels: usize,
    first: List<T>,
) -> Result<List<T>, Stopped>
    ensures { reading.Gives result reader.new (reading.behind_items first (reading.list_at (T.at levels) (reading.state reader.old))) }
{
    let mut items = first;
    for _i in 0..reader.rest.len() {
        match next(reader, levels) {
            Ok(Some(item)) => items.push(item)?,
            Ok(None) => return Ok(items),
            Err(stopped) => return Err(stopped),
        }
    }
    Err(Stopped::Form)
}

/// The items up to the parenthesis that closes.
pub fn list<T: Item>(reader: &mut Reader<'_>, levels: usize) -> Result<List<T>, Stopped>
    ensures { reading.Gives result reader.new (reading.list_at (T.at levels) (reading.state reader.old)) }
{
    let none = List::new(reader.alloc);
    others(reader, levels, none)
}

/// The items up to the parenthesis that closes, one at least.
#[tactic(auto, unfolding(crate::specs::PlanReading::filled_at))]
pub fn filled<T: Item>(reader: &mut Reader<'_>, levels: usize) -> Result<List<T>, Stopped>
    ensures { reading.Gives result reader.new (reading.filled_at (T.at levels) (reading.state reader.old)) }
{
    let mut first = List::new(reader.alloc);
    first.push(T::read(reader, levels)?)?;
    others(reader, levels, first)
}

fn generated(splits: bool, first: Expr, second: Expr) -> Generator
    ensures { result ≡ reading.generated splits first second }
{
    if splits {
        Generator::Split(first, second)
    } else {
        Generator::Range(first, second)
    }
}

impl<'a> Reader<'a> {
    #[tactic(auto, unfolding(crate::specs::PlanReading::agg_args_at))]
    fn agg_args(&mut self, levels: usize, agg: Agg) -> Result<AggCall, Stopped>
        ensures { reading.Gives result self.new (reading.agg_args_at levels agg (reading.state self.old)) }
    {
        match agg {
            Agg::CountAll => Ok(AggCall::CountAll),
            Agg::Count => Ok(AggCall::Count(self.expr(levels)?)),
            Agg::Sum => Ok(AggCall::Sum(self.expr(levels)?)),
            Agg::Min => Ok(AggCall::Min(self.expr(levels)?)),
            Agg::Max => Ok(AggCall::Max(self.expr(levels)?)),
        }
    }

    #[tactic(auto, unfolding(crate::specs::PlanReading::agg_at))]
    fn agg(&mut self, levels: usize) -> Result<AggCall, Stopped>
        ensures { reading.Gives result self.new (reading.agg_at levels (reading.state self.old)) }
    {
        self.open()?;
        let agg = self.agg_word()?;
        let call = self.agg_args(levels, agg)?;
        self.close()?;
        Ok(call)
    }

    /// What an unnest makes of a row.
    #[tactic(auto, unfolding(crate::specs::PlanReading::generator_at))]
    pub fn generator(&mut self, levels: usize) -> Result<Generator, Stopped>
        ensures { reading.Gives result self.new (reading.generator_at levels (reading.state self.old)) }
    {
        self.open()?;
        let splits = self.split_word()?;
        let first = self.expr(levels)?;
        let second = self.expr(levels)?;
        self.close()?;
        Ok(generated(splits, first, second))
    }

    /// Variables between two parentheses.
    #[tactic(auto, unfolding(crate::specs::PlanReading::variables_at))]
    pub fn variables(&mut self) -> Result<List<Var>, Stopped>
        ensures { reading.Gives result self.new (reading.variables_at (reading.state self.old)) }
    {
        self.open()?;
        list(self, 0)
    }
}

impl Item for Var {
    ghost at = { λ levels. reading.variable_at };

    fn read(reader: &mut Reader<'_>, _levels: usize) -> Result<Var, Stopped> {
        reader.variable()
    }
}

impl Item for (Var, Expr) {
    ghost at = { λ levels. reading.assigned_at levels };

    #[tactic(auto, unfolding(crate::specs::PlanReading::assigned_at))]
    fn read(reader: &mut Reader<'_>, levels: usize) -> Result<(Var, Expr), Stopped> {
        reader.open()?;
        let var = reader.variable()?;
        let expr = reader.expr(levels)?;
        reader.close()?;
        Ok((var, expr))
    }
}

impl Item for (Var, AggCall) {
    ghost at = { λ levels. reading.aggregated_at levels };

    #[tactic(auto, unfolding(crate::specs::PlanReading::aggregated_at))]
    fn read(reader: &mut Reader<'_>, levels: usize) -> Result<(Var, AggCall), Stopped> {
        reader.open()?;
        let var = reader.variable()?;
        let call = reader.agg(levels)?;
        reader.close()?;
        Ok((var, call))
    }
}

impl Item for (Var, Var) {
    ghost at = { λ levels. reading.key_at };

    #[tactic(auto, unfolding(crate::specs::PlanReading::key_at))]
    fn read(reader: &mut Reader<'_>, _levels: usize) -> Result<(Var, Var), Stopped> {
        reader.open()?;
        let new = reader.variable()?;
        let old = reader.variable()?;
        reader.close()?;
        Ok((new, old))
    }
}

impl Item for OrderKey {
    ghost at = { λ levels. reading.order_at };

    #[tactic(auto, unfolding(crate::specs::PlanReading::order_at))]
    fn read(reader: &mut Reader<'_>, _levels: usize) -> Result<OrderKey, Stopped> {
        reader.open()?;
        let var = reader.variable()?;
        let descending = reader.direction()?;
        reader.close()?;
        Ok(OrderKey { var, descending })
    }
}

impl Item for Column {
    ghost at = { λ levels. reading.column_at };

    #[tactic(auto, unfolding(crate::specs::PlanReading::column_at))]
    fn read(reader: &mut Reader<'_>, _levels: usize) -> Result<Column, Stopped> {
        reader.open()?;
        let name = reader.name()?;
        let kind = reader.kind()?;
        reader.close()?;
        Ok(Column { name, kind })
    }
}

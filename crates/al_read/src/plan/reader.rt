//! The tokens that are left, and what is read of one token.

ghost use Rattle.std.specs.Prelude.{◌≡◌};
ghost use Rattle.al_read.specs.PlanReading as reading;

use crate::token::{Placed, Token};
use al_plan::Var;
use al_value::{List, Name, NoMemory, Text, TextFault};
use std::alloc::Global;

/// Why reading stops: a token can't stand there, or it is a number out of its range.
#[derive(Clone, Copy, Debug, PartialEq, Eq)]
pub enum Stopped {
    Form,
    Number,
    NoMemory,
}

impl From<NoMemory> for Stopped {
    ghost use Rattle.std.specs.Prelude.{◌≡◌};
    ghost use Rattle.al_read.specs.declared.plan.reader.Stopped.TheVariants as stops;

    ghost from_gives = { λ _ e. e ≡ stops.NoMemory };

    fn from(_e: NoMemory) -> Stopped {
        Stopped::NoMemory
    }
}

/// Reads from the left. Where a method stops, the reader stands at the token that it stops at.
#[derive(Drop)]
pub struct Reader<'a> {
    pub alloc: Global,
    pub rest: &'a [Placed],
    /// Where the datasets so far open.
    pub datasets: List<u32>,
    /// Where the operators so far open.
    pub operators: List<u32>,
}

fn open_of(token: &Token) -> Result<(), Stopped>
    ensures { reading.Makes result (reading.open_of token.now) }
{
    match token {
        Token::Open => Ok(()),
        _ => Err(Stopped::Form),
    }
}

fn close_of(token: &Token) -> Result<(), Stopped>
    ensures { reading.Makes result (reading.close_of token.now) }
{
    match token {
        Token::Close => Ok(()),
        _ => Err(Stopped::Form),
    }
}

fn name_of(alloc: Global, token: &Token) -> Result<Name, Stopped>
    ensures { reading.Makes result (reading.name_of token.now) }
{
    match token {
        Token::Name(name) => Ok(name.copy(alloc)?),
        _ => Err(Stopped::Form),
    }
}

fn variable_of(alloc: Global, token: &Token) -> Result<Var, Stopped>
    ensures { reading.Makes result (reading.variable_of token.now) }
{
    match token {
        Token::Var(name) => Ok(Var {
            name: name.copy(alloc)?,
        }),
        _ => Err(Stopped::Form),
    }
}

fn file_of(alloc: Global, token: &Token) -> Result<Name, Stopped>
    ensures { reading.Makes result (reading.file_of token.now) }
{
    match token {
        Token::Str(content) => Ok(Name::new(alloc, content.as_str())?),
        _ => Err(Stopped::Form),
    }
}

fn text_of(alloc: Global, token: &Token) -> Result<Text, Stopped>
    ensures { reading.Makes result (reading.text_of token.now) }
{
    let Token::Name(name) = token else {
        return Err(Stopped::Form);
    };
    match Text::new(alloc, name.as_str()) {
        Ok(text) => Ok(text),
        Err(TextFault::TooLong) => Err(Stopped::Form),
        Err(TextFault::NoMemory) => Err(Stopped::NoMemory),
    }
}

fn count_of_digits(digits: &Name) -> Result<u64, Stopped>
    ensures { reading.Makes result (reading.count_of_digits digits.now) }
{
    let number = int_of(digits)?;
    if number < 0 {
        return Err(Stopped::Number);
    }
    Ok(number as u64)
}

fn count_of(token: &Token) -> Result<u64, Stopped>
    ensures { reading.Makes result (reading.count_of token.now) }
{
    match token {
        Token::Number(digits) => count_of_digits(digits),
        _ => Err(Stopped::Form),
    }
}

/// The number that digits stand for.
pub fn int_of(digits: &Name) -> Result<i64, Stopped>
    ensures { reading.Makes result (reading.int_of_digits digits.now) }
{
    match digits.as_str().parse::<i64>() {
        Ok(number) => Ok(number),
        Err(_) => Err(Stopped::Number),
    }
}

fn version_of(token: &Token) -> Result<u32, Stopped>
    ensures { reading.Makes result (reading.version_of token.now) }
{
    if count_of(token)? == 1 {
        Ok(1)
    } else {
        Err(Stopped::Number)
    }
}

impl<'a> Reader<'a> {
    /// The first token, and those behind it.
    pub fn first(&self) -> Result<(&'a Placed, &'a [Placed]), Stopped>
        ensures { reading.IsFirst result self.now.rest.now }
    {
        match self.rest {
            [first, others @ ..] => Ok((first, others)),
            [] => Err(Stopped::Form),
        }
    }

    /// Whether a parenthesis opens here.
    pub fn opens(&self) -> bool
        ensures { result ≡ reading.opens self.now.rest.now }
    {
        match self.rest {
            [first, ..] => matches!(first.token, Token::Open),
            [] => false,
        }
    }

    /// Whether a parenthesis closes here.
    pub fn closes(&self) -> bool
        ensures { result ≡ reading.closes self.now.rest.now }
    {
        match self.rest {
            [first, ..] => matches!(first.token, Token::Close),
            [] => false,
        }
    }

    /// Where the first token begins.
    #[tactic(auto, unfolding(crate::specs::PlanReading::place_at))]
    pub fn place(&self) -> Result<u32, Stopped>
        ensures { reading.Gives result self.now (reading.place_at (reading.state self.now)) }
    {
        let (first, _) = self.first()?;
        Ok(first.place)
    }

    #[tactic(auto, unfolding(crate::specs::PlanReading::open_at))]
    pub fn open(&mut self) -> Result<(), Stopped>
        ensures { reading.Gives result self.new (reading.open_at (reading.state self.old)) }
    {
        let (first, others) = self.first()?;
        open_of(&first.token)?;
        self.rest = others;
        Ok(())
    }

    #[tactic(auto, unfolding(crate::specs::PlanReading::close_at))]
    pub fn close(&mut self) -> Result<(), Stopped>
        ensures { reading.Gives result self.new (reading.close_at (reading.state self.old)) }
    {
        let (first, others) = self.first()?;
        close_of(&first.token)?;
        self.rest = others;
        Ok(())
    }

    #[tactic(auto, unfolding(crate::specs::PlanReading::name_at))]
    pub fn name(&mut self) -> Result<Name, Stopped>
        ensures { reading.Gives result self.new (reading.name_at (reading.state self.old)) }
    {
        let (first, others) = self.first()?;
        let name = name_of(self.alloc, &first.token)?;
        self.rest = others;
        Ok(name)
    }

    #[tactic(auto, unfolding(crate::specs::PlanReading::variable_at))]
    pub fn variable(&mut self) -> Result<Var, Stopped>
        ensures { reading.Gives result self.new (reading.variable_at (reading.state self.old)) }
    {
        let (first, others) = self.first()?;
        let variable = variable_of(self.alloc, &first.token)?;
        self.rest = others;
        Ok(variable)
    }

    #[tactic(auto, unfolding(crate::specs::PlanReading::file_name_at))]
    pub fn file_name(&mut self) -> Result<Name, Stopped>
        ensures { reading.Gives result self.new (reading.file_name_at (reading.state self.old)) }
    {
        let (first, others) = self.first()?;
        let file = file_of(self.alloc, &first.token)?;
        self.rest = others;
        Ok(file)
    }

    #[tactic(auto, unfolding(crate::specs::PlanReading::text_at))]
    pub fn text(&mut self) -> Result<Text, Stopped>
        ensures { reading.Gives result self.new (reading.text_at (reading.state self.old)) }
    {
        let (first, others) = self.first()?;
        let text = text_of(self.alloc, &first.token)?;
        self.rest = others;
        Ok(text)
    }

    #[tactic(auto, unfolding(crate::specs::PlanReading::count_at))]
    pub fn count(&mut self) -> Result<u64, Stopped>
        ensures { reading.Gives result self.new (reading.count_at (reading.state self.old)) }
    {
        let (first, others) = self.first()?;
        let count = count_of(&first.token)?;
        self.rest = others;
        Ok(count)
    }

    #[tactic(auto, unfolding(crate::specs::PlanReading::version_at))]
    pub fn version(&mut self) -> Result<u32, Stopped>
        ensures { reading.Gives result self.new (reading.version_at (reading.state self.old)) }
    {
        let (first, others) = self.first()?;
        let version = version_of(&first.token)?;
        self.rest = others;
        Ok(version)
    }
}

//! The words of plan text.

ghost use Rattle.std.specs.Prelude.{◌≡◌, codes};
ghost use Rattle.al_read.specs.PlanReading as reading;

use super::reader::{Reader, Stopped};
use crate::token::Token;
use al_agg::Agg;
use al_csv::Kind;
use al_func::Func;

/// An operator without inputs.
#[derive(Clone, Copy, Debug, PartialEq, Eq)]
pub enum LeafOp {
    Scan,
    Empty,
    Nested,
}

/// An operator over one input.
#[derive(Clone, Copy, Debug, PartialEq, Eq)]
pub enum OneOp {
    Assign,
    Select,
    Project,
    Unnest,
    Distinct,
    Aggregate,
    Order,
    Limit,
    Check,
}

/// An operator over two inputs, of which the first may be a nested plan.
#[derive(Clone, Copy, Debug, PartialEq, Eq)]
pub enum TwoOp {
    Subplan,
    Join,
    LeftJoin,
    Group,
    Union,
}

#[derive(Clone, Copy, Debug, PartialEq, Eq)]
pub enum Op {
    Leaf(LeafOp),
    One(OneOp),
    Two(TwoOp),
}

#[tactic(auto, unfolding(crate::specs::PlanReading::func_named))]
fn func_named(word: &str) -> Option<Func>
    ensures { result ≡ reading.func_named word.now }
{
    match word {
        "eq" => Some(Func::Eq),
        "lt" => Some(Func::Lt),
        "le" => Some(Func::Le),
        "and" => Some(Func::And),
        "or" => Some(Func::Or),
        "not" => Some(Func::Not),
        "add" => Some(Func::Add),
        "sub" => Some(Func::Sub),
        "mul" => Some(Func::Mul),
        "div" => Some(Func::Div),
        "mod" => Some(Func::Mod),
        "neg" => Some(Func::Neg),
        "concat" => Some(Func::Concat),
        "length" => Some(Func::Length),
        "substr" => Some(Func::Substr),
        "lower_ascii" => Some(Func::LowerAscii),
        "if" => Some(Func::If),
        "is_null" => Some(Func::IsNull),
        "coalesce" => Some(Func::Coalesce),
        _ => None,
    }
}

fn func_of(token: &Token) -> Result<Func, Stopped>
    ensures { reading.Makes result (reading.func_of token.now) }
{
    match token {
        Token::Name(name) => func_named(name.as_str()).ok_or(Stopped::Form),
        _ => Err(Stopped::Form),
    }
}

#[tactic(auto, unfolding(crate::specs::PlanReading::op_named))]
fn op_named(word: &str) -> Option<Op>
    ensures { result ≡ reading.op_named word.now }
{
    match word {
        "scan" => Some(Op::Leaf(LeafOp::Scan)),
        "empty" => Some(Op::Leaf(LeafOp::Empty)),
        "nested" => Some(Op::Leaf(LeafOp::Nested)),
        "assign" => Some(Op::One(OneOp::Assign)),
        "select" => Some(Op::One(OneOp::Select)),
        "project" => Some(Op::One(OneOp::Project)),
        "unnest" => Some(Op::One(OneOp::Unnest)),
        "distinct" => Some(Op::One(OneOp::Distinct)),
        "aggregate" => Some(Op::One(OneOp::Aggregate)),
        "order" => Some(Op::One(OneOp::Order)),
        "limit" => Some(Op::One(OneOp::Limit)),
        "check" => Some(Op::One(OneOp::Check)),
        "subplan" => Some(Op::Two(TwoOp::Subplan)),
        "join" => Some(Op::Two(TwoOp::Join)),
        "leftjoin" => Some(Op::Two(TwoOp::LeftJoin)),
        "group" => Some(Op::Two(TwoOp::Group)),
        "union" => Some(Op::Two(TwoOp::Union)),
        _ => None,
    }
}

fn op_of(token: &Token) -> Result<Op, Stopped>
    ensures { reading.Makes result (reading.op_of token.now) }
{
    match token {
        Token::Name(name) => op_named(name.as_str()).ok_or(Stopped::Form),
        _ => Err(Stopped::Form),
    }
}

fn agg_named(word: &str) -> Option<Agg>
    ensures { result ≡ reading.agg_named word.now }
{
    match word {
        "countall" => Some(Agg::CountAll),
        "count" => Some(Agg::Count),
        "sum" => Some(Agg::Sum),
        "min" => Some(Agg::Min),
        "max" => Some(Agg::Max),
        _ => None,
    }
}

fn agg_of(token: &Token) -> Result<Agg, Stopped>
    ensures { reading.Makes result (reading.agg_of token.now) }
{
    match token {
        Token::Name(name) => agg_named(name.as_str()).ok_or(Stopped::Form),
        _ => Err(Stopped::Form),
    }
}

fn kind_named(word: &str) -> Option<Kind>
    ensures { result ≡ reading.kind_named word.now }
{
    match word {
        "int" => Some(Kind::Int),
        "text" => Some(Kind::Text),
        "bool" => Some(Kind::Bool),
        _ => None,
    }
}

fn kind_of(token: &Token) -> Result<Kind, Stopped>
    ensures { reading.Makes result (reading.kind_of token.now) }
{
    match token {
        Token::Name(name) => kind_named(name.as_str()).ok_or(Stopped::Form),
        _ => Err(Stopped::Form),
    }
}

fn second_of(word: &str, first: &str, second: &str) -> Option<bool>
    ensures { result ≡ reading.second_of first.now second.now word.now }
{
    if word == first {
        Some(false)
    } else if word == second {
        Some(true)
    } else {
        None
    }
}

/// Whether the token is the second of two words, and not the first.
fn either_of(token: &Token, first: &str, second: &str) -> Result<bool, Stopped>
    ensures { reading.Makes result (reading.either_of first.now second.now token.now) }
{
    match token {
        Token::Name(name) => second_of(name.as_str(), first, second).ok_or(Stopped::Form),
        _ => Err(Stopped::Form),
    }
}

fn title_of(token: &Token) -> Result<(), Stopped>
    ensures { reading.Makes result (reading.title_of token.now) }
{
    match token {
        Token::Name(name) if name.as_str() == "algebricks" => Ok(()),
        _ => Err(Stopped::Form),
    }
}

impl<'a> Reader<'a> {
    #[tactic(auto, unfolding(crate::specs::PlanReading::func_at))]
    pub fn func(&mut self) -> Result<Func, Stopped>
        ensures { reading.Gives result self.new (reading.func_at (reading.state self.old)) }
    {
        let (first, others) = self.first()?;
        let word = func_of(&first.token)?;
        self.rest = others;
        Ok(word)
    }

    #[tactic(auto, unfolding(crate::specs::PlanReading::op_at))]
    pub fn op(&mut self) -> Result<Op, Stopped>
        ensures { reading.Gives result self.new (reading.op_at (reading.state self.old)) }
    {
        let (first, others) = self.first()?;
        let word = op_of(&first.token)?;
        self.rest = others;
        Ok(word)
    }

    #[tactic(auto, unfolding(crate::specs::PlanReading::agg_word_at))]
    pub fn agg_word(&mut self) -> Result<Agg, Stopped>
        ensures { reading.Gives result self.new (reading.agg_word_at (reading.state self.old)) }
    {
        let (first, others) = self.first()?;
        let word = agg_of(&first.token)?;
        self.rest = others;
        Ok(word)
    }

    #[tactic(auto, unfolding(crate::specs::PlanReading::kind_at))]
    pub fn kind(&mut self) -> Result<Kind, Stopped>
        ensures { reading.Gives result self.new (reading.kind_at (reading.state self.old)) }
    {
        let (first, others) = self.first()?;
        let word = kind_of(&first.token)?;
        self.rest = others;
        Ok(word)
    }

    /// Whether a generator splits a text.
    #[tactic(auto, unfolding(crate::specs::PlanReading::split_word_at))]
    pub fn split_word(&mut self) -> Result<bool, Stopped>
        ensures { reading.Gives result self.new (reading.split_word_at (reading.state self.old)) }
    {
        let (first, others) = self.first()?;
        let word = either_of(&first.token, "range", "split")?;
        self.rest = others;
        Ok(word)
    }

    /// Whether an order descends.
    #[tactic(auto, unfolding(crate::specs::PlanReading::direction_at))]
    pub fn direction(&mut self) -> Result<bool, Stopped>
        ensures { reading.Gives result self.new (reading.direction_at (reading.state self.old)) }
    {
        let (first, others) = self.first()?;
        let word = either_of(&first.token, "asc", "desc")?;
        self.rest = others;
        Ok(word)
    }

    /// Whether the root begins here, and not a dataset.
    #[tactic(auto, unfolding(crate::specs::PlanReading::is_root_at))]
    pub fn is_root(&mut self) -> Result<bool, Stopped>
        ensures { reading.Gives result self.new (reading.is_root_at (reading.state self.old)) }
    {
        let (first, others) = self.first()?;
        let word = either_of(&first.token, "dataset", "result")?;
        self.rest = others;
        Ok(word)
    }

    /// The word that a file begins with.
    #[tactic(auto, unfolding(crate::specs::PlanReading::title_at))]
    pub fn title(&mut self) -> Result<(), Stopped>
        ensures { reading.Gives result self.new (reading.title_at (reading.state self.old)) }
    {
        let (first, others) = self.first()?;
        title_of(&first.token)?;
        self.rest = others;
        Ok(())
    }
}

//! Expressions.

ghost use Rattle.std.specs.Prelude.{◌≡◌};
ghost use Rattle.al_read.specs.PlanReading as reading;

use super::reader::{Reader, Stopped, int_of};
use crate::token::Token;
use al_plan::{Expr, Var};
use al_value::{List, Value};
use std::alloc::Global;

fn literal_named(word: &str) -> Result<Expr, Stopped>
    ensures { reading.Makes result (reading.literal_named word.now) }
{
    if word == "null" {
        Ok(Expr::Lit(Value::Null))
    } else if word == "true" {
        Ok(Expr::Lit(Value::Bool(true)))
    } else if word == "false" {
        Ok(Expr::Lit(Value::Bool(false)))
    } else {
        Err(Stopped::Form)
    }
}

fn leaf_of(alloc: Global, token: &Token) -> Result<Expr, Stopped>
    ensures { reading.Makes result (reading.leaf_of token.now) }
{
    match token {
        Token::Var(name) => Ok(Expr::Var(Var {
            name: name.copy(alloc)?,
        })),
        Token::Number(digits) => Ok(Expr::Lit(Value::Int(int_of(digits)?))),
        Token::Str(content) => Ok(Expr::Lit(Value::Text(content.copy(alloc)?))),
        Token::Name(word) => literal_named(word.as_str()),
        Token::Open | Token::Close => Err(Stopped::Form),
    }
}

impl<'a> Reader<'a> {
    #[tactic(auto, unfolding(crate::specs::PlanReading::leaf_at))]
    fn leaf(&mut self) -> Result<Expr, Stopped>
        ensures { reading.Gives result self.new (reading.leaf_at (reading.state self.old)) }
    {
        let (first, others) = self.first()?;
        let leaf = leaf_of(self.alloc, &first.token)?;
        self.rest = others;
        Ok(leaf)
    }

    #[cycle(expr)]
    #[tactic(auto, unfolding(crate::specs::PlanReading::next_at))]
    fn next_arg(&mut self, levels: usize) -> Result<Option<Expr>, Stopped>
        ensures { reading.Gives result self.new (reading.next_at (reading.expr_at levels) (reading.state self.old)) }
    {
        if self.closes() {
            self.close()?;
            return Ok(None);
        }
        Ok(Some(self.expr(levels)?))
    }

    /// The arguments, and the parenthesis that closes. Each takes a token, so the loop sees all.
    #[cycle(expr)]
    #[tactic(auto, unfolding(crate::specs::PlanReading::list_at))]
    fn args(&mut self, levels: usize) -> Result<List<Expr>, Stopped>
        ensures { reading.Gives result self.new (reading.list_at (reading.expr_at levels) (reading.state self.old)) }
    {
        let mut args = List::new(self.alloc);
        for _i in 0..self.rest.len() {
            match self.next_arg(levels) {
                Ok(Some(arg)) => args.push(arg)?,
                Ok(None) => return Ok(args),
                Err(stopped) => return Err(stopped),
            }
        }
        Err(Stopped::Form)
    }

    #[cycle(expr)]
    #[tactic(auto, unfolding(crate::specs::PlanReading::call_at))]
    fn call(&mut self, levels: usize) -> Result<Expr, Stopped>
        ensures { reading.Gives result self.new (reading.call_at (reading.expr_at levels) (reading.state self.old)) }
    {
        let func = self.func()?;
        let args = self.args(levels)?;
        Ok(Expr::Call(func, args))
    }

    /// An expression, where so many parentheses may open within one another.
    #[cycle(expr)]
    #[tactic(auto, unfolding(crate::specs::PlanReading::expr_at))]
    pub fn expr(&mut self, levels: usize) -> Result<Expr, Stopped>
        ensures { reading.Gives result self.new (reading.expr_at levels (reading.state self.old)) }
    {
        if levels > 0 && self.opens() {
            self.open()?;
            self.call(levels - 1)
        } else {
            self.leaf()
        }
    }
}

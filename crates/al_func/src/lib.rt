//! The functions on values, calls of them over rows, and the items of generators.
#![tactic(auto)]

mod call;
mod func;
mod ints;
mod items;
mod logic;
mod rex;
mod texts;

pub use call::apply;
pub use func::{Func, arity};
pub use items::{range_items, split_items};
pub use rex::{Rex, eval_rex};

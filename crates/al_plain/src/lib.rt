//! The plain evaluator: one list of rows that a plan allows, computed operator by operator over
//! lists of rows in memory.
#![tactic(auto)]

mod call;
mod distinct;
mod expr;
mod group;
mod join;
mod operators;
mod order;
mod plan;
mod rows;
mod run;

pub use plan::{Data, PlainFault};
pub use run::evaluate;

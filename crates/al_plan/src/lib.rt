//! Logical plans and what they mean: the lists of rows that a plan allows.
#![tactic(auto)]

mod copy;
mod expr;
mod file;
mod gather;
mod laws;
mod plan;
mod variables;

pub use expr::{Expr, Var};
pub use file::{Place, PlanFile, Refused, RefusedKind};
pub use gather::uses;
pub use laws::plan_laws;
pub use plan::{AggCall, Generator, OrderKey, Plan};
pub use variables::{joined_vars, live, live_over, ordered};

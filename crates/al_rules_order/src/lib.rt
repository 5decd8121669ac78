//! The set of rules that drops orders and moves limits down, after Algebricks' rules.
#![tactic(auto)]

mod limits;
mod orders;
mod outcome;
mod set;

pub use limits::{LimitBelowAssign, LimitBelowProject, LimitOverLimit};
pub use orders::{DropOrder, OrderOverOrder};
pub use set::OrderSet;

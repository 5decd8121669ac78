//! The drivers of operators that run a nested plan: one for each row, and one for each stretch of rows
//! with equal keys.
#![tactic(auto)]

mod behind;
mod laws;
mod pre_group;
mod same;
mod stretch;
mod subplan;

pub use laws::{subplan_cases, subplan_laws};
pub use pre_group::PreGroup;
pub use subplan::Subplan;

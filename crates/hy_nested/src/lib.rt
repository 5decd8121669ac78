//! The one row that a nested plan gives over the rows of a group, or over the outer row of a
//! subplan.
#![tactic(auto)]

mod distinct;
mod laws;
mod run;
mod shape;

pub use laws::nested_cases;
pub use run::run_nested;
pub use shape::row_wise;

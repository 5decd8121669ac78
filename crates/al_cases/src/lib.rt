//! Worked cases: what small plans allow, and what not.
#![tactic(auto)]

mod cases;

pub use cases::{refine_cases, worked_cases};

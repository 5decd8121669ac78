//! Worked cases of answers: lists that the job of a group, a join or an aggregate may hand on, and
//! lists that it may not.
#![tactic(auto)]

mod cases;

pub use cases::{list_cases, record_cases};

//! Worked cases of functions, generators, fields and records.
#![tactic(auto)]

mod cases;

pub use cases::{file_cases, func_cases};

//! From the records of a compiled job to the answer that its physical plan allows.
#![tactic(auto)]

mod laws;

pub use laws::{answer_cases, answer_laws};

//! Worked cases of commands: which statuses are due for words and files, and which are not.
#![tactic(auto)]

mod cases;

pub use cases::{due_cases, gen_cases};

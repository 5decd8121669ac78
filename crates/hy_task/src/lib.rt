//! Tasks: what is true of one between its steps, and what its steps come to.
#![tactic(auto)]

mod laws;

pub use laws::{HasWork, standing_cases, standing_laws};

//! Why a stage always ends: some task can go on while one is not done, and each step lowers a number.
#![tactic(auto)]

mod laws;

pub use laws::{ending_laws, progress_cases, progress_laws};

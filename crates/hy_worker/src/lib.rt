//! What a task works with: its inputs, its operator and its output, and one call for each thing that a
//! step of the task does with them.
#![tactic(auto)]

mod laws;
mod pipeline;

pub use laws::{HasWorker, worker_cases, worker_laws};
pub use pipeline::{Parts, Pipeline};

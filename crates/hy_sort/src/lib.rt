//! The drivers of a sort: one keeps the rows and hands them on, and one orders them and gives them.
#![tactic(auto)]

mod build;
mod emit;
mod laws;
mod order;

pub use build::SortBuild;
pub use emit::SortEmit;
pub use laws::{sort_cases, sort_laws};

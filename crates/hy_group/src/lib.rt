//! The drivers of groups and of different rows, which keep their groups by key in memory.
#![tactic(auto)]

mod build;
mod emit;
mod folding;
mod fresh;
mod groups;
mod joining;
mod laws;

pub use build::{GroupBuild, GroupShape};
pub use emit::GroupEmit;
pub use laws::group_cases;

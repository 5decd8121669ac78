//! The set of rules on groups, aggregates and distincts, after Algebricks' rules.
#![tactic(auto)]

mod distinct;
mod distincts;
mod outcome;
mod projects;
mod set;
mod shape;

pub use distinct::has_distinct;
pub use distincts::{DistinctOverAggregate, DistinctOverDistinct, DistinctOverGroup};
pub use projects::{AggregateOverProject, GroupOverProject};
pub use set::GroupSet;

//! The set of rules that cut away variables that nobody uses, after Algebricks' rules.
#![tactic(auto)]

mod cuts;
mod group;
mod join;
mod parts;
mod projects;
mod set;
mod wanted;

pub use cuts::{AggregateProjectInput, ProjectBelowOrder, ProjectBelowSelect, ResultProject};
pub use group::GroupProjectInput;
pub use join::ProjectBelowJoin;
pub use projects::{AssignUnderProject, ProjectAll, ProjectOverProject};
pub use set::PruneSet;

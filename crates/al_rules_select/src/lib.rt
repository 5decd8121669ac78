//! The sets of rules that take selects apart and move them down, after Algebricks' rules.
#![tactic(auto)]

mod below;
mod lower;
mod sets;
mod whole;

pub use below::{
    SelectBelowAssign, SelectBelowDistinct, SelectBelowJoinLeft, SelectBelowJoinRight,
    SelectBelowLeftJoin, SelectBelowOrder, SelectBelowProject, SelectBelowSubplan,
    SelectBelowUnnest,
};
pub use sets::{SelectSet, SplitSet, split_laws};
pub use whole::{SelectIntoJoin, SelectTrue, SplitAnd};

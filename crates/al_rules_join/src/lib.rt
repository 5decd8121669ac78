//! The rules on joins: conjuncts go where they can be asked first, and left joins become joins.
#![tactic(auto)]

mod condition;
mod drop_true;
mod left_join;
mod part;
mod push;
mod set;

pub use drop_true::DropTrue;
pub use left_join::LeftJoinToJoin;
pub use push::{JoinCondLeft, JoinCondRight, LeftJoinCondRight};
pub use set::JoinSet;

//! A condition is its conjuncts: the leaves of its tree of `and`.
#![tactic(auto)]

mod condition;
mod laws;
mod property;
mod split;

pub use condition::{all_of, both, conjuncts, is_and, sides};
pub use laws::conjunct_laws;
pub use property::{LiteralTrue, Property, has_conjunct};
pub use split::{Split, take_first};

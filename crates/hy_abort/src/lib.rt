//! The abort word of a stage. Each task has a seat at it, raises the word where its operator faults, and looks at
//! whether another task has. The word is how many seats raised.
#![tactic(auto)]

mod fault;
mod laws;
mod rule;
mod word;

pub use fault::NoMemory;
pub use laws::{abort_cases, abort_laws};
pub use word::{AbortSeat, AbortWord};

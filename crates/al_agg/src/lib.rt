//! Aggregates over lists of values, and their partial states.
#![tactic(auto)]

mod agg;
mod extreme;
mod laws;
mod number;
mod part;
mod state;

pub use agg::Agg;
pub use laws::state_laws;
pub use part::{Part, PartFault, add, finish, get_part, join, put_part, start, width};

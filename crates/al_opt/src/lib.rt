//! The optimiser: the sets of rules, driven in their order.
#![tactic(auto)]

mod laws;
mod optimiser;
mod room;

pub use laws::{room_cases, trace_cases, trace_laws};
pub use optimiser::optimise;

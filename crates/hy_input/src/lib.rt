//! What comes into a task at one input: parcels of its senders, of which rows come to hand.
#![tactic(auto)]

mod input;
mod laws;
mod taker;

pub use input::{Came, Input};
pub use laws::{input_cases, input_laws};
pub use taker::Taker;

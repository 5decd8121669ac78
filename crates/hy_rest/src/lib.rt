//! What may still be put for what is still to be taken, as definitions and their laws, and the words
//! that senders put.
#![tactic(auto)]

mod laws;

pub use laws::{Passage, Resting, passage_laws, rest_cases, rest_laws};

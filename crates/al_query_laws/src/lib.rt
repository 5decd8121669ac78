//! What the commands write and refuse is determined by their files.
#![tactic(auto)]

mod laws;

pub use laws::{compile_laws, refusal_laws, text_laws};

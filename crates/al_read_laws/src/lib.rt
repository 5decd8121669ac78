//! Every text has tokens or a first bad piece, and a reading or a refusal.
#![tactic(auto)]

mod laws;

pub use laws::{every_text, text_cases};

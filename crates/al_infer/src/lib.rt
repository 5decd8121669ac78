//! Which plan files are accepted, and the first fault of another one.
#![tactic(auto)]

mod answer;
mod datasets;
mod exprs;
mod inputs;
mod laws;
mod live;
mod names;
mod rules;
mod walk;

pub use answer::{AcceptRefused, Accepted, accept, refusal};
pub use laws::acceptance_laws;

//! The drivers of joins: the one that builds the right side, and the one that probes it with left
//! rows.
#![tactic(auto)]

mod build;
mod fields;
mod index;
mod keys;
mod laws;
mod left;
mod pair;
mod probe;
mod residual;
mod right;

pub use build::JoinBuild;
pub use laws::join_cases;
pub use probe::JoinProbe;
pub use right::Sides;

//! The driver of aggregates without keys: of their partial states over rows, and of their values over
//! rows of such states.
#![tactic(auto)]

mod aggregate;
mod laws;
mod work;

pub use aggregate::Aggregate;
pub use laws::aggregate_cases;
pub use work::AggWork;

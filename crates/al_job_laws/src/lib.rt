//! A job's stages are determined, and the job of a physical plan stands in order.
#![tactic(auto)]

mod laws;

pub use laws::{job_order, one_stages, order_cases};

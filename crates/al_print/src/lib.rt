//! Canonical text, which reads back, and what becomes of a plan.
#![tactic(auto)]

mod explanation;
mod expr;
mod file;
mod job;
mod laws;
mod line;
mod operator;
mod phys;
mod trace;

pub use explanation::print_explanation;
pub use file::{print_plan, print_with};
pub use job::print_job;
pub use laws::printing_laws;
pub use phys::print_phys;
pub use trace::print_trace;

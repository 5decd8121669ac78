//! The drivers of groups and joins over the rows of their inputs, as tasks would run them: for tests
//! and benchmarks.
#![tactic(auto)]

mod groups;
mod joins;
mod run;
mod whole;

pub use groups::{count_sum_and_greatest, different_rows, grouped};
pub use joins::{join_of, joined};
pub use run::{Input, Sink, Source, Table};
pub use whole::{Ran, SETTINGS, fit_in, new_bank, whole_run};

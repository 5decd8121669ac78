//! What an operator is: a driver, its calls, what they promise, and how it is ended.
#![tactic(auto)]

mod driver;
mod handed;
mod keep;
mod laws;
mod pass;
mod phase;

pub use driver::Driver;
pub use handed::{Handed, HandsOn};
pub use keep::KeepRows;
pub use laws::{Starts, driver_cases, driver_laws, row_laws};
pub use pass::PassRows;
pub use phase::Phase;

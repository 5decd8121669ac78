//! What goes out of a task: the rows that its operator gives are packed into frames, which go over its
//! wire, or are kept to be handed on.
#![tactic(auto)]

mod keeper;
mod laws;
mod output;
mod way;

pub use keeper::Keeper;
pub use laws::output_cases;
pub use output::Output;
pub use way::Way;

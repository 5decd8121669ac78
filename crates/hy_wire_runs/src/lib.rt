//! Rows over the wires of a stage, from their writers to their takers: for tests and benchmarks.
#![tactic(auto)]

mod desk;
mod fault;
mod frames;
mod line;
mod merging;
mod reader;

pub use desk::new_desk;
pub use fault::WireFault;
pub use line::{Line, line_into};
pub use merging::merged;
pub use reader::{Left, Reader, Sink, read, reader_of};

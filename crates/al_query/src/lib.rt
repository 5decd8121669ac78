//! The commands of the program, over the texts and files that they read.
#![tactic(auto)]

mod accept;
mod answer;
mod command;
mod compiler;
mod data;
mod explain;
mod fault;
mod plan;
mod status;

pub use command::plain_command;
pub use compiler::{Compiled, compile};
pub use data::{MAX_ALL_DATA, MAX_DATA};
pub use fault::CompileFault;
pub use status::{DataRefused, Status};

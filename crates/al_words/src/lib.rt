//! The words of a command line, and the command that they ask for.
#![tactic(auto)]

mod command;
mod number;
mod options;
mod schedule;
mod verb;
mod words;

pub use command::{Command, one_command, read_words};
pub use schedule::Schedule;
pub use words::WordsFault;

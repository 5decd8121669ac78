//! The physical choice: how each operator of a logical plan is computed on partitions, and which
//! rows move between them.
#![tactic(auto)]

mod aggregate;
mod choice;
mod copies;
mod exchange;
mod group;
mod join;
mod order;
mod over;
mod size;

pub use choice::choose;

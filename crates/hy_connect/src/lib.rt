//! The wires between the tasks of a stage: what a task writes through, and what it takes from.
#![tactic(auto)]

mod laws;
mod merge;
mod outlet;
mod outlets;
mod route;
mod source;
mod spread;
mod stage_boxes;
mod taker;
mod writer;

pub use laws::{connect_cases, merge_cases, route_laws};
pub use merge::{MergeTaker, Merged};
pub use stage_boxes::boxes;
pub use taker::{Taken, WireTaker};
pub use writer::{Offer, WireWriter};

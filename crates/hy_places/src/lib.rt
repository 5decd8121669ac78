//! Where a task stands in its stage: the stage of its activity, its number there, the mailboxes from
//! which it takes and those into which it puts.
#![tactic(auto)]

mod boxes;
mod laws;
mod stage;
mod wires;

pub use boxes::{edge_from, edge_into, inboxes, outboxes};
pub use laws::{place_cases, place_laws};
pub use stage::{is_among, number_of, place_of, stage_of};
pub use wires::senders_count;

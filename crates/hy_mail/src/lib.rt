//! Mailboxes between the tasks of a stage: what a task puts into them, what its port to them and to the abort word
//! promises, and the mailboxes of one thread.
#![tactic(auto)]

mod desk;
mod desk_box;
mod laws;
mod mailbox;
mod parcel;
mod plan;
mod port;
mod rule;
mod seat_port;

pub use desk::{Desk, DeskPort};
pub use laws::{
    desk_cases, desk_laws, mail_cases, mail_laws, port_cases, port_laws, row_cases, row_laws,
    signal_laws, word_cases, word_laws,
};
pub use mailbox::{Mailbox, SendPass, TakePass};
pub use parcel::{Parcel, PutAnswer};
pub use plan::BoxPlan;
pub use port::Port;
pub use seat_port::{SeatParts, SeatPort};

//! Frames, which hold rows as bytes, the banks that frames are taken from, and what a writer of
//! frames is.
#![tactic(auto)]

mod bank;
mod bytes;
mod copy;
mod fault;
mod frame;
mod laws;
mod parse;
mod row;
mod writer;

pub use bank::{Bank, Counts, Sent};
pub use copy::FrameCopy;
pub use fault::NoMemory;
pub use frame::{Append, Frame};
pub use laws::{frame_cases, frame_laws};
pub use parse::{LoadFault, NotFrame, is_field, parse_frame};
pub use row::{MAX_FIELDS, RowBuf, RowRef};
pub use writer::{FrameWriter, WriterState};

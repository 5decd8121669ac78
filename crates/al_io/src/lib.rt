//! The outside: where bytes come from and where they go, each call's faults counted.
#![tactic(auto)]

mod mem;
mod real;
mod sink;
mod source;

pub use mem::{MemFile, MemSink, MemSource};
pub use real::{FolderSource, StreamSink};
pub use sink::{Sink, write_pieces, write_whole};
pub use source::{FileRead, ReadFault, Source, Whole, read_file, read_whole};

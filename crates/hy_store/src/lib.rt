//! Runs of frames outside a task's bank: where a task keeps what it has no room for, and what a task's operator may
//! answer.
#![tactic(auto)]

mod fault;
mod folder;
mod folder_shelf;
mod laws;
mod mem;
mod mem_shelf;
mod shelf;
mod slots;
mod store;

pub use fault::{Next, OpFault, StoreFault};
pub use folder::FolderStore;
pub use folder_shelf::FolderShelf;
pub use laws::{field_laws, store_cases, store_laws};
pub use mem::MemStore;
pub use mem_shelf::MemShelf;
pub use shelf::Shelf;
pub use store::RunStore;

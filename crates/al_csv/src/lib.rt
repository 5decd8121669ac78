//! Datasets as CSV: the rows of a data file, and the text of a result.
#![tactic(auto)]

mod decl;
mod field;
mod generator;
mod records;
mod refused;
mod row;
mod text;

pub use decl::{Column, Decl, Kind};
pub use generator::generate;
pub use records::load;
pub use refused::{BadRecord, DataKind, LoadRefused};
pub use text::out_text;

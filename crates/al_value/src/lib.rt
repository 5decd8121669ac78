//! The types on which every other crate stands: lists, names, texts, values and rows, and the
//! faults that many calls share.
#![tactic(auto)]

mod boxed;
mod fault;
mod field;
mod hash;
mod list;
mod name;
mod row;
mod settings;
mod text;
mod value;

pub use boxed::Boxed;
pub use fault::{Failed, NoMemory};
pub use field::{FieldFault, cmp_fields, get_field, put_field};
pub use hash::{hash_add, hash_start};
pub use list::List;
pub use name::Name;
pub use row::{Row, copy_rows};
pub use settings::{Settings, SortKey};
pub use text::{MAX_TEXT, Text, TextFault};
pub use value::{Value, cmp_values, eq3};

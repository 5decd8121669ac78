//! What the drivers of operators share: rows of values read out of rows of fields and put into them,
//! the order of rows by keys, and the steps of a driver that owes rows and gives them in order.
#![tactic(auto)]

mod laws;
mod order;
mod rows;

pub use laws::row_cases;
pub use order::cmp_rows;
pub use rows::{copy_row, put_cut, put_longer, put_row, values_in};

//! The drivers of operators that work on each row alone, and of those without inputs.
#![tactic(auto)]

mod laws;
mod source;
mod stream;
mod unnest;
mod work;

pub use laws::stream_cases;
pub use source::{One, Scan};
pub use stream::{Shape, Stream};
pub use unnest::Unnest;
pub use work::RowWork;

//! Plan text, read exactly.
#![tactic(auto)]

mod plan;
mod token;

pub use plan::{ReadRefused, one_plan_reading, read_plan};
pub use token::{MAX_PLAN, Placed, Token, TokensRefused, one_reading, read_tokens};

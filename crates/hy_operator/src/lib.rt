//! The operator that a task runs: the driver of its activity's kind, made of what the activity says
//! and of what it is given.
#![tactic(auto)]

mod alone;
mod copies;
mod given;
mod handing;
mod input;
mod laws;
mod make;
mod nested;
mod operator;
mod work;

pub use input::{OperatorInput, RowShape};
pub use laws::{operator_cases, operator_laws};
pub use operator::Operator;

//! What single calls of the parts of a task come to as steps of the task: a row that an input went on
//! to and the operator was fed, a row that the operator gave and the output packed, a parcel that was
//! taken or put.
#![tactic(auto)]

mod laws;

pub use laws::{HasPipeline, HasTask, pipeline_cases, pipeline_laws, task_laws};

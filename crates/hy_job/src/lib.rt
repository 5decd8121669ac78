//! Jobs as data: the activities of a physical plan over columns, the wires between them, and the
//! stages in which they run.
#![tactic(auto)]

mod chain;
mod job;
mod laws;
mod nested;
mod rows;
mod sort;
mod staging;
mod states;

pub use chain::{chain_laws, run_chain};
pub use job::{Activity, Block, Edge, GroupArg, Job, JoinArg, Kind, Stage, Wire};
pub use laws::{
    driver_laws, job_cases, mailbox_laws, output_laws, record_cases, record_laws, run_cases,
    wire_laws,
};
pub use nested::{AggRex, GenRex, NestedPlan};
pub use rows::{
    append_rows, assign_rows, assigned, column, cut, cut_rows, expand_rows, expanded,
    generator_items, holds, select_rows,
};
pub use sort::{cmp_keys, sort_rows};
pub use staging::stages;
pub use states::{
    add_row, add_rows, agg_of, agg_row, finish_states, put_states, start_states, state_cases,
};

//! Worked cases of physical plans: which parts they allow on two partitions, and which plans they
//! stand for.
#![tactic(auto)]

mod cases;

pub use cases::{each_part_cases, inner_cases, part_cases, stand_cases};

//! Tests of operators that work on one row after the other, and of those without inputs.
#![tactic(auto)]

#[cfg(test)]
mod drivers;
#[cfg(test)]
mod runs;
#[cfg(test)]
mod sources;

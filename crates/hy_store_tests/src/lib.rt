//! Tests of run stores and shelves.
#![tactic(auto)]

#[cfg(test)]
mod folders;
#[cfg(test)]
mod frames;
#[cfg(test)]
mod memory;
#[cfg(test)]
mod trips;

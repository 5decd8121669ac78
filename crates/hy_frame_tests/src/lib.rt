//! Tests of frames and banks.
#![tactic(auto)]

#[cfg(test)]
mod banks;
#[cfg(test)]
mod frames;
#[cfg(test)]
mod rows;
#[cfg(test)]
mod writers;

//! Tests of drivers.
#![tactic(auto)]

#[cfg(test)]
mod calls;
#[cfg(test)]
mod drivers;

//! Tests of the drivers of sorts and of aggregates without keys.
#![tactic(auto)]

#[cfg(test)]
mod aggregates;
#[cfg(test)]
mod calls;
#[cfg(test)]
mod rows;
#[cfg(test)]
mod sorts;

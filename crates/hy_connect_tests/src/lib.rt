//! Tests of wires: what comes to their receivers, as it was put, and which mailboxes there are.
#![tactic(auto)]

#[cfg(test)]
mod jobs;
#[cfg(test)]
mod merges;
#[cfg(test)]
mod places;
#[cfg(test)]
mod rows;
#[cfg(test)]
mod wires;

//! Tests of mailboxes.
#![tactic(auto)]

#[cfg(test)]
mod desks;
#[cfg(test)]
mod parcels;
#[cfg(test)]
mod ports;
#[cfg(test)]
mod shared;
#[cfg(test)]
mod threads;

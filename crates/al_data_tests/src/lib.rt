//! Tests of values, data and texts.
#![tactic(auto)]

#[cfg(test)]
mod aggregates;
#[cfg(test)]
mod data;
#[cfg(test)]
mod files;
#[cfg(test)]
mod functions;
#[cfg(test)]
mod values;
#[cfg(test)]
mod words;

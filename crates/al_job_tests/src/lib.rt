//! Tests of physical plans and of jobs.
#![tactic(auto)]

#[cfg(test)]
mod choosing;
#[cfg(test)]
mod jobs;
#[cfg(test)]
mod properties;
#[cfg(test)]
mod staging;
#[cfg(test)]
mod texts;

//! Tests of the drivers of groups and joins: what they give over small rows, beside the plain
//! evaluator's answer.
#![tactic(auto)]

#[cfg(test)]
mod answers;
#[cfg(test)]
mod groups;
#[cfg(test)]
mod joins;
#[cfg(test)]
mod texts;

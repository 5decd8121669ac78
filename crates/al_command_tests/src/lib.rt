//! Tests of the commands, from words and files to what is written, and of compiling.
#![tactic(auto)]

#[cfg(test)]
mod case;
#[cfg(test)]
mod commands;
#[cfg(test)]
mod compiling;
#[cfg(test)]
mod conjuncts;
#[cfg(test)]
mod edges;
#[cfg(test)]
mod evaluations;
#[cfg(test)]
mod explanations;
#[cfg(test)]
mod plans;
#[cfg(test)]
mod queries;

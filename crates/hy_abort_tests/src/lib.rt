//! Tests of the abort word.
#![tactic(auto)]

#[cfg(test)]
mod words;

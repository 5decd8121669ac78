//! Tests of plans, how they are read, accepted, evaluated and rewritten.
#![tactic(auto)]

#[cfg(test)]
mod acceptance;
#[cfg(test)]
mod conditions;
#[cfg(test)]
mod evaluation;
#[cfg(test)]
mod plans;
#[cfg(test)]
mod printing;
#[cfg(test)]
mod reading;
#[cfg(test)]
mod rewriting;
#[cfg(test)]
mod texts;
#[cfg(test)]
mod tokens;

//! Tests of nested plans: the row that is given over small rows, beside the plain evaluator's.
#![tactic(auto)]

mod nested;
mod texts;

//! An example, and promised as nothing more: how a program in Rattle calls the compiler as a library. Its query language knows
//! one question, the sum of pay in a department. A question becomes the text of a plan; `compile` refuses the text at a
//! byte, or gives the job for a number of partitions; `plain_command` answers over files in memory.
#![tactic(auto)]

#[cfg(test)]
mod question;

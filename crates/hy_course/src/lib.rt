//! The course of a task: what each of its steps may do to what it may still put, and why what it did
//! from its beginning to its end is a record that fits.
#![tactic(auto)]

mod laws;

pub use laws::{HasCourse, HasParts, course_cases, course_laws, made_laws, part_cases, part_laws};

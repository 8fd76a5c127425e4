//! Calls on a file, made one after the other and answered a line each: together they are a journal of the rules.
#![tactic(auto)]

pub mod calls;
pub mod laws;
pub mod making;
pub mod runs;

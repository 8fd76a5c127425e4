//! A script of actions on files, one a line.
#![tactic(auto)]

pub mod actions;
pub mod faults;
pub mod letters;
mod words;

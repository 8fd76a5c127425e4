//! Looks at an opened file: its nodes and their data, as they were at a count of finished transactions.
#![tactic(auto)]

mod compared;
mod found;
pub mod opened;
pub mod seen;

//! The parts of a section file in code: header, references, nodes, list fragments and log entries, decoded from any store.
#![tactic(auto)]

pub mod fetching;
mod forms;
pub mod headers;
pub mod nodes;
pub mod references;

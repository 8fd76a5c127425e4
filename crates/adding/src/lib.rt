//! What one add writes: a node behind its list's last or in a new fragment, and before it the data or the list that the node refers to.
#![tactic(auto)]

pub mod adds;
pub mod writes;

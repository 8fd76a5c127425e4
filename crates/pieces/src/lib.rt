//! The fragments of all lists, ordered by list and by the nodes before them, so that a node's fragment is found by a binary search.
#![tactic(auto)]

pub mod piece;
pub mod table;

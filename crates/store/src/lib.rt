//! Stores: a row of bytes with a length and a ceiling, for reading and for saving.
#![tactic(auto)]

pub mod base;
pub mod echoes;
pub mod flat_store;

//! Stores over memory that a caller lends, with no copy: `Lent` for reading, `LentMut` for saving too.
#![tactic(auto)]

pub mod lent;
pub mod lent_mut;

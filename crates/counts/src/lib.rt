//! The counts that the transactions of a log give its lists, and those that they gave after any number of transactions.
#![tactic(auto)]

pub mod changes;
mod lists;
pub mod table;

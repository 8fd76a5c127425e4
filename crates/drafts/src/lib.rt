//! What a draft has laid out: its end, the ends of the lists that it touched, and the fragments that it made.
#![tactic(auto)]

pub mod layout;
pub mod plan;
pub mod step;

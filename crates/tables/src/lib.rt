//! The tables of an opened file, and where its fragments may stand.
#![tactic(auto)]

pub mod fragments;
pub mod places;
pub mod queue;
pub mod room;

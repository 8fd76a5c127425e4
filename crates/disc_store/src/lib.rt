//! A store that hands each write on to a medium, so that the medium takes the writes in the very order in which they are planned.
#![tactic(auto)]

pub mod base;
pub mod handing;
pub mod laws;
pub mod on_disc;
pub mod record;
pub mod taking_up;

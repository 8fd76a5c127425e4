//! A section file over any store: opened, looked at, and added to.
#![tactic(auto)]

pub mod access;
pub mod bytes;
pub mod drafting;
pub mod files;
pub mod finishing;
pub mod knowing;
pub mod laws;
pub mod looking;
mod opening;
pub mod saving;
pub mod space;

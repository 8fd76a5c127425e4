//! The bytes of one write are put together in a buffer that never grows, and what is put there is read back.
#![tactic(auto)]

pub mod buffer;
pub mod laws;
pub mod parts;

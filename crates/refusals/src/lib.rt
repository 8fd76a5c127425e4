//! Why a file is not opened, and what each refusal tells.
#![tactic(auto)]

pub mod calls;
pub mod faults;

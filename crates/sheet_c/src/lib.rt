//! Section files for programs in other languages: a lent buffer is opened, listed, looked at, and extended by one transaction.
//! Each call opens the file anew, so that nothing stays between calls; `include/sheet.h` says what each does.
#![tactic(auto)]

pub mod extending;
pub mod looking;
pub mod shapes;

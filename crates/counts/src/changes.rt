//! One count that a transaction gave a list.

/// A list's new count, by its transaction's number from 1 on.
#[derive(Clone, Copy, PartialEq, Eq, Debug)]
pub struct Change {
    pub transaction: u64,
    pub list: u32,
    pub count: u32,
}

/// A list that has a count, and the index of its newest change.
#[derive(Clone, Copy, PartialEq, Eq, Debug)]
pub struct Counted {
    pub list: u32,
    pub newest: usize,
}

//! The end of a list, where its next node goes.
use model::types::Span;

/// The end of a list: the list's ID and the index of its row, its last fragment and that one's number in the list,
/// the place behind its last node, and its count.
#[derive(Clone, Copy, PartialEq, Eq, Debug)]
pub struct Tail {
    pub list: u32,
    pub row: usize,
    pub fragment: Span,
    pub number: u32,
    pub free: u64,
    pub count: u32,
}

//! A fragment of a list, as it is found again.
use model::types::Span;

/// A fragment of a list: the list's ID, how many of the list's nodes stand in the fragments before it, and the index of the list's row.
#[derive(Clone, Copy, PartialEq, Eq, Debug)]
pub struct Piece {
    pub list: u32,
    pub from: u32,
    pub row: usize,
    pub fragment: Span,
}

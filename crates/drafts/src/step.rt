//! What one add makes of a draft.
use pieces::piece::Piece;
use writing::tails::Tail;

/// What the draft is after an add: its numbers, the list's new tail and that of the list made, and the new fragments.
#[derive(Clone, Copy, PartialEq, Eq, Debug)]
pub struct Step {
    /// The list's tail before the add.
    pub before: Tail,
    pub end: u64,
    pub fragments: usize,
    pub lists: usize,
    pub highest: u32,
    pub tail: Tail,
    pub made: Option<Tail>,
    pub made_piece: Option<Piece>,
    pub piece: Option<Piece>,
}

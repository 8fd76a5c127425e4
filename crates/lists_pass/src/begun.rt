//! A list that was begun.
ghost use Rattle.std.specs.Prelude.{◌<◌, ◌≤◌, length};
ghost use Rattle.pieces.specs.Indexed.{piece};
ghost use Rattle.lists_pass.specs.ListPieces.{Puts};

use node_walk::fragments::ListFragment;
use pieces::piece::Piece;
use pieces::table::Pieces;

/// A list whose first fragment has passed: its ID, its count, that fragment, and where it stands among all.
#[derive(Clone, Copy, PartialEq, Eq, Debug)]
pub(crate) struct Begun {
    pub list: u32,
    pub count: u32,
    pub first: usize,
    pub fragment: ListFragment,
    ghost counted: { 1 ≤ count },
}

impl Begun {
    // Puts in the piece of one of the list's fragments, with `from` nodes before it and the index at which the list's row will stand.
    pub fn put_piece(self, pieces: &mut Pieces, row: usize, from: u32, fragment: ListFragment)
        ensures { length pieces.old.rows < 2048 → Puts (piece self.list from row fragment.span) pieces.old.rows pieces.new.rows }
    {
        let piece = Piece {
            list: self.list,
            from,
            row,
            fragment: fragment.span,
        };
        // there is room, since no more pieces are put in than fragments are taken in
        let _ = pieces.insert(piece);
    }
}

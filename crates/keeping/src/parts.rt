//! The rows and the fragments of the lists that a draft touched.
ghost use Rattle.std.specs.Prelude.{◌≡◌, ℕ, ◌+◌, ◌≤◌, length};
ghost use Rattle.pieces.specs.Found.{of_list};
ghost use Rattle.keeping.specs.Rows.{row_for, with_row, with_rows};
ghost use Rattle.keeping.specs.Pieces.{put_all};

use bounded::Bounded;
use model::limits::MOST_LISTS;
use pieces::piece::Piece;
use pieces::table::Pieces;
use tables::room::Row;
use writing::tails::Tail;

/// The rows of these lists are as their tails say; a list that has none gets one behind the others.
#[tactic(auto, using(crate::proofs::Loops::rows_step, crate::proofs::Loops::rows_end))]
pub(crate) fn keep_rows(rows: &mut Bounded<Row, MOST_LISTS>, touched: &[Tail])
    ensures { rows.new ≡ with_rows touched.now rows.old }
{
    for tail in touched {
        keep_row(rows, *tail);
    }
}

// The row of one list, as its tail says.
fn keep_row(rows: &mut Bounded<Row, MOST_LISTS>, tail: Tail)
    ensures { rows.new ≡ with_row tail rows.old }
{
    match rows.as_slice().get(tail.row).copied() {
        Some(row) => rows.set(tail.row, row_for(row.first, tail)),
        None => {
            // there is room, since a file never has more lists
            let _ = rows.push(row_for(0, tail));
        }
    }
}

// The row of the list with this tail, whose fragments stand from `first` on among all.
fn row_for(first: usize, tail: Tail) -> Row
    ensures { result ≡ row_for first tail }
{
    Row {
        id: tail.list,
        first,
        fragments: tail.number as usize + 1,
        nodes: tail.count,
        free: tail.free,
    }
}

/// Puts in the fragments that the draft made.
#[tactic(auto, using(crate::proofs::Loops::put_step, crate::proofs::Loops::put_end))]
pub(crate) fn keep_pieces(pieces: &mut Pieces, added: &[Piece])
    ensures { length pieces.old.rows + length added.now ≤ 2048 → (id : ℕ) → of_list id pieces.new.rows ≡ put_all added.now id (of_list id pieces.old.rows) }
{
    for piece in added {
        // there is room, since a file never has more fragments
        let _ = pieces.insert(*piece);
    }
}

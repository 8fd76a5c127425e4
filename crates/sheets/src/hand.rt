//! The drafts in hand. A draft may not be let go, so what holds drafts is only lent to what may fail.
ghost use Rattle.std.specs.Prelude.{◌≡◌, None};

use crate::files::Files;
use script::letters::Letter;
use section::drafting::Draft;
use std::array;
use std::io::{self, Write};

/// Whose a draft is: the file that began it, and its own letter.
#[derive(Clone, Copy, PartialEq, Eq, Debug)]
pub(crate) struct Owner {
    pub(crate) file: Letter,
    pub(crate) letter: Letter,
}

/// A draft in hand.
pub(crate) struct Held {
    pub(crate) owner: Owner,
    pub(crate) draft: Draft,
}

// In rows, since an array of what may not be let go ends only where each of its places is named.
const ROWS: usize = 5;

const IN_ROW: usize = 6;

type Row = [Option<Held>; IN_ROW];

/// The drafts in hand, with a place for each letter.
pub(crate) struct Hand {
    rows: [Row; ROWS],
}

impl Hand {
    /// With no draft.
    pub(crate) fn new() -> Hand {
        Hand {
            rows: array::from_fn(|_| array::from_fn(|_| None)),
        }
    }

    /// The place of a letter.
    pub(crate) fn place(&mut self, letter: Letter) -> &mut Option<Held> {
        let place = letter.place();
        &mut self.rows[place / IN_ROW][place % IN_ROW]
    }

    /// Abandons each draft that is still in hand, and tells so.
    pub(crate) fn end<W: Write>(self, files: &mut Files, out: &mut W) -> io::Result<()> {
        let Hand {
            rows: [a, b, c, d, e],
        } = self;
        end_row(a, files, out)
            .and(end_row(b, files, out))
            .and(end_row(c, files, out))
            .and(end_row(d, files, out))
            .and(end_row(e, files, out))
    }
}

fn end_row<W: Write>(row: Row, files: &mut Files, out: &mut W) -> io::Result<()> {
    let [a, b, c, d, e, f] = row;
    end_place(a, files, out)
        .and(end_place(b, files, out))
        .and(end_place(c, files, out))
        .and(end_place(d, files, out))
        .and(end_place(e, files, out))
        .and(end_place(f, files, out))
}

fn end_place<W: Write>(place: Option<Held>, files: &mut Files, out: &mut W) -> io::Result<()> {
    let Some(
        Held {
            owner: Owner { file, letter },
            draft,
        },
    ) = place
    else {
        return Ok(());
    };
    match files.or_spare(file).abandon(draft) {
        Ok(()) => writeln!(out, "draft {letter} of {file}: abandoned at the end"),
        Err(fault) => writeln!(out, "draft {letter} of {file}: refused at the end, {fault}"),
    }
}

/// Takes the draft out of a place, with whose it is: of an empty place, of this owner.
pub(crate) fn take(place: &mut Option<Held>, owner: Owner) -> (Owner, Option<Draft>)
    ensures { place.new ≡ None }
{
    match place.take() {
        Some(Held { owner, draft }) => (owner, Some(draft)),
        None => (owner, None),
    }
}

/// Puts what is in hand into its place, which is empty.
pub(crate) fn put(place: &mut Option<Held>, owner: Owner, hand: Option<Draft>)
    requires { place.old ≡ None }
{
    let Some(draft) = hand else {
        return;
    };
    match place.replace(Held { owner, draft }) {
        None => {}
        Some(_) => unreachable!(),
    }
}

//! The lines of a listing: numbers in columns of 12.
#![tactic(auto)]

ghost use Rattle.std.specs.Prelude.{◌≡◌, take, Some, None, IfOk};
ghost use Rattle.std.specs.Fmt.{WritesOnOk};
ghost use Rattle.std.specs.List.{flat_map};
ghost use Rattle.std.specs.Borrow.{sem};
ghost use Rattle.std.specs.Io.BufRead.{Rests};
ghost use Rattle.section.specs.contracts.files.File.{the_row};
ghost use Rattle.lines.specs.Lines.{found, listing};
ghost use Rattle.lines.specs.Left.{Left};
ghost use Rattle.lines.specs.Printed.{row_line, printed};

use columns::Line;
use model::types::Fault;
use section::access::Figures;
use section::files::File;
use section::space::Space;
use std::alloc::{AllocError, Global};
use std::fmt;
use store::base::Store;
use store::flat_store::Flat;
use tables::room::Row;

pub mod columns;

// A log in 65,536 bytes has at most this many entries.
const MOST_ENTRIES: usize = 8_192;

/// What is listed of a file: its figures, and then each list's ID, nodes and fragments; or, refused, the one line that tells why.
#[derive(Clone, Copy)]
pub enum Listing<'a> {
    Opened { figures: Figures, lists: &'a [Row] },
    Refused(Fault),
}

impl fmt::Display for Listing<'_> {
    ghost output = { λ l. Some (printed l) };

    fn fmt<W: fmt::Write>(&self, f: &mut fmt::Formatter<W>) -> fmt::Result {
        match *self {
            Listing::Opened { figures, lists } => {
                f.write(Line(&[
                    u64::from(figures.count),
                    figures.end,
                    figures.lists as u64,
                    figures.fragments as u64,
                    figures.percent,
                ]))?;
                put_lists(f, lists)
            }
            Listing::Refused(fault) => f.write(Line(&[
                u64::from(fault.number),
                u64::from(fault.layer),
                fault.place,
                u64::from(fault.list),
            ])),
        }
    }
}

// A line for each list.
fn put_lists<W: fmt::Write>(f: &mut fmt::Formatter<W>, lists: &[Row]) -> fmt::Result
    ensures { WritesOnOk W.write_str_gives f.old result (flat_map row_line lists.now) f.new }
{
    for row in lists {
        f.write(Line(&[
            u64::from(row.id),
            u64::from(row.nodes),
            row.fragments as u64,
        ]))?;
    }
    Ok(())
}

/// These bytes as a file that is not open, with room for as many counts as a log in 65,536 bytes has.
pub fn file_of(heap: Global, bytes: Vec<u8>) -> Result<File<Flat>, AllocError>
    ensures shut { IfOk result (λ f. f.access ≡ None) }
    ensures bytes { IfOk result (λ f. take f.store.len f.store.buffer.items ≡ bytes.items) }
    ensures room { IfOk result (λ f. f.room.counts.room ≡ 8192) }
{
    let len = bytes.len() as u64;
    let Ok(store) = Flat::new(bytes, len) else {
        unreachable!();
    };
    Ok(File::new(store, Space::new(heap, MOST_ENTRIES)?))
}

/// Opens a file, gives it a mark, and lists it: what is printed are the lines of what opening finds in the file's bytes.
#[tactic(auto, using(crate::proofs::OpenedLines::listed_lines))]
pub fn listed<S: Store>(file: &mut File<S>, mark: u64) -> Listing<'_>
    ensures lines { printed result ≡ listing (found file.old.access file.old.room.counts.room (S.Store.bytes file.old.store)) }
    ensures* leaves { sem 𝓛 (Rests (the_row S.row) file.entry (Left S.Store.bytes file.old mark)) }
{
    match file.open(mark) {
        Ok(figures) => Listing::Opened {
            figures,
            lists: file.lists(),
        },
        Err(fault) => Listing::Refused(fault.into()),
    }
}

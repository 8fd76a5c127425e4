//! Looks at a file.
use crate::answers::{Done, Trouble, told};
use crate::calls::ask_alone;
use crate::stores::Sheet;
use crc::crc32;
use journals::calls::{self, Call, Line, Seen};
use lines::Listing;
use script::actions::{Look, Place};
use std::alloc::{AllocError, Global};
use store::base::Store;

/// What a look at a file tells.
pub(crate) fn seen(heap: Global, file: &mut Sheet, look: Look) -> Result<Done, Trouble> {
    match look {
        Look::Node { at, room } => node(heap, file, at, room),
        Look::Piece {
            at,
            place,
            size,
            room,
        } => piece(heap, file, at, place, size, room),
        Look::Alike { at, list, index } => {
            let at = calls::Look::Alike {
                k: at.k,
                list: at.list,
                index: at.index,
                other_list: list,
                other_index: index,
            };
            told(ask_alone(heap, file, Call::Look(at))?)
        }
        Look::Bytes => Ok(Done::Row {
            len: file.store().len(),
            ceiling: file.store().ceiling(),
            crc: crc32(row(heap, file)?.as_slice()),
        }),
        Look::Dump => Ok(Done::Bytes(row(heap, file)?)),
        Look::List => listed(heap, file),
    }
}

fn node(heap: Global, file: &mut Sheet, at: Place, room: u64) -> Result<Done, Trouble> {
    let mut payload = buffer(heap, file, room)?;
    let at = calls::Look::Node {
        k: at.k,
        list: at.list,
        index: at.index,
        buffer: payload.as_mut_slice(),
    };
    match ask_alone(heap, file, Call::Look(at))? {
        Line::Saw(Seen::Node { node, buffer: _ }) => {
            let seen = node?;
            payload.truncate(seen.payload);
            Ok(Done::Node { seen, payload })
        }
        line => told(line),
    }
}

fn piece(
    heap: Global,
    file: &mut Sheet,
    at: Place,
    place: u64,
    size: u64,
    room: u64,
) -> Result<Done, Trouble> {
    let mut bytes = buffer(heap, file, room)?;
    let at = calls::Look::Data {
        k: at.k,
        list: at.list,
        index: at.index,
        place,
        size,
        buffer: bytes.as_mut_slice(),
    };
    told(ask_alone(heap, file, Call::Look(at))?)?;
    bytes.truncate(size as usize);
    Ok(Done::Bytes(bytes))
}

// A buffer for a look with so much room. What a look brings stands in the store, so no more is ever needed than that is long.
fn buffer(heap: Global, file: &Sheet, room: u64) -> Result<Vec<u8>, AllocError> {
    zeros(heap, room.min(file.store().len()))
}

// All bytes of a file's store.
fn row(heap: Global, file: &Sheet) -> Result<Vec<u8>, Trouble> {
    let store = file.store();
    let mut bytes = zeros(heap, store.len())?;
    store.read(0, bytes.len(), bytes.as_mut_slice())?;
    Ok(bytes)
}

fn zeros(heap: Global, n: u64) -> Result<Vec<u8>, AllocError> {
    vec![in heap; 0u8; n as usize]
}

// The file's figures, and its lists.
fn listed(heap: Global, file: &Sheet) -> Result<Done, Trouble> {
    let figures = file.figures()?;
    let listing = Listing::Opened {
        figures,
        lists: file.lists(),
    };
    Ok(Done::Listed(listing.to_string(heap)?))
}

//! The commands that add to a file.
use crate::arguments::{NewNode, NewWith};
use crate::opening::{Opened, open};
use crate::telling::Finished;
use crate::troubles::Trouble;
use crate::versions::version_after;
use crate::{Ended, transaction};
use adding::adds::{NewAdd, With};
use disc_store::taking_up::take_up;
use format::headers::header_at;
use std::fs::{self, Files};
use std::io::{Read, Write};
use std::time::{Clock, Duration};

// A fragment that is made, and the zeros behind it up to a place divisible by 8.
const PIECE_BYTES: u64 = 1024 + 8;

// A payload or data of more bytes is refused, however many they are.
const MOST_BYTES: u64 = 65_537;

/// Adds a node, and what comes with it, as one transaction.
pub(crate) fn add<'a, R: Files<File = fs::File> + AllocGlobal + Clock, W: Write>(
    rt: &R,
    new: NewNode<'a>,
    out: &mut W,
) -> Result<Ended, Trouble<'a>> {
    // all that is added is there before anything is written
    let payload = bytes_of(rt, new.payload)?;
    let more = match new.with {
        NewWith::Nothing => Vec::new(rt.alloc()),
        NewWith::Data(path)
        | NewWith::List {
            id: _,
            payload: path,
        } => bytes_of(rt, path)?,
    };
    let node = NewAdd {
        list: new.list,
        id: new.id,
        payload: payload.as_slice(),
        with: match new.with {
            NewWith::Nothing => With::Nothing,
            NewWith::Data(_) => With::Data(more.as_slice()),
            NewWith::List { id, payload: _ } => With::List {
                id,
                payload: more.as_slice(),
            },
        },
    };
    let (made, count) = saved(rt, new.file, node)?;
    tell(new, more.len(), made, count, out)?;
    Ok(Ended::Done)
}

// The bytes of a file, if none is too long to be added.
fn bytes_of<'a, R: Files + AllocGlobal>(rt: &R, path: &'a str) -> Result<Vec<u8>, Trouble<'a>> {
    let mut bytes = Vec::new(rt.alloc());
    let read = fs::open(rt, path).and_then(|file| file.take(MOST_BYTES).read_to_end(&mut bytes));
    match read {
        Ok(_) => Ok(bytes),
        Err(error) => Err(Trouble::File { path, error }),
    }
}

// Adds a node to a file on disc. The ID of a list that was made comes back, and how many transactions are then finished.
fn saved<'a, R: Files<File = fs::File> + AllocGlobal + Clock>(
    rt: &R,
    path: &'a str,
    node: NewAdd,
) -> Result<(Option<u32>, u32), Trouble<'a>> {
    let store = match take_up(rt, path, room_for(&node)) {
        Ok(store) => store,
        Err(error) => return Err(Trouble::File { path, error }),
    };
    let Opened { mut file, .. } = open(rt.alloc(), store)?;
    let version = version_after(
        &header_at(file.store()).version,
        rt.since_1970().unwrap_or(Duration::ZERO),
    );
    let done = transaction::add(rt.alloc(), &mut file, node, version)?;
    // what the file then answers is true of the disc only where that took each write
    if let Some(error) = file.store().trouble() {
        return Err(Trouble::Disc(error));
    }
    Ok((done?, file.figures()?.count))
}

// How many bytes a file may grow by: a fragment for the node, one for a new list and one for the log, and the data; and one piece more.
fn room_for(node: &NewAdd) -> u64 {
    let content = match node.with {
        With::Data(content) => content.len() as u64,
        With::Nothing | With::List { .. } => 0,
    };
    content.saturating_add(4 * PIECE_BYTES)
}

// Tells what was added.
fn tell<'a, W: Write>(
    new: NewNode<'a>,
    more: usize,
    made: Option<u32>,
    count: u32,
    out: &mut W,
) -> Result<(), Trouble<'a>> {
    write!(out, "added node {} to list {}", new.id, new.list)?;
    match new.with {
        NewWith::Nothing => {}
        NewWith::Data(_) => write!(out, ", with {more} bytes of data")?,
        NewWith::List { id, payload: _ } => {
            write!(out, ", and node {id} to the new list {}", made.unwrap_or(0))?;
        }
    }
    writeln!(out, "; {}", Finished(count))?;
    Ok(())
}

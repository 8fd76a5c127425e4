//! A section file, written by hand: two lists, three transactions, and a piece of data.
use model::marks::{FILE_FORMAT, FILE_TYPE, FIRST_MARK, LAST_MARK, NIL};
use model::types::Span;
use section::files::File;
use section::space::Space;
use std::test::Fail;
use store::base::{SavingStore, StoreFault};
use store::flat_store::Flat;

// The parts' places.
const ROOT: u64 = 1024;

pub(crate) const BRANCH: u64 = 1152;

const LOG: u64 = 1248;

pub(crate) const DATA: u64 = 1324;

const END: u64 = 1335;

fn put_span(store: &mut Flat, place: u64, start: u64, size: u64) -> Result<(), StoreFault> {
    store.write(place, &start.to_le_bytes())?;
    store.write(place.saturating_add(8), &size.to_le_bytes()[..4])
}

// A list's only fragment: its marks, its list, and no next reference.
fn put_fragment(store: &mut Flat, span: Span, list: u32) -> Result<(), StoreFault> {
    let end = span.start.saturating_add(span.size);
    store.write(span.start, &FIRST_MARK.to_le_bytes())?;
    store.write(span.start.saturating_add(8), &list.to_le_bytes())?;
    put_span(store, end.saturating_sub(20), NIL.start, NIL.size)?;
    store.write(end.saturating_sub(8), &LAST_MARK.to_le_bytes())
}

// A node's first four bytes, and its payload behind its reference, of which there are so many bytes.
fn put_node(
    store: &mut Flat,
    place: u64,
    head: u32,
    reference: u64,
    payload: &[u8],
) -> Result<(), StoreFault> {
    store.write(place, &head.to_le_bytes())?;
    store.write(place.saturating_add(4).saturating_add(reference), payload)
}

// The header, for so many finished transactions.
fn put_header(store: &mut Flat, count: u32) -> Result<(), StoreFault> {
    store.write(0x00, &FILE_TYPE)?;
    store.write(0x30, &FILE_FORMAT)?;
    store.write(0x4C, &0x2A_u32.to_le_bytes())?;
    store.write(0x60, &count.to_le_bytes())?;
    put_span(store, 0x94, NIL.start, NIL.size)?;
    put_span(store, 0xA0, LOG, 76)?;
    put_span(store, 0xAC, ROOT, 128)?;
    store.write(0xC4, &END.to_le_bytes())
}

// List 16: a node, one that refers to data, one like the first, one that refers to the other list, and a fifth.
fn put_root(store: &mut Flat) -> Result<(), StoreFault> {
    put_fragment(
        store,
        Span {
            start: ROOT,
            size: 128,
        },
        16,
    )?;
    put_node(store, 1040, 0x8000_2401, 0, b"plain")?;
    put_node(store, 1049, 0x8800_5002, 12, b"note")?;
    put_span(store, 1053, DATA, 11)?;
    put_node(store, 1069, 0x8000_2401, 0, b"plain")?;
    put_node(store, 1078, 0x9000_4003, 12, b"")?;
    put_span(store, 1082, BRANCH, 96)?;
    put_node(store, 1094, 0x8000_2004, 0, b"lost")
}

// List 17: a node like two of list 16, one with the same ID and another payload, and a third.
fn put_branch(store: &mut Flat) -> Result<(), StoreFault> {
    put_fragment(
        store,
        Span {
            start: BRANCH,
            size: 96,
        },
        17,
    )?;
    put_node(store, 1168, 0x8000_2401, 0, b"plain")?;
    put_node(store, 1177, 0x8000_2401, 0, b"plait")?;
    put_node(store, 1186, 0x8000_2005, 0, b"late")
}

// Entries of the log, back to back: sources and numbers.
fn put_entries(store: &mut Flat, entries: &[(u32, u32)]) -> Result<(), StoreFault> {
    let mut place = LOG;
    for (source, number) in entries {
        store.write(place, &source.to_le_bytes())?;
        store.write(place.saturating_add(4), &number.to_le_bytes())?;
        place = place.saturating_add(8);
    }
    put_span(store, place, NIL.start, NIL.size)
}

// Three transactions; the last one counts the fifth node of list 16 and the third of list 17.
fn put_log(store: &mut Flat) -> Result<(), StoreFault> {
    put_entries(
        store,
        &[
            (16, 3),
            (1, 0x0b2c_41ac),
            (16, 4),
            (17, 2),
            (1, 0x1382_b78a),
            (16, 5),
            (17, 3),
            (1, 0x309b_9c80),
        ],
    )
}

/// A file over the example that is not open, with so many finished transactions.
pub(crate) fn example(rt: &HostRuntime, count: u32) -> Result<File<Flat>, Fail> {
    let mut store = Flat::new(vec![in rt.alloc(); 0u8; 1335]?, END)?;
    put_header(&mut store, count)?;
    put_root(&mut store)?;
    put_branch(&mut store)?;
    put_log(&mut store)?;
    store.write(DATA, b"sample data")?;
    Ok(File::new(store, Space::new(rt.alloc(), 8)?))
}

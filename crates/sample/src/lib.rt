//! A sample section: two lists, a log of one transaction, and a piece of data; written by hand, so that it shows nothing of the code that it is read by.
#![tactic(auto)]

ghost use Rattle.std.specs.Prelude.{◌<◌};

use crc::crc32;
use model::marks::{FILE_FORMAT, FILE_TYPE, FIRST_MARK, LAST_MARK, NIL};
use model::types::Span;
use store::base::{SavingStore, StoreFault};

/// The sample's end.
pub const END: u64 = 4112;

// The parts' places; each fragment has 1,024 bytes.
const ROOT: u64 = 1024;

const LOG: u64 = 2048;

const BRANCH: u64 = 3072;

const DATA: u64 = 4096;

// A reference of a fixed form: the start in eight bytes, the size in four.
fn put_span<S: SavingStore>(store: &mut S, place: u64, span: Span) -> Result<(), StoreFault>
    requires { place < 5000 }
{
    store.write(place, &span.start.to_le_bytes())?;
    store.write(place + 8, &span.size.to_le_bytes()[..4])
}

// A fragment's marks, its list and its place in it, and no next reference.
fn put_fragment<S: SavingStore>(store: &mut S, place: u64, list: u32) -> Result<(), StoreFault>
    requires { place < 3500 }
{
    store.write(place, &FIRST_MARK.to_le_bytes())?;
    store.write(place + 8, &list.to_le_bytes())?;
    store.write(place + 12, &0u32.to_le_bytes())?;
    put_span(store, place + 1004, NIL)?;
    store.write(place + 1016, &LAST_MARK.to_le_bytes())
}

fn put_header<S: SavingStore>(store: &mut S) -> Result<(), StoreFault> {
    store.write(0x00, &FILE_TYPE)?;
    store.write(0x30, &FILE_FORMAT)?;
    store.write(0x4C, &0x2A_u32.to_le_bytes())?;
    store.write(0x60, &1u32.to_le_bytes())?;
    put_span(store, 0x94, NIL)?;
    put_span(
        store,
        0xA0,
        Span {
            start: LOG,
            size: 1024,
        },
    )?;
    put_span(
        store,
        0xAC,
        Span {
            start: ROOT,
            size: 1024,
        },
    )?;
    store.write(0xC4, &END.to_le_bytes())
}

// Three nodes: one that refers to nothing, one to data, one to the other list.
fn put_root<S: SavingStore>(store: &mut S) -> Result<(), StoreFault> {
    put_fragment(store, ROOT, 16)?;
    store.write(1040, &0x8000_2401_u32.to_le_bytes())?;
    store.write(1044, b"plain")?;
    store.write(1049, &0x8800_4002_u32.to_le_bytes())?;
    put_span(
        store,
        1053,
        Span {
            start: DATA,
            size: 11,
        },
    )?;
    store.write(1065, &0x9000_4003_u32.to_le_bytes())?;
    put_span(
        store,
        1069,
        Span {
            start: BRANCH,
            size: 1024,
        },
    )
}

fn put_branch<S: SavingStore>(store: &mut S) -> Result<(), StoreFault> {
    put_fragment(store, BRANCH, 17)?;
    store.write(3088, &0x8000_2404_u32.to_le_bytes())?;
    store.write(3092, b"first")?;
    store.write(DATA, b"sample data")
}

// One transaction: the root has three nodes, the other list one; and the sum of these entries.
fn put_log<S: SavingStore>(store: &mut S) -> Result<(), StoreFault> {
    let entries = [16u8, 0, 0, 0, 3, 0, 0, 0, 17, 0, 0, 0, 1, 0, 0, 0];
    store.write(LOG, &entries)?;
    store.write(2064, &1u32.to_le_bytes())?;
    store.write(2068, &crc32(&entries).to_le_bytes())?;
    put_span(store, 3056, NIL)
}

/// Lays the sample out in a store that is as long as the sample.
pub fn lay_out<S: SavingStore>(store: &mut S) -> Result<(), StoreFault> {
    put_header(store)?;
    put_root(store)?;
    put_log(store)?;
    put_branch(store)
}

//! Opening the header: the store is long enough, type and format are right, the code may read it, and a transaction is finished.
#![tactic(auto)]

ghost use Rattle.std.specs.Prelude.{◌≡◌, ◌+◌, ◌≤◌, length};
ghost use Rattle.model.specs.Bytes.{piece, same_row};
ghost use Rattle.header_pass.specs.HeaderRead.{ReadsHeader};

use crate::checked::CheckedHeader;
use format::fetching::{bytes_at, number_at};
use format::headers::header_at;
use model::marks::{FILE_FORMAT, FILE_TYPE};
use refusals::faults::HeaderFault;
use store::base::Store;

pub mod checked;

// The newest code that a file may ask for.
const NEWEST: u32 = 0x2A;

// No file is longer.
const LONGEST: u64 = 1 << 40;

/// The header's fields, if its rules hold; else the first that is broken.
#[tactic(auto, unfolding(model::specs::Bytes::digits))]
pub fn check_header<S: Store>(store: &S) -> Result<CheckedHeader, HeaderFault>
    ensures { ReadsHeader (S.Store.bytes store.now) result }
{
    let len = store.len();
    if len < 1024 {
        return Err(HeaderFault::Short { place: 0 });
    }
    let header = header_at(store);
    if len < header.end || header.end < 1024 || header.end > LONGEST {
        return Err(HeaderFault::Short { place: 0xC4 });
    }
    if !stands_at(store, 0x00, &FILE_TYPE) {
        return Err(HeaderFault::Strange { place: 0x00 });
    }
    if !stands_at(store, 0x30, &FILE_FORMAT) {
        return Err(HeaderFault::Strange { place: 0x30 });
    }
    if number_at::<u32, _>(store, 0x4C) > NEWEST {
        return Err(HeaderFault::Newer);
    }
    if header.count == 0 {
        return Err(HeaderFault::Bare);
    }
    Ok(CheckedHeader { header })
}

// Whether these bytes stand at `place` of a store that has as many there.
fn stands_at<S: Store>(store: &S, place: u64, bytes: &[u8; 16]) -> bool
    ensures { place + 16 ≤ length (S.Store.bytes store.now) → result ≡ same_row (piece (S.Store.bytes store.now) place 16) bytes.now }
{
    bytes_at::<_, 16>(store, place) == *bytes
}

//! The header's fields.
ghost use Rattle.std.specs.Prelude.{◌≡◌, ◌≤◌, length};
ghost use Rattle.model.specs.Headers.{header_at};

use crate::fetching::{bytes_at, number_at};
use crate::references::span_at;
use model::types::Header;
use store::base::Store;

/// The header's fields that are used, of a store that has a whole header.
#[tactic(auto, using(crate::proofs::Fetched::piece_window))]
pub fn header_at<S: Store>(store: &S) -> Header
    ensures { 1024 ≤ length (S.Store.bytes store.now) → result ≡ header_at (S.Store.bytes store.now) }
{
    Header {
        count: number_at(store, 0x60),
        end: number_at(store, 0xC4),
        generation: number_at(store, 0xE4),
        version: bytes_at(store, 0xD4),
        hashed: span_at(store, 0x94),
        log: span_at(store, 0xA0),
        root: span_at(store, 0xAC),
    }
}

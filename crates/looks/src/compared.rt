//! Whether two pieces of a store are the same.
ghost use Rattle.std.specs.Prelude.{◌≡◌, ◌+◌, ◌≤◌, length};
ghost use Rattle.model.specs.Bytes.{piece, same_row};
ghost use Rattle.model.specs.References.{end_of};

use format::fetching::bytes_at;
use model::types::Span;
use store::base::Store;

// How many bytes of each piece are in memory at once.
const CHUNK: usize = 256;

/// Whether two pieces of a store have the same bytes.
#[tactic(auto, using(crate::proofs::Comparing::other_size))]
pub(crate) fn same_pieces<S: Store>(store: &S, one: Span, other: Span) -> bool
    ensures { end_of one ≤ length (S.Store.bytes store.now) → end_of other ≤ length (S.Store.bytes store.now) → result ≡ same_row (piece (S.Store.bytes store.now) one.start one.size) (piece (S.Store.bytes store.now) other.start other.size) }
{
    one.size == other.size && same_bytes(store, one.start, other.start, one.size)
}

// Whether the `size` bytes at two places are the same, chunk by chunk.
fn same_bytes<S: Store>(store: &S, one: u64, other: u64, size: u64) -> bool
    ensures { one + size ≤ length (S.Store.bytes store.now) → other + size ≤ length (S.Store.bytes store.now) → result ≡ same_row (piece (S.Store.bytes store.now) one size) (piece (S.Store.bytes store.now) other size) }
{
    let mut at = 0;
    while at < size {
        let n = (size - at).min(CHUNK as u64);
        let (here, there) = (one.saturating_add(at), other.saturating_add(at));
        if !same_chunk(store, here, there, n as usize) {
            return false;
        }
        at += n;
    }
    true
}

// Whether the `n` bytes at two places are the same, all in memory at once.
#[tactic(auto, using(crate::proofs::Comparing::same_fronts))]
fn same_chunk<S: Store>(store: &S, one: u64, other: u64, n: usize) -> bool
    requires { n ≤ CHUNK }
    ensures { one + n ≤ length (S.Store.bytes store.now) → other + n ≤ length (S.Store.bytes store.now) → result ≡ same_row (piece (S.Store.bytes store.now) one n) (piece (S.Store.bytes store.now) other n) }
{
    let first: [u8; CHUNK] = bytes_at(store, one);
    let second: [u8; CHUNK] = bytes_at(store, other);
    first[..n] == second[..n]
}

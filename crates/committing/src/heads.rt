//! The file's first bytes, which a commit writes last.
ghost use Rattle.std.specs.Prelude.{◌≡◌, ◌+◌, ◌≤◌, ◌<◌, ◌^◌, length, take};
ghost use Rattle.model.specs.Bytes.{written, applied};
ghost use Rattle.committing.specs.Heads.{head_changes};

use model::types::Header;
use store::base::Store;

// So many bytes are written at once.
const HEAD_BYTES: usize = 512;

/// The bytes that the store begins with.
#[tactic(auto, using(crate::proofs::Parts::read_first))]
pub fn first_bytes<S: Store>(store: &S) -> [u8; HEAD_BYTES]
    ensures { 512 ≤ length (S.Store.bytes store.now) → result ≡ take 512 (S.Store.bytes store.now) }
{
    let mut head = [0; HEAD_BYTES];
    // a finished file has more, so this is never refused
    let _ = store.read(0, HEAD_BYTES, &mut head);
    head
}

/// The header's fields as a commit leaves them: count and generation one higher, and the new end and GUID.
#[tactic(auto, using(crate::proofs::Fields::count_bytes, crate::proofs::Fields::place_bytes), unfolding(model::specs::Bytes::applied))]
pub fn change_head(head: &mut [u8; HEAD_BYTES], header: &Header, end: u64, guid: &[u8; 16])
    ensures { header.now.count + 1 < 2 ^ 32 → header.now.generation + 1 < 2 ^ 64 → head.new ≡ applied head.old (head_changes header.now end guid.now) }
{
    set_field(head, 0x60, &header.count.saturating_add(1).to_le_bytes());
    set_field(head, 0xC4, &end.to_le_bytes());
    set_field(head, 0xD4, guid);
    set_field(
        head,
        0xE4,
        &header.generation.saturating_add(1).to_le_bytes(),
    );
}

// Puts a field's bytes at `place`.
#[tactic(auto, unfolding(model::specs::Bytes::written))]
fn set_field(head: &mut [u8; HEAD_BYTES], place: usize, field: &[u8])
    requires { place + length field.now ≤ 512 }
    ensures { head.new ≡ written head.old place field.now }
{
    head[place..place + field.len()].copy_from_slice(field);
}

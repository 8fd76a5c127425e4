//! Written once, over any store.
ghost use Rattle.std.specs.Prelude.{◌≡◌, ℕ, ◌≤◌, List, ◌++◌, length, drop, MatchResult};
ghost use Rattle.model.specs.Bytes.{written};
ghost use Rattle.store.specs.Rows.{Echoes};

use crate::base::{SavingStore, Store, StoreFault};

// Reads back what was just written. The bytes are there, so the read is done.
fn read_back<S: Store>(
    store: &S,
    place: u64,
    new: &[u8],
    buffer: &mut [u8],
) -> Result<(), StoreFault>
    requires stands { (row : List ℕ) × (place ≤ length row) × (S.Store.bytes store.now ≡ written row place new.now) }
    requires room { length new.now ≤ length buffer.old }
    ensures { MatchResult result (λ _. buffer.new ≡ new.now ++ drop (length new.now) buffer.old) (λ _. ⊥) }
{
    store.read(place, new.len(), buffer)
}

/// Writes bytes and reads them back.
pub fn echo<S: SavingStore>(
    store: &mut S,
    place: u64,
    new: &[u8],
    buffer: &mut [u8],
) -> Result<(), StoreFault>
    ensures { Echoes (S.Store.bytes store.old) (S.Store.most store.old) place new.now (S.Store.bytes store.new) buffer.old buffer.new result }
{
    if buffer.len() < new.len() {
        return Err(StoreFault::Range);
    }
    store.write(place, new)?;
    read_back(store, place, new, buffer)
}

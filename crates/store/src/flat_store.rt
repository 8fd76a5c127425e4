//! One buffer with a length; its size is the ceiling.
ghost use Rattle.std.specs.Prelude.{◌≡◌, ℕ, ◌+◌, ◌<◌, ◌≤◌, ◌++◌, length, take, drop, vec_len, MatchResult, slice_index, refl};
ghost use Rattle.std.proofs.Common.{◌∙◌, rules};
ghost use Rattle.model.specs.Bytes.{piece, written, applied};
ghost use Rattle.model.specs.Faults.{fault};
ghost use Rattle.store.specs.Refusals.{told};
ghost use Rattle.store.specs.RowsLemmas.{byte_take, applied_more};

use crate::base::{NotMade, SavingStore, Store, StoreFault, has_room};

// The buffer is lent whole: its size is the ceiling, and the bytes behind the length stay as they were lent.
#[derive(Drop)]
pub struct Flat {
    buffer: Vec<u8>,
    len: usize,
    ghost within: { len ≤ vec_len buffer },
    ghost byte: { (k : ℕ) → slice_index buffer.items k < 256 },
}

impl Flat {
    /// The buffer's first `len` bytes as a store, made exactly when the buffer has so many.
    pub fn new(buffer: Vec<u8>, len: u64) -> Result<Flat, NotMade<Vec<u8>>>
        ensures { MatchResult result (λ f. (len ≤ vec_len buffer) × (f.buffer ≡ buffer) × (f.len ≡ len)) (λ e. (len ≤ vec_len buffer → ⊥) × (e.parts ≡ buffer) × (told e.fault ≡ fault 28 6 0 0)) }
    {
        if len as usize > buffer.len() {
            return Err(NotMade {
                parts: buffer,
                fault: StoreFault::Map,
            });
        }
        Ok(Flat {
            buffer,
            len: len as usize,
        })
    }

    // Copies `n` bytes at `p` to the front of `into`.
    #[tactic(auto, unfolding(model::specs::Bytes::piece))]
    fn copy_out(&self, p: usize, n: usize, into: &mut [u8])
        requires row { p + n ≤ self.now.len }
        requires buffer { n ≤ length into.old }
        ensures { into.new ≡ piece (take self.now.len self.now.buffer.items) p n ++ drop n into.old }
    {
        into[..n].copy_from_slice(&self.buffer[p..p + n]);
    }

    // Puts bytes at `p`, and the end behind them where they pass it.
    fn paste(&mut self, p: usize, new: &[u8])
        requires start { p ≤ self.old.len }
        requires end { p + length new.now ≤ vec_len self.old.buffer }
        ensures row { take self.new.len self.new.buffer.items ≡ written (take self.old.len self.old.buffer.items) p new.now }
        ensures size { vec_len self.new.buffer ≡ vec_len self.old.buffer }
    {
        let end = p + new.len();
        self.buffer[p..end].copy_from_slice(new);
        self.len = self.len.max(end);
    }
}

impl Store for Flat {
    ghost bytes = { λ s. take s.len s.buffer.items };

    ghost most = { λ s. vec_len s.buffer };

    ghost within = { Prim.search rules };

    ghost fits = { Prim.search rules };

    ghost byte = { λ s k. byte_take _ _ k (λ i h. s.byte i) };

    fn len(&self) -> u64 {
        self.len as u64
    }

    fn ceiling(&self) -> u64 {
        self.buffer.len() as u64
    }

    fn read(&self, place: u64, n: usize, buffer: &mut [u8]) -> Result<(), StoreFault> {
        // The test is each store's own: one over any store would call `len` through the trait inside its impl, which gets no proof.
        let p = place as usize;
        if p > self.len || n > self.len - p || n > buffer.len() {
            return Err(StoreFault::Range);
        }
        self.copy_out(p, n, buffer);
        Ok(())
    }
}

impl SavingStore for Flat {
    ghost wrote = { λ s ws t. (take t.len t.buffer.items ≡ applied (take s.len s.buffer.items) ws) × (vec_len t.buffer ≡ vec_len s.buffer) };

    ghost none = { unfold applied in λ s. (refl, refl) };

    ghost more = { λ s t u a b p q. (applied_more _ _ _ a b p.0 q.0, q.1 ∙ p.1) };

    ghost stands = { λ s t a made. made.0 };

    ghost lasts = { λ s t a made. made.1 };

    #[tactic(auto, unfolding(model::specs::Bytes::applied))]
    fn write(&mut self, place: u64, new: &[u8]) -> Result<(), StoreFault> {
        if !has_room(self, place, new.len()) {
            return Err(StoreFault::Range);
        }
        self.paste(place as usize, new);
        Ok(())
    }
}

//! A lent buffer with a length, for saving; its size is the ceiling.
ghost use Rattle.std.specs.Prelude.{◌≡◌, ℕ, ◌+◌, ◌^◌, ◌<◌, ◌≤◌, min, ◌++◌, length, take, drop, MatchResult, IfOk, slice_index, refl};
ghost use Rattle.std.proofs.Common.{◌∙◌, rules};
ghost use Rattle.model.specs.Bytes.{piece, written, applied};
ghost use Rattle.model.specs.Faults.{fault};
ghost use Rattle.store.specs.Refusals.{told};
ghost use Rattle.store.specs.RowsLemmas.{byte_take, applied_more};

use store::base::{SavingStore, Store, StoreFault, has_room};

/// The first `len` bytes of a buffer that a caller lends. What is written stands in that buffer, and the bytes behind the length stay as they were lent.
#[derive(Drop)]
pub struct LentMut<'a> {
    buffer: &'a mut [u8],
    len: usize,
    ghost within: { len ≤ length buffer.now },
    ghost fits: { length buffer.now < 2 ^ 64 },
    ghost byte: { (k : ℕ) → slice_index buffer.now k < 256 },
}

impl<'a> LentMut<'a> {
    /// The buffer's first `len` bytes as a store, made exactly when the buffer has so many.
    pub fn new(buffer: &'a mut [u8], len: u64) -> Result<LentMut<'a>, StoreFault>
        ensures made { MatchResult result (λ s. (len ≤ length buffer.old) × (s.buffer.now ≡ buffer.old) × (s.len ≡ len)) (λ e. (len ≤ length buffer.old → ⊥) × (told e ≡ fault 28 6 0 0)) }
        ensures same { IfOk result (λ s. s.buffer.ghost_name ≡ buffer.entry.ghost_name) }
    {
        if len as usize > buffer.len() {
            return Err(StoreFault::Map);
        }
        Ok(LentMut::up_to(buffer, len))
    }

    /// The buffer's first `len` bytes as a store, or all that it has. A proof follows the loan through this one: it cannot through a `Result`.
    pub fn up_to(buffer: &'a mut [u8], len: u64) -> LentMut<'a>
        ensures bytes { result.buffer.now ≡ buffer.old }
        ensures len { result.len ≡ min len (length buffer.old) }
        ensures same { result.buffer.ghost_name ≡ buffer.entry.ghost_name }
    {
        let len = buffer.len().min(len as usize);
        LentMut { buffer, len }
    }

    // Copies `n` bytes at `p` to the front of `into`.
    #[tactic(auto, unfolding(model::specs::Bytes::piece))]
    fn copy_out(&self, p: usize, n: usize, into: &mut [u8])
        requires row { p + n ≤ self.now.len }
        requires buffer { n ≤ length into.old }
        ensures { into.new ≡ piece (take self.now.len self.now.buffer.now) p n ++ drop n into.old }
    {
        into[..n].copy_from_slice(&self.buffer[p..p + n]);
    }

    // Puts bytes at `p`, and the end behind them where they pass it.
    fn paste(&mut self, p: usize, new: &[u8])
        requires start { p ≤ self.old.len }
        requires end { p + length new.now ≤ length self.old.buffer.now }
        ensures row { take self.new.len self.new.buffer.now ≡ written (take self.old.len self.old.buffer.now) p new.now }
        ensures size { length self.new.buffer.now ≡ length self.old.buffer.now }
        ensures same { self.new.buffer.ghost_name ≡ self.old.buffer.ghost_name }
    {
        let end = p + new.len();
        self.buffer[p..end].copy_from_slice(new);
        self.len = self.len.max(end);
    }
}

impl Store for LentMut<'_> {
    ghost bytes = { λ s. take s.len s.buffer.now };

    ghost most = { λ s. length s.buffer.now };

    ghost within = { Prim.search rules };

    ghost fits = { λ s. s.fits };

    ghost byte = { λ s k. byte_take _ _ k (λ i h. s.byte i) };

    fn len(&self) -> u64 {
        self.len as u64
    }

    fn ceiling(&self) -> u64 {
        self.buffer.len() as u64
    }

    fn read(&self, place: u64, n: usize, buffer: &mut [u8]) -> Result<(), StoreFault> {
        let p = place as usize;
        if p > self.len || n > self.len - p || n > buffer.len() {
            return Err(StoreFault::Range);
        }
        self.copy_out(p, n, buffer);
        Ok(())
    }
}

// The trail tells too that the buffer stays the one that was lent.
impl SavingStore for LentMut<'_> {
    ghost wrote = { λ s ws t. (take t.len t.buffer.now ≡ applied (take s.len s.buffer.now) ws) × (length t.buffer.now ≡ length s.buffer.now) × (t.buffer.ghost_name ≡ s.buffer.ghost_name) };

    ghost none = { unfold applied in λ s. (refl, refl, refl) };

    ghost more = { λ s t u a b p q. (applied_more _ _ _ a b p.0 q.0, q.1 ∙ p.1, q.2 ∙ p.2) };

    ghost stands = { λ s t a made. made.0 };

    ghost lasts = { λ s t a made. made.1 };

    #[tactic(auto, unfolding(model::specs::Bytes::applied))]
    fn write(&mut self, place: u64, new: &[u8]) -> Result<(), StoreFault> {
        if !has_room(self, place, new.len()) {
            return Err(StoreFault::Range);
        }
        self.paste(place as usize, new);
        Ok(())
    }
}

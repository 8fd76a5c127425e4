//! Lent bytes, for reading.
ghost use Rattle.std.specs.Prelude.{◌≡◌, ℕ, ◌+◌, ◌^◌, ◌<◌, ◌≤◌, ◌++◌, length, drop, slice_index};
ghost use Rattle.std.proofs.Common.{rules};
ghost use Rattle.model.specs.Bytes.{piece};

use store::base::{Store, StoreFault};

/// The bytes that a caller lends as a store for reading: all of them, with no room behind.
#[derive(Drop)]
pub struct Lent<'a> {
    bytes: &'a [u8],
    ghost fits: { length bytes.now < 2 ^ 64 },
    ghost byte: { (k : ℕ) → slice_index bytes.now k < 256 },
}

impl<'a> Lent<'a> {
    /// Lent bytes as a store.
    pub fn new(bytes: &'a [u8]) -> Lent<'a>
        ensures { result.bytes.now ≡ bytes.now }
    {
        Lent { bytes }
    }

    // Copies `n` bytes at `p` to the front of `into`.
    #[tactic(auto, unfolding(model::specs::Bytes::piece))]
    fn copy_out(&self, p: usize, n: usize, into: &mut [u8])
        requires row { p + n ≤ length self.now.bytes.now }
        requires buffer { n ≤ length into.old }
        ensures { into.new ≡ piece self.now.bytes.now p n ++ drop n into.old }
    {
        into[..n].copy_from_slice(&self.bytes[p..p + n]);
    }
}

impl Store for Lent<'_> {
    ghost bytes = { λ s. s.bytes.now };

    ghost most = { λ s. length s.bytes.now };

    ghost within = { Prim.search rules };

    ghost fits = { λ s. s.fits };

    ghost byte = { λ s k. s.byte k };

    fn len(&self) -> u64 {
        self.bytes.len() as u64
    }

    fn ceiling(&self) -> u64 {
        self.bytes.len() as u64
    }

    fn read(&self, place: u64, n: usize, buffer: &mut [u8]) -> Result<(), StoreFault> {
        let p = place as usize;
        if p > self.bytes.len() || n > self.bytes.len() - p || n > buffer.len() {
            return Err(StoreFault::Range);
        }
        self.copy_out(p, n, buffer);
        Ok(())
    }
}

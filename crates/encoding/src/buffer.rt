//! A buffer with all of its room reserved, so that nothing allocates later.
ghost use Rattle.std.specs.Prelude.{◌≡◌, ◌+◌, ◌≤◌, [], length, IfOk, if◌then◌else◌, is_ok, vec_len, vec_capacity, nat_le, Some, codes};
ghost use Rattle.model.specs.Bytes.{digits, written};
ghost use Rattle.encoding.specs.Buffers.{pushed, to_eight, zeros};

use std::alloc::{AllocError, Global};
use std::error::Error;
use std::fmt;

/// A buffer takes so many bytes: data of 65,536 with the zeros behind it.
pub const MOST_BYTES: usize = 65544;

// A number has so many bytes; those past them are 0.
const NUMBER_BYTES: usize = 8;

/// The bytes would pass the end of what is there.
#[derive(Clone, Copy, Debug, PartialEq, Eq)]
pub struct OutOfRange;

impl fmt::Display for OutOfRange {
    ghost output = { λ _. Some (codes "the bytes pass the end of what is there") };

    fn fmt<W: fmt::Write>(&self, f: &mut fmt::Formatter<W>) -> fmt::Result {
        f.write_str("the bytes pass the end of what is there")
    }
}

impl Error for OutOfRange {}

/// The bytes of one write; a full buffer takes no more.
// It has a `Vec` of its own, since it takes as much of a row as there is room for; a `Bounded` takes one value at a time.
#[derive(Drop)]
pub struct WriteBuffer {
    bytes: Vec<u8>,
    ghost room: { 65544 ≤ vec_capacity bytes },
    ghost few: { vec_len bytes ≤ 65544 },
}

impl WriteBuffer {
    /// An empty buffer.
    pub fn new(heap: Global) -> Result<WriteBuffer, AllocError>
        ensures { IfOk result (λ b. b.bytes.items ≡ []) }
    {
        Ok(WriteBuffer {
            bytes: Vec::with_capacity(heap, MOST_BYTES)?,
        })
    }

    /// Lets the bytes go; the room stays.
    pub fn clear(&mut self)
        ensures { self.new.bytes.items ≡ [] }
    {
        self.bytes.clear();
    }

    pub fn as_slice(&self) -> &[u8]
        ensures { result.now ≡ self.now.bytes.items }
    {
        self.bytes.as_slice()
    }

    pub fn len(&self) -> usize
        ensures { result ≡ length self.now.bytes.items }
    {
        self.bytes.len()
    }

    /// Puts bytes behind the others, as many as there is room for.
    #[tactic(auto, using(crate::proofs::Pushes::push_of_part))]
    pub fn push_bytes(&mut self, new: &[u8])
        ensures { self.new.bytes.items ≡ pushed self.old.bytes.items new.now }
    {
        let room = MOST_BYTES - self.bytes.len();
        let n = new.len().min(room);
        // the room is reserved, so this never fails
        self.bytes.extend_from_slice(&new[0..n]).unwrap();
    }

    /// Puts zeros behind the bytes, as many as there is room for.
    #[tactic(auto, using(crate::proofs::Pushes::push_of_zeros))]
    pub fn push_zeros(&mut self, n: usize)
        ensures { self.new.bytes.items ≡ pushed self.old.bytes.items (zeros n) }
    {
        let len = self.bytes.len();
        let end = len + n.min(MOST_BYTES - len);
        // the room is reserved, so this never fails
        self.bytes.resize(end, 0).unwrap();
    }

    /// Puts the lowest `width` bytes of a number behind the others, the lowest first.
    #[tactic(auto, using(crate::proofs::Pushes::pushed_both, crate::proofs::Widths::digits_split))]
    pub fn push_number(&mut self, width: usize, v: u64)
        ensures { self.new.bytes.items ≡ pushed self.old.bytes.items (digits width v) }
    {
        let bytes = v.to_le_bytes();
        let n = width.min(NUMBER_BYTES);
        self.push_bytes(&bytes[0..n]);
        self.push_zeros(width - n);
    }

    /// Zeros up to the next place divisible by 8, where the buffer's first byte goes to `place`.
    pub fn pad(&mut self, place: u64)
        ensures { self.new.bytes.items ≡ pushed self.old.bytes.items (zeros (to_eight (place + length self.old.bytes.items))) }
    {
        // remainders, since the sum of the two may pass 2^64
        let past = (place % 8) as usize + self.bytes.len() % 8;
        self.push_zeros((8 - past % 8) % 8);
    }

    /// Puts bytes in place of those at `place` and on, unless they would pass the end.
    #[tactic(auto, unfolding(model::specs::Bytes::written))]
    pub fn set_at(&mut self, place: usize, new: &[u8]) -> Result<(), OutOfRange>
        ensures answer { is_ok result ≡ nat_le (place + length new.now) (length self.old.bytes.items) }
        ensures row { self.new.bytes.items ≡ (if is_ok result then written self.old.bytes.items place new.now else self.old.bytes.items) }
    {
        let end = place.checked_add(new.len()).ok_or(OutOfRange)?;
        if end > self.bytes.len() {
            return Err(OutOfRange);
        }
        self.bytes[place..end].copy_from_slice(new);
        Ok(())
    }
}

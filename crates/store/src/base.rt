//! What a store is, and what its refusals tell.
ghost use Rattle.std.specs.Prelude.{◌≡◌, ℕ, ◌+◌, ◌^◌, ◌<◌, ◌≤◌, List, [], ◌++◌, length, Decides, Some, slice_index};
ghost use Rattle.model.specs.Bytes.{Write, put, applied};
ghost use Rattle.model.specs.Words.{fault_text};
ghost use Rattle.store.specs.Refusals.{told};
ghost use Rattle.store.specs.Rows.{Reads, Writes, if_done};

use model::types::Fault;
use std::error::Error;
use std::fmt;

/// Why a store, or the making of one, refuses.
#[derive(Clone, Copy, PartialEq, Eq, Debug)]
pub enum StoreFault {
    /// A read or write passes the store or the buffer.
    Range,
    /// A card's map is not 1 to 128 different blocks of its buffer, or a length passes the ceiling.
    Map,
    /// A cover hides more than 8 blocks, or more than the store has.
    Cover,
}

/// What the refusal tells.
impl From<StoreFault> for Fault {
    ghost from_gives = { λ f r. r ≡ told f };

    fn from(f: StoreFault) -> Fault {
        let number = match f {
            StoreFault::Range => 27,
            StoreFault::Map => 28,
            StoreFault::Cover => 29,
        };
        Fault {
            number,
            layer: 6,
            place: 0,
            list: 0,
        }
    }
}

impl fmt::Display for StoreFault {
    ghost output = { λ f. Some (fault_text (told f)) };

    fn fmt<W: fmt::Write>(&self, f: &mut fmt::Formatter<W>) -> fmt::Result {
        write!(f, "{}", Fault::from(*self))
    }
}

impl Error for StoreFault {}

/// What could not be made into a store is handed back, with the reason.
#[derive(Drop)]
#[derive_where(Debug)]
pub struct NotMade<P> {
    #[derive_where(skip)]
    pub parts: P,
    pub fault: StoreFault,
}

impl<P> fmt::Display for NotMade<P> {
    ghost output = { λ e. Some (fault_text (told e.fault)) };

    fn fmt<W: fmt::Write>(&self, f: &mut fmt::Formatter<W>) -> fmt::Result {
        write!(f, "{}", self.fault)
    }
}

impl<P: Drop> Error for NotMade<P> {}

/// A store for reading.
pub trait Store {
    /// The bytes that the store means.
    ghost bytes: { Self → List ℕ };

    /// Its ceiling: no write ends past it.
    ghost most: { Self → ℕ };

    fn len(&self) -> u64
        ensures { result ≡ length (bytes self.now) };

    fn ceiling(&self) -> u64
        ensures { result ≡ most self.now };

    /// Reads `n` bytes at `place` into the buffer's front.
    fn read(&self, place: u64, n: usize, buffer: &mut [u8]) -> Result<(), StoreFault>
        ensures { Reads (bytes self.now) place n buffer.old buffer.new result };

    ghost within: { (s : Self) → length (bytes s) ≤ most s };

    ghost fits: { (s : Self) → most s < 2 ^ 64 };

    ghost byte: { (s : Self) (k : ℕ) → slice_index (bytes s) k < 256 };
}

/// A store for saving: one for reading that can also write.
pub trait SavingStore: Store {
    /// `wrote s ws t`: t is s after exactly the writes ws, in that order. Only `write` gives one that is not empty.
    ghost wrote: { Self → List Write → Self → Type 0 };

    /// Writes `new` at `place` and on.
    fn write(&mut self, place: u64, new: &[u8]) -> Result<(), StoreFault>
        ensures row { Writes (Self.Store.bytes self.old) (Self.Store.most self.old) place new.now (Self.Store.bytes self.new) result }
        ensures ceiling { Self.Store.most self.new ≡ Self.Store.most self.old }
        ensures trail { wrote self.old (if_done result (put place new.now)) self.new };

    ghost none: { (s : Self) → wrote s [] s };

    ghost more: { (s t u : Self) (a b : List Write) → wrote s a t → wrote t b u → wrote s (a ++ b) u };

    ghost stands: { (s t : Self) (a : List Write) → wrote s a t → Self.Store.bytes t ≡ applied (Self.Store.bytes s) a };

    ghost lasts: { (s t : Self) (a : List Write) → wrote s a t → Self.Store.most t ≡ Self.Store.most s };
}

/// Whether a write of `n` bytes at `place` begins in the row or at its end, and ends by the ceiling.
/// And that a row after no writes is that row, which a refused write needs.
#[tactic(auto, unfolding(model::specs::Bytes::applied))]
pub fn has_room<S: Store>(store: &S, place: u64, n: usize) -> bool
    ensures test { Decides result ((place ≤ length (S.Store.bytes store.now)) × (place + n ≤ S.Store.most store.now)) }
    ensures none { S.Store.bytes store.now ≡ applied (S.Store.bytes store.now) [] }
{
    place <= store.len() && n as u64 <= store.ceiling() - place
}

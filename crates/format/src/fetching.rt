//! Bytes and numbers at a place of any store. Past the end of the store all bytes are 0, so no call is refused.
ghost use Rattle.std.specs.Prelude.{◌≡◌, ℕ, length};
ghost use Rattle.model.specs.Bytes.{le};
ghost use Rattle.format.specs.Windows.{Window};

use store::base::Store;

/// Fills the buffer with the store's bytes from `place` on.
pub fn fetch<S: Store>(store: &S, place: u64, buffer: &mut [u8])
    ensures { Window (S.Store.bytes store.now) place buffer.new }
{
    let there = store.len().saturating_sub(place).min(buffer.len() as u64) as usize;
    buffer[there..].fill(0);
    let _ = store.read(place, there, buffer);
}

/// The `N` bytes at `place`.
// Mostly all of them are there: then the size of the read is known when this is compiled.
#[tactic(auto, using(crate::proofs::Fetched::window_whole))]
pub fn bytes_at<S: Store, const N: usize>(store: &S, place: u64) -> [u8; N]
    ensures { Window (S.Store.bytes store.now) place result }
{
    let mut bytes = [0; N];
    if store.read(place, N, &mut bytes).is_err() {
        fetch(store, place, &mut bytes);
    }
    bytes
}

/// A number that stands in a store, the lowest byte first.
pub trait Number {
    /// How many bytes it takes.
    ghost width: { ℕ };

    /// The number that it is.
    ghost value: { Self → ℕ };

    /// The number at `place`.
    fn read<S: Store>(store: &S, place: u64) -> Self
        ensures { value result ≡ le width (S.Store.bytes store.now) place };
}

impl Number for u32 {
    ghost width = { 4 };

    ghost value = { λ n. n };

    #[tactic(auto, using(crate::proofs::Fetched::le_front), unfolding(model::specs::Bytes::le))]
    fn read<S: Store>(store: &S, place: u64) -> u32 {
        u32::from_le_bytes(bytes_at(store, place))
    }
}

impl Number for u64 {
    ghost width = { 8 };

    ghost value = { λ n. n };

    #[tactic(auto, using(crate::proofs::Fetched::le_front), unfolding(model::specs::Bytes::le))]
    fn read<S: Store>(store: &S, place: u64) -> u64 {
        u64::from_le_bytes(bytes_at(store, place))
    }
}

/// The number at `place`, as wide as its type: one name for all widths.
pub fn number_at<N: Number, S: Store>(store: &S, place: u64) -> N
    ensures { N.value result ≡ le N.width (S.Store.bytes store.now) place }
{
    N::read(store, place)
}

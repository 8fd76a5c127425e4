//! One of two stores, where which one is known only when the program runs.
#![tactic(auto)]

ghost use Rattle.std.specs.Prelude.{◌≡◌};
ghost use Rattle.either_store.specs.Either.{of_either, wrote_either};
ghost use Rattle.either_store.specs.Laws.{either_within, either_fits, either_byte, either_none, either_more, either_stands, either_lasts};

use store::base::{SavingStore, Store, StoreFault};

/// One of two stores.
#[derive(Drop)]
pub enum Either<A, B> {
    First(A),
    Second(B),
}

impl<A: Store, B: Store> Store for Either<A, B> {
    ghost bytes = { λ s. of_either A.Store.bytes B.Store.bytes s };

    ghost most = { λ s. of_either A.Store.most B.Store.most s };

    ghost within = { either_within _ _ _ _ A.Store.within B.Store.within };

    ghost fits = { either_fits _ _ A.Store.fits B.Store.fits };

    ghost byte = { either_byte _ _ A.Store.byte B.Store.byte };

    fn len(&self) -> u64 {
        match self {
            Either::First(a) => a.len(),
            Either::Second(b) => b.len(),
        }
    }

    fn ceiling(&self) -> u64 {
        match self {
            Either::First(a) => a.ceiling(),
            Either::Second(b) => b.ceiling(),
        }
    }

    fn read(&self, place: u64, n: usize, buffer: &mut [u8]) -> Result<(), StoreFault> {
        match self {
            Either::First(a) => a.read(place, n, buffer),
            Either::Second(b) => b.read(place, n, buffer),
        }
    }
}

impl<A: SavingStore, B: SavingStore> SavingStore for Either<A, B> {
    ghost wrote = { λ s ws t. wrote_either A.SavingStore.wrote B.SavingStore.wrote s ws t };

    ghost none = { either_none _ _ A.SavingStore.none B.SavingStore.none };

    ghost more = { either_more _ _ A.SavingStore.more B.SavingStore.more };

    ghost stands = { either_stands _ _ _ _ A.SavingStore.stands B.SavingStore.stands };

    ghost lasts = { either_lasts _ _ _ _ A.SavingStore.lasts B.SavingStore.lasts };

    fn write(&mut self, place: u64, new: &[u8]) -> Result<(), StoreFault> {
        match self {
            Either::First(a) => a.write(place, new),
            Either::Second(b) => b.write(place, new),
        }
    }
}

//! The stores of files: flat or on a card, and covered up to twice.
use crate::answers::Trouble;
use card_store::Card;
use cover_store::Cover;
use either_store::Either;
use script::faults::LineFault;
use section::files::File;
use std::alloc::Global;
use store::base::NotMade;
use store::flat_store::Flat;

type Plain = Either<Flat, Card>;

type Once = Cover<Plain>;

type Twice = Cover<Once>;

/// A store of a file: a plain one, or one that is covered once or twice.
pub(crate) type AnyStore = Either<Plain, Either<Once, Twice>>;

/// A file over such a store.
pub(crate) type Sheet = File<AnyStore>;

/// A store of no bytes.
pub(crate) fn empty(heap: Global) -> AnyStore {
    let Ok(flat) = Flat::new(Vec::new(heap), 0) else {
        unreachable!();
    };
    Either::First(Either::First(flat))
}

/// A flat store.
pub(crate) fn flat(bytes: Vec<u8>, len: u64) -> Result<AnyStore, Trouble> {
    match Flat::new(bytes, len) {
        Ok(flat) => Ok(Either::First(Either::First(flat))),
        Err(NotMade { parts: _, fault }) => Err(fault.into()),
    }
}

/// A store on a card.
pub(crate) fn card(bytes: Vec<u8>, map: Vec<u32>, len: u64) -> Result<AnyStore, Trouble> {
    match Card::new(bytes, map, len) {
        Ok(card) => Ok(Either::First(Either::Second(card))),
        Err(NotMade { parts: _, fault }) => Err(fault.into()),
    }
}

/// A store without its first blocks; where that is refused, the store as it was.
pub(crate) fn covered(store: AnyStore, blocks: u64) -> (AnyStore, Result<(), Trouble>) {
    match store {
        Either::First(plain) => match Cover::new(plain, blocks) {
            Ok(once) => (Either::Second(Either::First(once)), Ok(())),
            Err(NotMade { parts, fault }) => (Either::First(parts), Err(fault.into())),
        },
        Either::Second(Either::First(once)) => match Cover::new(once, blocks) {
            Ok(twice) => (Either::Second(Either::Second(twice)), Ok(())),
            Err(NotMade { parts, fault }) => {
                (Either::Second(Either::First(parts)), Err(fault.into()))
            }
        },
        twice => (twice, Err(LineFault::Covered.into())),
    }
}

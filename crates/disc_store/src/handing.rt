//! A store that hands each write on to a medium.
ghost use Rattle.std.specs.Prelude.{◌≡◌, [], ◌∷◌};
ghost use Rattle.model.specs.Bytes.{put};
ghost use Rattle.store.specs.Rows.{Reads, Writes, if_done};
ghost use Rattle.disc_store.specs.Events.{synced, took, around, planned, HandedOn, Tried};
ghost use Rattle.disc_store.specs.EventsLemmas.{handed_none, handed_more};

use crate::base::Medium;
use std::io;
use store::base::{SavingStore, Store, StoreFault};

// The header stands before this place.
const HEADER_BYTES: u64 = 1024;

/// A store, and a medium that takes each write that is done in it.
///
/// From the medium's first error on nothing more is handed on. That error is kept, and the store goes on by itself.
#[derive(Drop)]
pub struct Disc<S, M> {
    row: S,
    medium: M,
    trouble: Option<io::Error>,
}

impl<S: Store, M: Medium> Disc<S, M> {
    /// A store with the medium that has the same bytes.
    pub fn new(row: S, medium: M) -> Disc<S, M>
        ensures row { result.row ≡ row }
        ensures medium { result.medium ≡ medium }
        ensures trouble { result.trouble ≡ None }
    {
        Disc {
            row,
            medium,
            trouble: None,
        }
    }

    /// The medium's first error.
    pub fn trouble(&self) -> Option<io::Error>
        ensures { result ≡ self.now.trouble }
    {
        self.trouble
    }

    /// The medium.
    pub fn medium(&self) -> &M
        ensures { result.now ≡ self.now.medium }
    {
        &self.medium
    }

    /// Takes it apart, into the store and the medium.
    pub fn into_parts(self) -> (S, M)
        ensures { (result.0 ≡ self.row) × (result.1 ≡ self.medium) }
    {
        (self.row, self.medium)
    }
}

// A write between two syncs.
#[tactic(auto, using(crate::specs::EventsLemmas::tried_last, crate::specs::EventsLemmas::tried_middle))]
fn put_between_syncs<M: Medium>(medium: &mut M, place: u64, new: &[u8]) -> io::Result<()>
    ensures { Tried (synced ∷ (took (put place new.now) ∷ (synced ∷ []))) (M.Medium.handed medium.old) (M.Medium.handed medium.new) result }
{
    medium.sync()?;
    medium.put(place, new)?;
    medium.sync()
}

// Hands a write on, one to the header between two syncs.
fn tried<M: Medium>(medium: &mut M, place: u64, new: &[u8]) -> io::Result<()>
    ensures { Tried (around (put place new.now)) (M.Medium.handed medium.old) (M.Medium.handed medium.new) result }
{
    if place >= HEADER_BYTES {
        return medium.put(place, new);
    }
    put_between_syncs(medium, place, new)
}

// Hands a write on while there is no trouble.
fn hand_on<M: Medium>(medium: &mut M, trouble: &mut Option<io::Error>, place: u64, new: &[u8])
    ensures { HandedOn (planned (put place new.now ∷ [])) (M.Medium.handed medium.old) (M.Medium.handed medium.new) trouble.old trouble.new }
{
    if trouble.is_none() {
        *trouble = tried(medium, place, new).err();
    }
}

impl<S: Store, M: Medium> Store for Disc<S, M> {
    ghost bytes = { λ s. S.Store.bytes s.row };

    ghost most = { λ s. S.Store.most s.row };

    ghost within = { λ s. S.Store.within s.row };

    ghost fits = { λ s. S.Store.fits s.row };

    ghost byte = { λ s k. S.Store.byte s.row k };

    fn len(&self) -> u64 {
        self.row.len()
    }

    fn ceiling(&self) -> u64 {
        self.row.ceiling()
    }

    fn read(&self, place: u64, n: usize, buffer: &mut [u8]) -> Result<(), StoreFault> {
        self.row.read(place, n, buffer)
    }
}

impl<S: SavingStore, M: Medium> SavingStore for Disc<S, M> {
    ghost wrote = { λ s ws t. S.SavingStore.wrote s.row ws t.row × HandedOn (planned ws) (M.Medium.handed s.medium) (M.Medium.handed t.medium) s.trouble t.trouble };

    ghost none = { λ s. (S.SavingStore.none s.row, handed_none _ _) };

    ghost more = { λ s t u a b p q. (S.SavingStore.more _ _ _ _ _ p.0 q.0, handed_more a b _ _ _ _ _ _ p.1 q.1) };

    ghost stands = { λ s t a made. S.SavingStore.stands _ _ _ made.0 };

    ghost lasts = { λ s t a made. S.SavingStore.lasts _ _ _ made.0 };

    fn write(&mut self, place: u64, new: &[u8]) -> Result<(), StoreFault> {
        self.row.write(place, new)?;
        hand_on(&mut self.medium, &mut self.trouble, place, new);
        Ok(())
    }
}

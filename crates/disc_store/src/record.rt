//! A list of events that only clauses read: it takes no memory.
ghost use Rattle.std.specs.Prelude.{◌≡◌, List, [], ◌∷◌, ◌++◌};
ghost use Rattle.std.specs.Borrow.{ftrue};
ghost use Rattle.model.specs.Bytes.{put};
ghost use Rattle.disc_store.specs.Events.{Event, took, synced, event_of};

use std::marker::{Model, PhantomData};

/// The events of a medium so far, for its clauses.
#[derive(Drop)]
pub struct Record {
    marker: PhantomData<u8>,
    pub ghost events: { List Event },
}

impl Model for Record {
    ghost also_owns = { λ _. ftrue };
}

impl Record {
    /// With no event.
    pub fn new() -> Record
        ensures { result.events ≡ [] }
    {
        Record {
            marker: PhantomData,
        }
    }

    // A place and bytes tell a write; no place tells a sync.
    fn note(&mut self, _place: &[u64], _bytes: &[u8])
        ensures { self.new.events ≡ self.old.events ++ (event_of _place.now _bytes.now ∷ []) }
    {}

    /// Adds a write that was done.
    pub fn note_put(&mut self, place: u64, bytes: &[u8])
        ensures { self.new.events ≡ self.old.events ++ (took (put place bytes.now) ∷ []) }
    {
        self.note(&[place], bytes);
    }

    /// Adds a sync that was done.
    pub fn note_sync(&mut self)
        ensures { self.new.events ≡ self.old.events ++ (synced ∷ []) }
    {
        self.note(&[], &[]);
    }
}

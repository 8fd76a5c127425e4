//! A section file over a store: made shut, then opened.
ghost use Rattle.std.specs.Prelude.{◌≡◌, None};
ghost use Rattle.section.specs.Keeping.{Sound};
ghost use Rattle.model.specs.Calls.{State};
ghost use Rattle.model.specs.Journal.{shut};
ghost use Rattle.section.specs.States.{StandsFor, opened_state};
ghost use Rattle.section.specs.OpenAnswers.{opened_in, outcome, open_answer, Marks, ListsRows, Fills};

use crate::access::{Access, Figures};
use crate::opening::read_file;
use crate::space::Space;
use drafts::layout::DraftLayout;
use encoding::buffer::WriteBuffer;
use refusals::faults::OpenFault;
use store::base::Store;
use tables::room::{Room, Row};

/// A section file over a store.
#[derive(Drop)]
pub struct File<S> {
    pub(crate) store: S,
    pub(crate) room: Room,
    pub(crate) draft: DraftLayout,
    pub(crate) buffer: WriteBuffer,
    pub(crate) access: Option<Access>,
}

impl<S: Store> File<S> {
    /// A file that is not open, over a store and with the space that it works in.
    pub fn new(store: S, space: Space) -> File<S>
        ensures store { result.store ≡ store }
        ensures room { result.room ≡ space.room }
        ensures shut { result.access ≡ None }
        ensures sound { Sound (S.Store.bytes result.store) result.room result.access }
        ensures stands { StandsFor (S.Store.bytes result.store) (S.Store.most result.store) result.room result.draft result.access (shut (S.Store.bytes store) (S.Store.most store)) }
    {
        let Space {
            room,
            draft,
            buffer,
        } = space;
        File {
            store,
            room,
            draft,
            buffer,
            access: None,
        }
    }

    /// Opens the file, and gives it a mark.
    pub fn open(&mut self, mark: u64) -> Result<Figures, OpenFault>
        ensures answer { outcome result ≡ open_answer self.old.access self.old.room.counts.room (S.Store.bytes self.old.store) }
        ensures marks { Marks self.old.access mark (outcome result) self.new.access }
        ensures lists { self.old.access ≡ None → ListsRows (opened_in self.old.room.counts.room (S.Store.bytes self.old.store)) self.new.room.lists }
        ensures full { self.old.access ≡ None → Fills (opened_in self.old.room.counts.room (S.Store.bytes self.old.store)) self.new.room }
        ensures store { self.new.store ≡ self.old.store }
        ensures room { self.new.room.counts.room ≡ self.old.room.counts.room }
        ensures sound { Sound (S.Store.bytes self.old.store) self.old.room self.old.access → Sound (S.Store.bytes self.new.store) self.new.room self.new.access }
        ensures stands { (st : State) → StandsFor (S.Store.bytes self.old.store) (S.Store.most self.old.store) self.old.room self.old.draft self.old.access st → StandsFor (S.Store.bytes self.new.store) (S.Store.most self.new.store) self.new.room self.new.draft self.new.access (opened_state st mark result) }
    {
        if self.access.is_some() {
            return Err(OpenFault::Busy);
        }
        let access = read_file(&self.store, mark, &mut self.room)?;
        self.access = Some(access);
        Ok(self.figures_by(&access))
    }

    /// The lists of an opened file, in the order of opening.
    pub fn lists(&self) -> &[Row]
        ensures { result.now ≡ self.now.room.lists }
    {
        self.room.lists.as_slice()
    }
}

//! The files of a script, by their letters.
use crate::answers::Trouble;
use crate::stores::{AnyStore, Sheet, covered, empty};
use script::faults::LineFault;
use script::letters::{LETTERS, Letter};
use section::space::Space;
use std::alloc::{AllocError, Global};
use std::array;
use store::base::Store;

// An entry of a log has so many bytes.
const ENTRY_BYTES: u64 = 8;

/// The files of a script, and a spare one that is never open.
#[derive(Drop)]
pub(crate) struct Files {
    heap: Global,
    sheets: [Option<Sheet>; LETTERS],
    spare: Sheet,
}

impl Files {
    /// With none but the spare file.
    pub(crate) fn new(heap: Global) -> Result<Files, AllocError> {
        let store = empty(heap);
        let space = Space::new(heap, 0)?;
        Ok(Files {
            heap,
            sheets: array::from_fn(|_| None),
            spare: Sheet::new(store, space),
        })
    }

    /// The file with a letter.
    pub(crate) fn get(&mut self, letter: Letter) -> Result<&mut Sheet, Trouble> {
        match &mut self.sheets[letter.place()] {
            Some(sheet) => Ok(sheet),
            None => Err(LineFault::NoFile.into()),
        }
    }

    /// The file with a letter, or the spare one.
    pub(crate) fn or_spare(&mut self, letter: Letter) -> &mut Sheet {
        match &mut self.sheets[letter.place()] {
            Some(sheet) => sheet,
            None => &mut self.spare,
        }
    }

    /// Whether there is a file with a letter.
    pub(crate) fn has(&self, letter: Letter) -> bool {
        self.sheets[letter.place()].is_some()
    }

    /// Puts a file with a letter over a store.
    pub(crate) fn put(&mut self, letter: Letter, store: AnyStore) -> Result<(), Trouble> {
        // no log in the store gives more counts
        let changes = store.ceiling() / ENTRY_BYTES;
        let space = Space::new(self.heap, changes as usize)?;
        self.sheets[letter.place()] = Some(Sheet::new(store, space));
        Ok(())
    }

    /// Covers the store of a file that is not open.
    pub(crate) fn cover(&mut self, letter: Letter, blocks: u64) -> Result<(), Trouble> {
        if self.get(letter)?.figures().is_ok() {
            return Err(LineFault::Opened.into());
        }
        let place = &mut self.sheets[letter.place()];
        let Some(sheet) = place.take() else {
            return Err(LineFault::NoFile.into());
        };
        let (store, space) = sheet.into_parts();
        let (store, done) = covered(store, blocks);
        *place = Some(Sheet::new(store, space));
        done
    }
}

//! A section file that is read and opened.
use crate::troubles::Trouble;
use disc_store::taking_up::read_only;
use refusals::faults::{LogFault, OpenFault};
use section::access::Figures;
use section::files::File;
use section::space::Space;
use std::alloc::Global;
use std::fs::{self, Files};
use store::base::Store;
use store::flat_store::Flat;

// An entry of a log has so many bytes.
const ENTRY_BYTES: u64 = 8;

// Few logs count lists more often.
const MOST_CHANGES: u64 = 65_536;

// Drafts carry the mark of their file, so that one of another file is told. The program opens one file.
const MARK: u64 = 1;

/// A section file that is open, and its figures as it was opened.
#[derive(Drop)]
pub(crate) struct Opened<S> {
    pub(crate) file: File<S>,
    pub(crate) figures: Figures,
}

/// The section file at a path, as it is to be looked at.
pub(crate) fn read<'a, R: Files<File = fs::File> + AllocGlobal>(
    rt: &R,
    path: &'a str,
) -> Result<Opened<Flat>, Trouble<'a>> {
    match read_only(rt, path) {
        Ok(store) => open(rt.alloc(), store),
        Err(error) => Err(Trouble::File { path, error }),
    }
}

/// Opens the file of a store.
pub(crate) fn open<'a, S: Store + Drop>(heap: Global, store: S) -> Result<Opened<S>, Trouble<'a>> {
    // no log in the store has more entries
    let all = store.len() / ENTRY_BYTES;
    let mut file = File::new(store, Space::new(heap, all.min(MOST_CHANGES) as usize)?);
    match file.open(MARK) {
        Ok(figures) => Ok(Opened { file, figures }),
        Err(OpenFault::Log(LogFault::Room { place: _ })) => {
            let (store, _space) = file.into_parts();
            let mut file = File::new(store, Space::new(heap, all as usize)?);
            let figures = file.open(MARK)?;
            Ok(Opened { file, figures })
        }
        Err(fault) => Err(fault.into()),
    }
}

//! An open file as a medium.
ghost use Rattle.std.specs.Prelude.{◌≡◌, []};

use crate::base::Medium;
use crate::record::Record;
use std::fs::OpenFile;
use std::io;
use std::os::unix::fs::FileExt;

/// An open file that writes are handed on to.
#[derive(Drop)]
pub struct OnDisc<F> {
    file: F,
    history: Record,
}

impl<F> OnDisc<F> {
    /// The file, before anything is handed on to it.
    pub fn new(file: F) -> OnDisc<F>
        ensures file { result.file ≡ file }
        ensures history { result.history.events ≡ [] }
    {
        OnDisc {
            file,
            history: Record::new(),
        }
    }
}

impl<F: FileExt + OpenFile> Medium for OnDisc<F> {
    ghost handed = { λ s. s.history.events };

    // Short writes are gone on with, and a write of no byte is an error.
    fn put(&mut self, place: u64, bytes: &[u8]) -> io::Result<()> {
        self.file.write_all_at(bytes, place)?;
        self.history.note_put(place, bytes);
        Ok(())
    }

    fn sync(&mut self) -> io::Result<()> {
        self.file.sync_data()?;
        self.history.note_sync();
        Ok(())
    }
}

//! What a medium is.
ghost use Rattle.std.specs.Prelude.{◌≡◌, List, ◌++◌};
ghost use Rattle.model.specs.Bytes.{put};
ghost use Rattle.disc_store.specs.Events.{Event, took, synced, if_took};

use std::io;

/// Where writes are handed on to, such as a file on disc.
pub trait Medium {
    /// The writes and syncs that were done on it since it was taken up, in order.
    ghost handed: { Self → List Event };

    /// Writes all the bytes at `place` and on. Of a write that fails a part may stand.
    fn put(&mut self, place: u64, bytes: &[u8]) -> io::Result<()>
        ensures { handed self.new ≡ handed self.old ++ if_took result (took (put place bytes.now)) };

    /// Waits until all that was written is kept.
    fn sync(&mut self) -> io::Result<()>
        ensures { handed self.new ≡ handed self.old ++ if_took result synced };
}

//! The versions that a file gets.
ghost use Rattle.std.specs.Prelude.{◌≢◌, slice_index};

use std::time::Duration;

/// A version for the next transaction of a file. It only has to differ from the file's present one, and does in its first byte;
/// the time makes it unlike the versions of copies of the file.
pub(crate) fn version_after(version: &[u8; 16], time: Duration) -> [u8; 16]
    ensures { slice_index result 0 ≢ slice_index version.now 0 }
{
    let mut next = time.as_nanos().to_be_bytes();
    next[0] = version[0].wrapping_add(1);
    next
}

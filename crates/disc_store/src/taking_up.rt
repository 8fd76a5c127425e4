//! Taking up a file on disc: for saving, or for looks only.
ghost use Rattle.std.specs.Prelude.{◌≡◌, ◌+◌, ◌≤◌, ◌^◌, None, [], min, vec_len, IfOk};

use crate::handing::Disc;
use crate::on_disc::OnDisc;
use std::alloc::Global;
use std::fs::{self, File, OpenOptions, TryLockError};
use std::io::{self, Error, ErrorKind, Read};
use std::os::fd::AsRawFd;
use std::rt::Files;
use store::flat_store::Flat;

/// A file on disc that takes what is saved.
pub type SavedFile = Disc<Flat, OnDisc<File>>;

// A section file is at most so long.
const LONGEST: u64 = 1 << 40;

/// Takes a file up for saving, with room to grow by `more` bytes. It must be there: no file is made, and none is cut.
/// It stays locked until it is dropped, and a file that another program has locked is refused.
pub fn take_up<R: Files<File = File> + AllocGlobal>(
    rt: &R,
    path: &str,
    more: u64,
) -> io::Result<SavedFile>
    ensures trouble { IfOk result (λ d. d.trouble ≡ None) }
    ensures handed { IfOk result (λ d. d.medium.history.events ≡ []) }
    ensures room { IfOk result (λ d. vec_len d.row.buffer ≡ min (d.row.len + more) (2 ^ 40)) }
{
    let file = opened(rt, path, true)?;
    match file.try_lock() {
        Ok(()) => {}
        Err(TryLockError::WouldBlock) => return Err(in_use()),
        Err(TryLockError::Error(error)) => return Err(error),
    }
    let row = row_of(rt.alloc(), &file, more)?;
    Ok(Disc::new(row, OnDisc::new(file)))
}

/// Reads a file for looks only, while no other program is saving to it.
/// Where the file system has no locks, it is read without one.
pub fn read_only<R: Files<File = File> + AllocGlobal>(rt: &R, path: &str) -> io::Result<Flat>
    ensures { IfOk result (λ f. vec_len f.buffer ≡ f.len) }
{
    let file = opened(rt, path, false)?;
    if let Err(TryLockError::WouldBlock) = file.try_lock_shared() {
        return Err(in_use());
    }
    row_of(rt.alloc(), &file, 0)
}

fn in_use() -> Error {
    Error::new(ErrorKind::WouldBlock, "another program is using this file")
}

// Opens a regular file that is there, for reading, or for writing too.
fn opened<R: Files<File = File>>(rt: &R, path: &str, saves: bool) -> io::Result<File> {
    // Opening a pipe would wait.
    if !fs::metadata(rt, path)?.is_file() {
        return Err(Error::new(ErrorKind::InvalidInput, "not a regular file"));
    }
    let file = OpenOptions::new().read(true).write(saves).open(rt, path)?;
    // What is meant for a standard stream that was closed must not land in the file.
    if file.as_raw_fd() <= 2 {
        return file.try_clone();
    }
    Ok(file)
}

// All bytes of an open file, with room for `more`.
fn row_of(heap: Global, file: &File, more: u64) -> io::Result<Flat>
    ensures { IfOk result (λ f. vec_len f.buffer ≡ min (f.len + more) (2 ^ 40)) }
{
    let len = file.metadata()?.len();
    if len > LONGEST {
        return Err(Error::new(ErrorKind::FileTooLarge, "longer than 2^40 bytes"));
    }
    let most = len.saturating_add(more).min(LONGEST) as usize;
    let mut bytes = Vec::with_capacity(heap, most)?;
    file.take(len).read_to_end(&mut bytes)?;
    if bytes.len() as u64 != len {
        return Err(Error::from(ErrorKind::UnexpectedEof));
    }
    bytes.resize(most, 0)?;
    match Flat::new(bytes, len) {
        Ok(row) => Ok(row),
        Err(_) => unreachable!(),
    }
}

//! Why a command is not carried out, and how that is told.
use crate::words::Refusal;
use refusals::calls::{LookFault, SaveFault};
use refusals::faults::OpenFault;
use std::alloc::AllocError;
use std::io::{self, Write};

/// Why a command is not carried out.
#[derive(Drop)]
pub(crate) enum Trouble<'a> {
    /// The rules refuse the section file, or a call on it.
    Refused(Refusal),
    /// A file cannot be read, or cannot be taken up for saving.
    File { path: &'a str, error: io::Error },
    /// The disc did not take all of a transaction.
    Disc(io::Error),
    /// What is told cannot be written.
    Output(io::Error),
    /// There is no memory for it.
    Memory,
}

impl From<OpenFault> for Trouble<'_> {
    fn from(fault: OpenFault) -> Self {
        Trouble::Refused(fault.into())
    }
}

impl From<LookFault> for Trouble<'_> {
    fn from(fault: LookFault) -> Self {
        Trouble::Refused(fault.into())
    }
}

impl From<SaveFault> for Trouble<'_> {
    fn from(fault: SaveFault) -> Self {
        Trouble::Refused(fault.into())
    }
}

impl From<AllocError> for Trouble<'_> {
    fn from(_error: AllocError) -> Self {
        Trouble::Memory
    }
}

// Only what is told is written through `?`.
impl From<io::Error> for Trouble<'_> {
    fn from(error: io::Error) -> Self {
        Trouble::Output(error)
    }
}

impl Trouble<'_> {
    /// Tells it of a section file.
    pub(crate) fn tell<W: Write>(&self, file: &str, err: &mut W) -> io::Result<()> {
        match self {
            Trouble::Refused(refusal) => writeln!(err, "sheet: {file}: {refusal}"),
            Trouble::File { path, error } => writeln!(err, "sheet: {path}: {error}"),
            Trouble::Disc(error) => writeln!(err, "sheet: {file}: not all was saved: {error}"),
            Trouble::Output(error) => writeln!(err, "sheet: standard output: {error}"),
            Trouble::Memory => writeln!(err, "sheet: {file}: there is no memory for it"),
        }
    }
}

//! Why a line of a script cannot be carried out.
ghost use Rattle.std.specs.Prelude.{Some};
ghost use Rattle.script.specs.FaultTexts.{fault_text};

use std::error::Error;
use std::fmt;

/// Why a line cannot be read, or names what cannot be taken.
#[derive(Clone, Copy, PartialEq, Eq, Debug)]
pub enum LineFault {
    /// The first word names no action.
    Action,
    /// The line ends too early.
    Missing,
    /// There are words behind the last that the action takes, or a space too many.
    TooMany,
    /// A file or a draft is named by one lower-case letter.
    Letter,
    /// A number is written in decimal digits.
    Number,
    /// A number passes the largest that may stand there.
    TooLarge,
    /// Bytes are written as pairs of lower-case hexadecimal digits, or `-` for none.
    Hex,
    /// A GUID has 16 bytes.
    Guid,
    /// There is no memory for the line's bytes.
    Memory,
    /// The line passes the most bytes that one may have.
    Long,
    /// No file has this letter.
    NoFile,
    /// No draft has this letter.
    NoDraft,
    /// A file has this letter.
    FileTaken,
    /// A draft has this letter.
    DraftTaken,
    /// A file that is open is not covered.
    Opened,
    /// A file is covered twice at most.
    Covered,
}

impl fmt::Display for LineFault {
    ghost output = { λ e. Some (fault_text e) };

    fn fmt<W: fmt::Write>(&self, f: &mut fmt::Formatter<W>) -> fmt::Result {
        f.write_str(match self {
            LineFault::Action => "the first word names no action",
            LineFault::Missing => "a word is missing",
            LineFault::TooMany => "there are words or spaces too many",
            LineFault::Letter => "a file or a draft is named by one letter from a to z",
            LineFault::Number => "a number is wanted, in decimal digits",
            LineFault::TooLarge => "a number is too large",
            LineFault::Hex =>
                "bytes are wanted, as pairs of lower-case hexadecimal digits, or - for none",
            LineFault::Guid => "a GUID has 16 bytes",
            LineFault::Memory => "there is no memory for the bytes of the line",
            LineFault::Long => "a line has at most 262144 bytes",
            LineFault::NoFile => "no file has this letter",
            LineFault::NoDraft => "no draft has this letter",
            LineFault::FileTaken => "a file has this letter already",
            LineFault::DraftTaken => "a draft has this letter already",
            LineFault::Opened => "a file that is open cannot be covered",
            LineFault::Covered => "a file can be covered twice at most",
        })
    }
}

impl Error for LineFault {}

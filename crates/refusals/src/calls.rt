//! Why a call on an opened file is refused: a look, or a call that saves. None tells a place or a list.
ghost use Rattle.std.specs.Prelude.{◌≡◌};
ghost use Rattle.refusals.specs.CallRefusals.{look_told, save_told};

use model::types::Fault;
use thiserror::Error;

/// Why a look is refused.
#[derive(Clone, Copy, PartialEq, Eq, Debug, Error)]
#[error("{}", Fault::from(*self))]
pub enum LookFault {
    /// The file is not open.
    Shut,
    /// The count is 0, or over that of the file.
    Future,
    /// No list with this ID is reached, or it had no node with this index.
    NoNode,
    /// The payload or the piece passes the buffer, or the piece passes the data.
    Range,
}

/// Why a call that saves is refused.
#[derive(Clone, Copy, PartialEq, Eq, Debug, Error)]
#[error("{}", Fault::from(*self))]
pub enum SaveFault {
    /// A draft is open.
    Busy,
    /// The file is not open.
    Shut,
    /// The draft is not the one that is open here.
    Foreign,
    /// No list with this ID is reached, and none was made in the draft.
    NoList,
    /// A node over 988 bytes; data that is empty or over 65,536 bytes.
    Size,
    /// A node ID of 0, of a terminator, or over 10 bits.
    Kind,
    /// A 17th list in the draft.
    Wide,
    /// Nothing was added.
    Empty,
    /// The file's version is unchanged.
    Same,
    /// One list or one fragment more than there may be.
    Full,
    /// A number would outgrow its field.
    Last,
    /// The new end passes the ceiling or 2^40.
    Ceiling,
}

/// What the refusal tells.
impl From<LookFault> for Fault {
    ghost from_gives = { λ f r. r ≡ look_told f };

    fn from(f: LookFault) -> Fault {
        let number = match f {
            LookFault::Shut => 15,
            LookFault::Future => 25,
            LookFault::NoNode => 26,
            LookFault::Range => 27,
        };
        Fault {
            number,
            layer: 5,
            place: 0,
            list: 0,
        }
    }
}

/// What the refusal tells.
impl From<SaveFault> for Fault {
    ghost from_gives = { λ f r. r ≡ save_told f };

    fn from(f: SaveFault) -> Fault {
        let number = match f {
            SaveFault::Full => 13,
            SaveFault::Busy => 14,
            SaveFault::Shut => 15,
            SaveFault::Foreign => 16,
            SaveFault::NoList => 17,
            SaveFault::Size => 18,
            SaveFault::Kind => 19,
            SaveFault::Wide => 20,
            SaveFault::Empty => 21,
            SaveFault::Same => 22,
            SaveFault::Last => 23,
            SaveFault::Ceiling => 24,
        };
        Fault {
            number,
            layer: 4,
            place: 0,
            list: 0,
        }
    }
}

//! Why a file is not opened. Faults of the log and of the lists enter the opening's fault whole.
ghost use Rattle.std.specs.Prelude.{◌≡◌};
ghost use Rattle.refusals.specs.Refusals.{header_told, log_told, list_told, told};
ghost use Rattle.refusals.specs.declared.faults.OpenFault.TheVariants as opening;

use model::types::Fault;
use thiserror::Error;

/// A field of the header is wrong.
#[derive(Clone, Copy, PartialEq, Eq, Debug, Error)]
#[error("{}", Fault::from(*self))]
pub enum HeaderFault {
    /// The store is under 1,024 bytes or under the file's end, or that end is under 1,024 or over 2^40.
    Short { place: u64 },
    /// The type or the format is another.
    Strange { place: u64 },
    /// Only newer code may read the file.
    Newer,
    /// No transaction is finished.
    Bare,
}

/// A reference, an entry or a fragment of the log is wrong.
#[derive(Clone, Copy, PartialEq, Eq, Debug, Error)]
#[error("{}", Fault::from(*self))]
pub enum LogFault {
    Outside { place: u64 },
    Sum { place: u64 },
    Backward { place: u64 },
    Overlap { place: u64 },
    Full { place: u64 },
    /// The log counts lists more often than there is room for.
    Room { place: u64 },
}

/// A reference, a fragment or a node of a list is wrong, or a reference to data.
#[derive(Clone, Copy, PartialEq, Eq, Debug)]
pub enum ListFault {
    Outside { place: u64 },
    Fragment { place: u64 },
    Node { place: u64 },
    Unlisted { place: u64 },
    Overlap { place: u64 },
    Twice { place: u64 },
    Full { place: u64 },
}

/// A fault of a list, with the list's ID; 0 before it is known, as it is printed.
#[derive(Clone, Copy, PartialEq, Eq, Debug, Error)]
#[error("{}", Fault::from(*self))]
pub struct InList {
    pub fault: ListFault,
    pub list: u32,
}

/// Why a file is not opened.
#[derive(Clone, Copy, PartialEq, Eq, Debug, Error)]
#[error("{}", Fault::from(*self))]
pub enum OpenFault {
    Header(HeaderFault),
    Log(LogFault),
    List(InList),
    /// It is open.
    Busy,
}

// By hand, since a derived `From` promises nothing of what it gives.
impl From<HeaderFault> for OpenFault {
    ghost from_gives = { λ f r. r ≡ opening.Header f };

    fn from(f: HeaderFault) -> OpenFault {
        OpenFault::Header(f)
    }
}

impl From<LogFault> for OpenFault {
    ghost from_gives = { λ f r. r ≡ opening.Log f };

    fn from(f: LogFault) -> OpenFault {
        OpenFault::Log(f)
    }
}

impl From<InList> for OpenFault {
    ghost from_gives = { λ f r. r ≡ opening.List f };

    fn from(f: InList) -> OpenFault {
        OpenFault::List(f)
    }
}

/// What the refusal tells. The numbers that are printed stand here, once each.
impl From<HeaderFault> for Fault {
    ghost from_gives = { λ f r. r ≡ header_told f };

    fn from(f: HeaderFault) -> Fault {
        let (number, place) = match f {
            HeaderFault::Short { place } => (1, place),
            HeaderFault::Strange { place } => (2, place),
            HeaderFault::Newer => (3, 0x4C),
            HeaderFault::Bare => (4, 0x60),
        };
        Fault {
            number,
            layer: 1,
            place,
            list: 0,
        }
    }
}

/// What the refusal tells.
impl From<LogFault> for Fault {
    ghost from_gives = { λ f r. r ≡ log_told f };

    fn from(f: LogFault) -> Fault {
        let (number, place) = match f {
            LogFault::Outside { place } => (5, place),
            LogFault::Sum { place } => (6, place),
            LogFault::Backward { place } => (7, place),
            LogFault::Overlap { place } => (11, place),
            LogFault::Full { place } => (13, place),
            LogFault::Room { place } => (100, place),
        };
        Fault {
            number,
            layer: 2,
            place,
            list: 0,
        }
    }
}

/// What the refusal tells.
impl From<InList> for Fault {
    ghost from_gives = { λ f r. r ≡ list_told f };

    fn from(f: InList) -> Fault {
        let (number, place) = match f.fault {
            ListFault::Outside { place } => (5, place),
            ListFault::Fragment { place } => (8, place),
            ListFault::Node { place } => (9, place),
            ListFault::Unlisted { place } => (10, place),
            ListFault::Overlap { place } => (11, place),
            ListFault::Twice { place } => (12, place),
            ListFault::Full { place } => (13, place),
        };
        Fault {
            number,
            layer: 3,
            place,
            list: f.list,
        }
    }
}

/// What the refusal tells: that of the lower layer whole.
impl From<OpenFault> for Fault {
    ghost from_gives = { λ f r. r ≡ told f };

    fn from(f: OpenFault) -> Fault {
        match f {
            OpenFault::Header(f) => f.into(),
            OpenFault::Log(f) => f.into(),
            OpenFault::List(f) => f.into(),
            OpenFault::Busy => Fault {
                number: 14,
                layer: 4,
                place: 0,
                list: 0,
            },
        }
    }
}

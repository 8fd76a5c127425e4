//! Refusals in words.
use model::types::Fault;
use model::words::word;
use refusals::calls::{LookFault, SaveFault};
use refusals::faults::{HeaderFault, ListFault, LogFault, OpenFault};
use std::fmt;

/// Why a file, a look at it, or an add to it is refused. It is told by the rule's number and word, what the rule says, the layer,
/// and the place and the list where there are such.
#[derive(Clone, Copy, PartialEq, Eq, Debug)]
pub enum Refusal {
    Open(OpenFault),
    Look(LookFault),
    Save(SaveFault),
}

impl From<OpenFault> for Refusal {
    fn from(fault: OpenFault) -> Refusal {
        Refusal::Open(fault)
    }
}

impl From<LookFault> for Refusal {
    fn from(fault: LookFault) -> Refusal {
        Refusal::Look(fault)
    }
}

impl From<SaveFault> for Refusal {
    fn from(fault: SaveFault) -> Refusal {
        Refusal::Save(fault)
    }
}

impl Refusal {
    // Its numbers.
    fn fault(self) -> Fault {
        match self {
            Refusal::Open(fault) => fault.into(),
            Refusal::Look(fault) => fault.into(),
            Refusal::Save(fault) => fault.into(),
        }
    }

    // What is wrong.
    fn reason(self) -> &'static str {
        match self {
            Refusal::Open(OpenFault::Header(fault)) => header_reason(fault),
            Refusal::Open(OpenFault::Log(fault)) => log_reason(fault),
            Refusal::Open(OpenFault::List(of)) => list_reason(of.fault),
            Refusal::Open(OpenFault::Busy) => "the file is open already",
            Refusal::Look(fault) => look_reason(fault),
            Refusal::Save(fault) => save_reason(fault),
        }
    }

    // The layer that refuses.
    fn layer(self) -> &'static str {
        match self {
            Refusal::Open(OpenFault::Header(_)) => "header",
            Refusal::Open(OpenFault::Log(_)) => "log",
            Refusal::Open(OpenFault::List(_)) => "lists and data references",
            Refusal::Look(_) => "looks",
            Refusal::Open(OpenFault::Busy) | Refusal::Save(_) => "saving",
        }
    }

    // Whether it tells a place: a refusal of the bytes does.
    fn has_place(self) -> bool {
        match self {
            Refusal::Open(OpenFault::Busy) | Refusal::Look(_) | Refusal::Save(_) => false,
            Refusal::Open(_) => true,
        }
    }
}

impl fmt::Display for Refusal {
    fn fmt<W: fmt::Write>(&self, f: &mut fmt::Formatter<W>) -> fmt::Result {
        let Fault {
            number,
            layer: _,
            place,
            list,
        } = self.fault();
        write!(
            f,
            "refused by rule {number} ({}): {}; {}",
            word(number),
            self.reason(),
            self.layer()
        )?;
        if self.has_place() {
            write!(f, ", at byte {place}")?;
        }
        if list != 0 {
            write!(f, ", list {list}")?;
        }
        Ok(())
    }
}

fn header_reason(fault: HeaderFault) -> &'static str {
    match fault {
        HeaderFault::Short { .. } =>
            "the file has under 1024 bytes, or fewer than its header says, or that says under 1024 or over 2^40",
        HeaderFault::Strange { .. } => "the GUID of the file's type or format is another",
        HeaderFault::Newer => "only newer code may read the file",
        HeaderFault::Bare => "no transaction is finished",
    }
}

fn log_reason(fault: LogFault) -> &'static str {
    match fault {
        LogFault::Outside { .. } =>
            "a reference of the log is absent, under 12 bytes, or ends behind the file's end",
        LogFault::Sum { .. } => "a sentinel's number is not the CRC of its transaction's entries",
        LogFault::Backward { .. } => "a list's count is not above the one before it",
        LogFault::Overlap { .. } =>
            "a fragment of the log shares a byte with the header or another fragment",
        LogFault::Full { .. } => "there are more than 2048 fragments",
        LogFault::Room { .. } => "the log counts lists more often than there is room for",
    }
}

fn list_reason(fault: ListFault) -> &'static str {
    match fault {
        ListFault::Outside { .. } =>
            "a reference is absent, under a fragment's 36 bytes, or ends behind the file's end",
        ListFault::Fragment { .. } =>
            "a fragment's mark or number is wrong, or the ID of its list, or that is under 16",
        ListFault::Node { .. } =>
            "a node's ID, size or BaseType is wrong, or it ends behind its fragment's nodes",
        ListFault::Unlisted { .. } => "no finished transaction counts the list",
        ListFault::Overlap { .. } =>
            "a fragment shares a byte with the header or another fragment, or data with either",
        ListFault::Twice { .. } => "two lists have one ID",
        ListFault::Full { .. } => "there are more than 1024 lists or 2048 fragments",
    }
}

fn look_reason(fault: LookFault) -> &'static str {
    match fault {
        LookFault::Shut => "the file is not open",
        LookFault::Future => "so many transactions are not finished, or the count is 0",
        LookFault::NoNode => "no list with this ID is reached, or it had no such node",
        LookFault::Range => "the payload or the piece passes the data or the buffer",
    }
}

fn save_reason(fault: SaveFault) -> &'static str {
    match fault {
        SaveFault::Busy => "a draft is open",
        SaveFault::Shut => "the file is not open",
        SaveFault::Foreign => "the draft is not the one that is open",
        SaveFault::NoList => "no list with this ID is reached",
        SaveFault::Size => "a node passes 988 bytes, or data is empty or passes 65536 bytes",
        SaveFault::Kind => "a node's ID is 0, 255 or over 1023",
        SaveFault::Wide => "a draft touches at most 16 lists",
        SaveFault::Empty => "nothing was added",
        SaveFault::Same => "the version of the file is unchanged",
        SaveFault::Full => "there would be more than 1024 lists or 2048 fragments",
        SaveFault::Last => "a number would outgrow its field",
        SaveFault::Ceiling => "the file would pass its ceiling, or 2^40",
    }
}

//! What an action answers, and how that is printed.
use journals::calls::{Line, Seen};
use looks::seen::NodeSeen;
use model::types::Fault;
use refusals::calls::{LookFault, SaveFault};
use refusals::faults::OpenFault;
use script::faults::LineFault;
use section::access::Figures;
use std::alloc::AllocError;
use std::fmt;
use store::base::StoreFault;

/// What an action tells that is done.
#[derive(Drop)]
pub(crate) enum Done {
    Nothing,
    Opened(Figures),
    Begun { mark: u64, number: u64 },
    Made(u32),
    Node { seen: NodeSeen, payload: Vec<u8> },
    Bytes(Vec<u8>),
    Alike(bool),
    Row { len: u64, ceiling: u64, crc: u32 },
    Listed(String),
}

/// Why an action is not done.
#[derive(Drop)]
pub(crate) enum Trouble {
    /// The line cannot be read, or names what cannot be taken.
    Line(LineFault),
    /// The file refuses.
    Refused(Fault),
    /// There is no memory for it.
    Memory(AllocError),
}

impl From<LineFault> for Trouble {
    fn from(fault: LineFault) -> Trouble {
        Trouble::Line(fault)
    }
}

impl From<StoreFault> for Trouble {
    fn from(fault: StoreFault) -> Trouble {
        Trouble::Refused(fault.into())
    }
}

impl From<OpenFault> for Trouble {
    fn from(fault: OpenFault) -> Trouble {
        Trouble::Refused(fault.into())
    }
}

impl From<SaveFault> for Trouble {
    fn from(fault: SaveFault) -> Trouble {
        Trouble::Refused(fault.into())
    }
}

impl From<LookFault> for Trouble {
    fn from(fault: LookFault) -> Trouble {
        Trouble::Refused(fault.into())
    }
}

impl From<AllocError> for Trouble {
    fn from(error: AllocError) -> Trouble {
        Trouble::Memory(error)
    }
}

/// What the line of a call tells, but for what a look has put into its buffer.
pub(crate) fn told(line: Line) -> Result<Done, Trouble> {
    match line {
        Line::Opened(opened) => Ok(Done::Opened(opened?)),
        Line::Begun(done) | Line::Committed(done) | Line::Abandoned(done) => {
            done?;
            Ok(Done::Nothing)
        }
        Line::Added(made) => Ok(made?.map_or(Done::Nothing, Done::Made)),
        Line::Saw(Seen::Alike(alike)) => Ok(Done::Alike(alike?)),
        Line::Saw(Seen::Node { node, .. }) => {
            node?;
            Ok(Done::Nothing)
        }
        Line::Saw(Seen::Data { done, .. }) => {
            done?;
            Ok(Done::Nothing)
        }
        Line::HasDraft => Err(LineFault::DraftTaken.into()),
        Line::NoDraft => Err(LineFault::NoDraft.into()),
    }
}

// Bytes as pairs of hexadecimal digits; `-` for none.
#[derive(Clone, Copy)]
struct Hex<'a>(&'a [u8]);

impl fmt::Display for Hex<'_> {
    fn fmt<W: fmt::Write>(&self, f: &mut fmt::Formatter<W>) -> fmt::Result {
        if self.0.is_empty() {
            return f.write_str("-");
        }
        for byte in self.0 {
            write!(f, "{byte:02x}")?;
        }
        Ok(())
    }
}

impl fmt::Display for Done {
    fn fmt<W: fmt::Write>(&self, f: &mut fmt::Formatter<W>) -> fmt::Result {
        match self {
            Done::Nothing => Ok(()),
            Done::Opened(figures) => put_figures(f, figures),
            Done::Begun { mark, number } => write!(f, " draft {mark}:{number}"),
            Done::Made(id) => write!(f, " list {id}"),
            Done::Node { seen, payload } => put_node(f, seen, payload.as_slice()),
            Done::Bytes(bytes) => write!(f, " {}", Hex(bytes.as_slice())),
            Done::Alike(true) => f.write_str(" yes"),
            Done::Alike(false) => f.write_str(" no"),
            Done::Row { len, ceiling, crc } => {
                write!(f, " length {len} ceiling {ceiling} crc {crc:08x}")
            }
            Done::Listed(text) => put_lines(f, text.as_str()),
        }
    }
}

fn put_figures<W: fmt::Write>(f: &mut fmt::Formatter<W>, figures: &Figures) -> fmt::Result {
    let Figures {
        count,
        end,
        lists,
        fragments,
        percent: _,
    } = *figures;
    write!(
        f,
        " count {count} end {end} lists {lists} fragments {fragments}"
    )
}

fn put_node<W: fmt::Write>(
    f: &mut fmt::Formatter<W>,
    seen: &NodeSeen,
    payload: &[u8],
) -> fmt::Result {
    write!(f, " id {} type {} ref ", seen.id, seen.base)?;
    match seen.reference {
        None => f.write_str("none")?,
        Some(span) => write!(f, "{}+{}", span.start, span.size)?,
    }
    write!(f, " payload {}", Hex(payload))
}

// Lines behind the first, each indented by two.
fn put_lines<W: fmt::Write>(f: &mut fmt::Formatter<W>, text: &str) -> fmt::Result {
    for line in text.lines() {
        write!(f, "\n  {line}")?;
    }
    Ok(())
}

//! Where a fragment or a piece of data may stand.
ghost use Rattle.std.specs.Prelude.{◌≡◌, ◌+◌, if◌then◌else◌, nat_lt};
ghost use Rattle.model.specs.Headers.{header_span};
ghost use Rattle.model.specs.References.{share};
ghost use Rattle.model.specs.OpenedLog.{outside};
ghost use Rattle.tables.specs.Kinds.{least_of};
ghost use Rattle.tables.specs.Misplacings.{log_misplaced, list_misplaced};

use format::references::{ends_past, is_absent};
use model::types::Span;
use refusals::faults::{ListFault, LogFault};

/// Whose fragment it is: the log's, or a list's.
#[derive(Clone, Copy, PartialEq, Eq, Debug)]
pub enum Kind {
    Log,
    List,
}

impl Kind {
    /// A fragment's least size: a log's has the next reference, a list's both marks, its ID and number as well.
    pub fn least(self) -> u64
        ensures { result ≡ least_of self }
    {
        match self {
            Kind::Log => 12,
            Kind::List => 36,
        }
    }

    /// Why the fragment after the last that may be is refused.
    pub fn past_last(self, end: u64, fragment: Span) -> Misplaced
        ensures { result ≡ (if outside (least_of self) end fragment then Misplaced.Outside else Misplaced.Full) }
    {
        if is_outside(self.least(), end, fragment) {
            Misplaced::Outside
        } else {
            Misplaced::Full
        }
    }
}

/// Why a fragment cannot stand where its reference says.
#[derive(Clone, Copy, PartialEq, Eq, Debug)]
pub enum Misplaced {
    Outside,
    Full,
    Overlap,
}

impl Misplaced {
    /// The same, with the place of the reference.
    pub fn at(self, place: u64) -> MisplacedAt
        ensures why { result.why ≡ self }
        ensures place { result.place ≡ place }
    {
        MisplacedAt { why: self, place }
    }
}

/// A fragment that cannot stand where a reference says, with the place of that reference.
#[derive(Clone, Copy, PartialEq, Eq, Debug)]
pub struct MisplacedAt {
    pub why: Misplaced,
    pub place: u64,
}

impl From<MisplacedAt> for LogFault {
    ghost from_gives = { λ m r. r ≡ log_misplaced m.why m.place };

    fn from(m: MisplacedAt) -> LogFault {
        let place = m.place;
        match m.why {
            Misplaced::Outside => LogFault::Outside { place },
            Misplaced::Full => LogFault::Full { place },
            Misplaced::Overlap => LogFault::Overlap { place },
        }
    }
}

impl From<MisplacedAt> for ListFault {
    ghost from_gives = { λ m r. r ≡ list_misplaced m.why m.place };

    fn from(m: MisplacedAt) -> ListFault {
        let place = m.place;
        match m.why {
            Misplaced::Outside => ListFault::Outside { place },
            Misplaced::Full => ListFault::Full { place },
            Misplaced::Overlap => ListFault::Overlap { place },
        }
    }
}

/// Whether a fragment's reference is absent, its size under the least one, or its end past the file's.
pub fn is_outside(least: u64, end: u64, fragment: Span) -> bool
    ensures { result ≡ outside least end fragment }
{
    is_absent(fragment) || fragment.size < least || passes(end, fragment)
}

/// Whether a range ends past `end`.
pub fn passes(end: u64, span: Span) -> bool
    ensures { result ≡ nat_lt end (span.start + span.size) }
{
    ends_past(end, span.start, span.size)
}

/// Whether a range shares a byte with the header.
pub fn is_in_header(span: Span) -> bool
    ensures { result ≡ share span header_span }
{
    span.size > 0 && span.start < 1024
}

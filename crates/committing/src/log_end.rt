//! The end of the log.
use model::types::Span;

/// The end of the finished log: its last fragment, and how many of that fragment's entries are used.
#[derive(Clone, Copy, PartialEq, Eq, Debug)]
pub struct LogEnd {
    pub fragment: Span,
    pub used: u64,
}

//! What a look at a node answers.
use model::types::Span;

/// A node: its ID, its BaseType, its reference unless that is absent, and how many bytes of payload the buffer's front has.
#[derive(Clone, Copy, PartialEq, Eq, Debug)]
pub struct NodeSeen {
    pub id: u32,
    pub base: u32,
    pub reference: Option<Span>,
    pub payload: usize,
}

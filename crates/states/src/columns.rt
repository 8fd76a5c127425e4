//! A node's line, in columns.
use crate::hexadecimal::Front;
use looks::seen::NodeSeen;
use model::types::Span;
use std::fmt;

// A reference: its start and size, or `none`.
#[derive(Clone, Copy)]
struct Reference(Option<Span>);

impl fmt::Display for Reference {
    fn fmt<W: fmt::Write>(&self, f: &mut fmt::Formatter<W>) -> fmt::Result {
        match self.0 {
            Some(span) => write!(f, "{:>6}+{:<6}", span.start, span.size),
            None => write!(f, "{:>6}{:7}", "none", ""),
        }
    }
}

/// A node with its index in its list, and the front of its payload.
#[derive(Clone, Copy)]
pub(crate) struct NodeLine<'a> {
    pub index: u64,
    pub node: NodeSeen,
    pub payload: Front<'a>,
}

impl fmt::Display for NodeLine<'_> {
    fn fmt<W: fmt::Write>(&self, f: &mut fmt::Formatter<W>) -> fmt::Result {
        let NodeSeen {
            id,
            base,
            reference,
            payload,
        } = self.node;
        write!(f, "{:>8}  id {id:>4}  type {base}", self.index)?;
        writeln!(
            f,
            "  size {payload:>4}  ref {}  {}",
            Reference(reference),
            self.payload
        )
    }
}

/// The data of the node on the line above, under its reference.
#[derive(Clone, Copy)]
pub(crate) struct DataLine<'a> {
    pub size: u64,
    pub data: Front<'a>,
}

impl fmt::Display for DataLine<'_> {
    fn fmt<W: fmt::Write>(&self, f: &mut fmt::Formatter<W>) -> fmt::Result {
        writeln!(f, "{:38}data {:<12}  {}", "", self.size, self.data)
    }
}

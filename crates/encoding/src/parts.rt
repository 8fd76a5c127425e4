//! The format's parts, put into a buffer: references, nodes, fragments, entries.
ghost use Rattle.std.specs.Prelude.{◌≡◌, ◌+◌, ◌-◌, ◌≤◌, length};
ghost use Rattle.model.specs.Bytes.{digits};
ghost use Rattle.model.specs.References.{span_bytes};
ghost use Rattle.model.specs.Nodes.{node_head, terminator};
ghost use Rattle.model.specs.ListFragments.{new_fragment};
ghost use Rattle.model.specs.LogFragments.{entry_bytes, new_log_fragment};
ghost use Rattle.encoding.specs.Buffers.{pushed};
ghost use Rattle.encoding.specs.NewNodes.{head_bytes, node_bytes};

use crate::buffer::WriteBuffer;
use model::marks::{FIRST_MARK, LAST_MARK, NIL};
use model::types::{Entry, Span};

/// A node's first number takes so many bytes.
pub const PLAIN_BYTES: usize = 4;

/// With a reference behind it they are so many.
pub const REFERRING_BYTES: usize = 16;

// The first four bytes of the node that ends a fragment's nodes.
const TERMINATOR: u64 = 0x800010FF;

/// A new fragment has so many bytes.
pub const FRAGMENT_BYTES: u64 = 1024;

/// A list's new fragment has so many bytes for its nodes.
pub const NODE_ROOM: usize = 988;

// A fragment of the log has so many entries.
const MOST_ENTRIES: usize = 126;

// A number with the lowest four bytes of a node's first; the node has `fixed` bytes and the payload's.
// Of the payload's size only what reaches these four bytes is taken, so that no sum passes 2^64.
// The base is the field's number, 0 where the node refers to nothing.
#[tactic(auto, using(crate::proofs::Widths::head_low))]
fn head_number(id: u32, fixed: usize, payload: usize, base: u32) -> u64
    requires { fixed ≤ 16 }
    ensures { digits 4 result ≡ node_head id (fixed + payload) base }
{
    let size = (fixed + payload % 0x40_0000) as u64;
    u64::from(id) + 0x400 * size + 0x800_0000 * u64::from(base) + 0x8000_0000
}

/// A node that is to be written: its ID; the BaseType and the reference, if it refers to anything; and its payload.
#[derive(Clone, Copy, Debug)]
pub struct NewNode<'a> {
    pub id: u32,
    // the BaseType may be any number here: `Target::base` gives those that a file has
    pub refers: Option<(u32, Span)>,
    pub payload: &'a [u8],
}

#[tactic(auto, using(crate::proofs::Composed::plain_length, crate::proofs::Composed::referring_length))]
impl NewNode<'_> {
    // How many bytes for nodes it leaves in a new fragment.
    fn left(&self) -> usize
        ensures { result ≡ 988 - length (node_bytes self.now) }
    {
        match self.refers {
            None => (NODE_ROOM - PLAIN_BYTES).saturating_sub(self.payload.len()),
            Some(_) => (NODE_ROOM - REFERRING_BYTES).saturating_sub(self.payload.len()),
        }
    }
}

#[tactic(auto, using(crate::proofs::Pushes::pushed_both))]
impl WriteBuffer {
    /// A reference: its start in eight bytes, its size in four.
    pub fn push_span(&mut self, span: Span)
        ensures { self.new.bytes.items ≡ pushed self.old.bytes.items (span_bytes span) }
    {
        self.push_number(8, span.start);
        self.push_number(4, span.size);
    }

    /// A node: its number, the reference if there is one, and the payload.
    #[tactic(auto, using(crate::proofs::Pushes::pushed_both, crate::proofs::Composed::node_parts))]
    pub fn push_node(&mut self, node: &NewNode)
        ensures { self.new.bytes.items ≡ pushed self.old.bytes.items (node_bytes node.now) }
    {
        self.push_head(node);
        self.push_bytes(node.payload);
    }

    // What stands before a node's payload.
    fn push_head(&mut self, node: &NewNode)
        ensures { self.new.bytes.items ≡ pushed self.old.bytes.items (head_bytes node.now) }
    {
        let NewNode {
            id,
            refers,
            payload,
        } = *node;
        match refers {
            None => self.push_number(4, head_number(id, PLAIN_BYTES, payload.len(), 0)),
            Some((base, span)) => {
                self.push_number(4, head_number(id, REFERRING_BYTES, payload.len(), base));
                self.push_span(span);
            }
        }
    }

    /// The node that says that the nodes go on in the next fragment.
    pub fn push_terminator(&mut self)
        ensures { self.new.bytes.items ≡ pushed self.old.bytes.items terminator }
    {
        self.push_number(4, TERMINATOR);
    }

    /// A new fragment of a list, with one node.
    pub fn push_fragment(&mut self, list: u32, number: u32, node: &NewNode)
        ensures { self.new.bytes.items ≡ pushed self.old.bytes.items (new_fragment list number (node_bytes node.now)) }
    {
        self.push_number(8, FIRST_MARK);
        self.push_number(4, u64::from(list));
        self.push_number(4, u64::from(number));
        self.push_node(node);
        self.push_zeros(node.left());
        self.push_span(NIL);
        self.push_number(8, LAST_MARK);
    }

    /// Entries of the log, each in eight bytes.
    #[tactic(auto, using(crate::proofs::Pushes::pushed_both, crate::proofs::Pushes::pushed_none, crate::proofs::Composed::entries_from, crate::proofs::Composed::entries_none))]
    pub fn push_entries(&mut self, entries: &[Entry])
        ensures { self.new.bytes.items ≡ pushed self.old.bytes.items (entry_bytes entries.now) }
    {
        for entry in entries {
            self.push_number(4, u64::from(entry.source));
            self.push_number(4, u64::from(entry.number));
        }
    }

    /// A new fragment of the log, with these entries.
    pub fn push_log_fragment(&mut self, entries: &[Entry])
        ensures { self.new.bytes.items ≡ pushed self.old.bytes.items (new_log_fragment entries.now) }
    {
        self.push_entries(entries);
        self.push_zeros(8 * MOST_ENTRIES.saturating_sub(entries.len()));
        self.push_span(NIL);
        self.push_zeros(4);
    }
}

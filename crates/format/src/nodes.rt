//! Nodes: four bytes that are a number, then a reference unless the node refers to nothing.
ghost use Rattle.std.specs.Prelude.{◌≡◌, ◌<◌, ◌≤◌, ◌&&◌, length, drop, if◌then◌else◌, ◌==◌, MatchOption};
ghost use Rattle.model.specs.Bytes.{le};
ghost use Rattle.model.specs.References.{span, span_in, present};
ghost use Rattle.model.specs.Nodes.{refers, node_at};
ghost use Rattle.format.specs.Heads.{head_of};
ghost use Rattle.format.specs.Targets.{target_of, base_of};

use crate::fetching::bytes_at;
use crate::references::{is_absent, reference};
use model::types::Span;
use store::base::Store;

/// What a node refers to; its BaseType says it by this number.
#[derive(Clone, Copy, PartialEq, Eq, Debug)]
pub enum Target {
    Data = 1,
    List = 2,
}

/// The fields of a node's first four bytes, as they stand there: in a bad node they may be any numbers.
#[derive(Clone, Copy, PartialEq, Eq, Debug)]
pub struct Head {
    pub id: u32,
    pub size: u32,
    pub stp: u32,
    pub cb: u32,
    pub base: u32,
    pub top: u32,
}

impl Target {
    /// The BaseType that says it.
    pub fn base(self) -> u32
        ensures { result ≡ base_of self }
    {
        self as u32
    }
}

impl From<u32> for Head {
    ghost from_gives = { λ v r. r ≡ head_of v };

    fn from(v: u32) -> Head {
        Head {
            id: v & 0x3ff,
            size: (v >> 10) & 0x1fff,
            stp: (v >> 23) & 3,
            cb: (v >> 25) & 3,
            base: (v >> 27) & 0xf,
            top: v >> 31,
        }
    }
}

impl Head {
    /// What a node with this head refers to, by its BaseType.
    pub fn target(&self) -> Option<Target>
        ensures { result ≡ target_of self.now.base }
    {
        match self.base {
            1 => Some(Target::Data),
            2 => Some(Target::List),
            _ => None,
        }
    }
}

/// A node's head and its reference; zero where it refers to nothing.
#[derive(Clone, Copy, PartialEq, Eq, Debug)]
pub struct NodeHead {
    pub head: Head,
    pub reference: Span,
}

impl NodeHead {
    /// Whether the node has a reference to this, and it is present.
    pub fn refers_to(&self, target: Target) -> bool
        ensures { result ≡ (self.now.head.base == base_of target && present self.now.reference) }
    {
        self.head.target() == Some(target) && !is_absent(self.reference)
    }
}

/// The head of a node and what follows it, if there are four bytes.
#[tactic(auto, unfolding(model::specs::Bytes::le))]
pub fn split(node: &[u8]) -> Option<(Head, &[u8])>
    ensures { MatchOption result (length node.now < 4) (λ p. (4 ≤ length node.now) × (p.0 ≡ head_of (le 4 node.now 0)) × (p.1.now ≡ drop 4 node.now)) }
{
    match node {
        [a, b, c, d, rest @ ..] => {
            let v = u32::from_le_bytes([*a, *b, *c, *d]);
            Some((Head::from(v), rest))
        }
        _ => None,
    }
}

/// The head and the reference of the node at `place`.
pub fn node_at<S: Store>(store: &S, place: u64) -> NodeHead
    ensures head { result.head ≡ head_of (le 4 (S.Store.bytes store.now) place) }
    ensures reference { result.reference ≡ (node_at (S.Store.bytes store.now) place).reference }
{
    let bytes: [u8; 20] = bytes_at(store, place);
    let [a, b, c, d, ..] = bytes;
    let head = Head::from(u32::from_le_bytes([a, b, c, d]));
    NodeHead {
        head,
        reference: referred(&bytes[4..], head),
    }
}

// The reference behind a node's head; zero where the node refers to nothing.
fn referred(rest: &[u8], head: Head) -> Span
    requires { 16 ≤ length rest.now }
    ensures { result ≡ (if refers head.base then span_in rest.now 0 head.stp head.cb else span 0 0) }
{
    head.target()
        .and_then(|_| reference(rest, head.stp, head.cb))
        .map_or(
            Span { start: 0, size: 0 },
            |(start, size)| Span { start, size },
        )
}

//! A node that a look has found.
ghost use Rattle.std.specs.Prelude.{◌≡◌, ℕ, ◌+◌, ◌^◌, ◌<◌, ◌≤◌, List, length, slice_index_or, if◌then◌else◌, ◌==◌, ◌&&◌};
ghost use Rattle.model.specs.References.{span, present};
ghost use Rattle.model.specs.Nodes.{Node};
ghost use Rattle.model.specs.Means.{Good, Nodes};
ghost use Rattle.model.specs.Looks.{no_node};
ghost use Rattle.looks.specs.Finds.{Shows, IsSeen};

use crate::seen::NodeSeen;
use format::fetching::number_at;
use format::nodes::{Head, NodeHead, Target, node_at};
use format::references::is_absent;
use model::types::Span;
use node_walk::reference_width;
use store::base::Store;

/// A node that was found: its head and reference, and where its payload stands.
#[derive(Clone, Copy, PartialEq, Eq, Debug)]
pub(crate) struct FoundNode {
    pub node: NodeHead,
    pub payload: Span,
}

impl FoundNode {
    /// The node at `place`.
    #[tactic(auto, using(crate::proofs::Comparing::length_piece))]
    pub fn at<S: Store>(store: &S, place: u64) -> FoundNode
        ensures { (stop : ℕ) (n : Node) → stop ≤ 2 ^ 40 → stop ≤ length (S.Store.bytes store.now) → Good (S.Store.bytes store.now) stop place n → Shows (S.Store.bytes store.now) result n }
    {
        let node = node_at(store, place);
        let before = 4 + reference_width(&node.head) as u64;
        FoundNode {
            node,
            payload: Span {
                start: place.saturating_add(before),
                size: u64::from(node.head.size).saturating_sub(before),
            },
        }
    }

    /// What a look at the node answers.
    pub fn seen(&self) -> NodeSeen
        ensures { IsSeen self.now result }
    {
        let NodeHead { head, reference } = self.node;
        NodeSeen {
            id: head.id,
            base: head.base,
            reference: (!is_absent(reference)).then_some(reference),
            payload: self.payload.size as usize,
        }
    }

    /// Where the node's data stands; no bytes if it has none.
    pub fn data(&self) -> Span
        ensures { result ≡ (if self.now.node.head.base == 1 && present self.now.node.reference then self.now.node.reference else span 0 0) }
    {
        if self.node.refers_to(Target::Data) {
            self.node.reference
        } else {
            Span { start: 0, size: 0 }
        }
    }
}

/// The place of the node with an index among those that stand back to back from `first` on.
#[tactic(auto, using(crate::proofs::Walking::walked_on, crate::proofs::Walking::good_here))]
pub(crate) fn place_of<S: Store>(store: &S, first: u64, index: u32) -> u64
    ensures { (stop q : ℕ) (ns : List Node) → stop ≤ 2 ^ 40 → index < length ns → Nodes (S.Store.bytes store.now) stop first ns q → Good (S.Store.bytes store.now) stop result (slice_index_or ns index no_node) }
{
    let mut place = first;
    for _ in 0..index {
        let head = Head::from(number_at::<u32, _>(store, place));
        place = place.saturating_add(u64::from(head.size));
    }
    place
}

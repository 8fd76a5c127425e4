//! One node of a list fragment after the other.
#![tactic(auto)]

ghost use Rattle.std.specs.Prelude.{◌≡◌, ◌+◌, ◌-◌, ◌^◌, ◌<◌, ◌≤◌, true, false, if◌then◌else◌, nat_lt};
ghost use Rattle.model.specs.Nodes.{refers};
ghost use Rattle.model.specs.References.{start_width, size_width};
ghost use Rattle.model.specs.ListFragments.{nodes_from, nodes_to};
ghost use Rattle.node_walk.specs.Walks.{Before, bad_head};

use format::nodes::{Head, NodeHead, node_at};
use format::references::{ends_past, width};
use model::types::Span;
use store::base::Store;

pub mod fragments;

/// The ID of a terminator.
pub const TERMINATOR: u32 = 0xFF;

/// The node at `place`, or nothing where the fragment's nodes end: under 4 bytes are left before `stop`, or a terminator stands there.
#[tactic(auto, unfolding(model::specs::Nodes::hands_over))]
pub fn node_before<S: Store>(store: &S, place: u64, stop: u64) -> Option<NodeHead>
    ensures { Before (S.Store.bytes store.now) place stop result }
{
    if ends_past(stop, place, 4) {
        return None;
    }
    let node = node_at(store, place);
    (node.head.id != TERMINATOR).then_some(node)
}

/// Whether no node begins at `place` with this head, by its raw fields: ID 0, the top bit clear, BaseType over 2, a size too small for its parts, or an end past `stop`.
pub fn is_bad(head: &Head, place: u64, stop: u64) -> bool
    ensures { result ≡ bad_head head.now stop place }
{
    head.id == 0
        || head.top == 0
        || head.base > 2
        || (head.size as usize) < 4 + reference_width(head)
        || ends_past(stop, place, head.size as u64)
}

/// How many bytes the reference of a node with this head takes.
pub fn reference_width(head: &Head) -> usize
    ensures value { result ≡ (if refers head.now.base then start_width head.now.stp + size_width head.now.cb else 0) }
    ensures bound { result ≤ 16 }
{
    head.target().map_or(0, |_| width(head.stp, head.cb))
}

/// Where a fragment's nodes begin: of any range, where a `ListFragment` asks for its own.
pub fn nodes_from(fragment: Span) -> u64
    ensures { fragment.start + fragment.size ≤ 2 ^ 40 → result ≡ nodes_from fragment }
{
    fragment.start.saturating_add(16)
}

/// Where they must end: there stands the next reference.
pub fn nodes_to(fragment: Span) -> u64
    ensures { fragment.start + fragment.size ≤ 2 ^ 40 → result ≡ nodes_to fragment }
{
    fragment
        .start
        .saturating_add(fragment.size)
        .saturating_sub(20)
}

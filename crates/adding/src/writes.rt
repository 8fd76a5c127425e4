//! The writes of an add, made one after the other.
ghost use Rattle.std.specs.Prelude.{◌≡◌, ◌^◌, ◌≤◌, false, List, ◌++◌, length};
ghost use Rattle.model.specs.Bytes.{Write, behind};
ghost use Rattle.model.specs.References.{span};
ghost use Rattle.model.specs.Nodes.{referring_node};
ghost use Rattle.model.specs.Calls.{too_large};
ghost use Rattle.model.specs.Laws.{Taken};
ghost use Rattle.encoding.specs.NewNodes.{written_node, node_bytes};
ghost use Rattle.adding.specs.Adds.{add_of};
ghost use Rattle.writing.specs.Padded.{padded};
ghost use Rattle.writing.specs.Tails.{as_tail, InReach};
ghost use Rattle.adding.specs.Writes.{node_writes, add_writes, WritesPlanned};
ghost use Rattle.adding.specs.Parts.{alone, fragment_at, ended, named, spilled, then_node};

use crate::adds::{NewAdd, With};
use encoding::buffer::WriteBuffer;
use encoding::parts::{FRAGMENT_BYTES, NewNode};
use format::nodes::Target;
use model::types::Span;
use node_walk::nodes_to;
use store::base::SavingStore;
use writing::put_at;
use writing::tails::Tail;

// A terminator has so many bytes.
const TERMINATOR_BYTES: u64 = 4;

/// These are the writes that the rules plan.
#[tactic(auto, using(crate::proofs::Planned::writes_planned))]
pub fn writes_are_those_planned()
    ensures { WritesPlanned }
{}

// Writes what the buffer holds to `end`, with zeros up to the next place divisible by 8, and answers the end behind it.
#[tactic(auto, using(crate::proofs::Held::pad_fits), unfolding(crate::specs::Parts::alone))]
fn write_piece<S: SavingStore>(store: &mut S, buffer: &mut WriteBuffer, end: u64) -> u64
    ensures trail { (later : List Write) → length buffer.old.bytes.items ≤ 65536 → Taken (length (S.Store.bytes store.old)) (S.Store.most store.old) (alone (padded end buffer.old.bytes.items) ++ later) → S.SavingStore.wrote store.old (alone (padded end buffer.old.bytes.items)) store.new }
    ensures later { (later : List Write) → length buffer.old.bytes.items ≤ 65536 → Taken (length (S.Store.bytes store.old)) (S.Store.most store.old) (alone (padded end buffer.old.bytes.items) ++ later) → Taken (length (S.Store.bytes store.new)) (S.Store.most store.new) later }
    ensures place { length buffer.old.bytes.items ≤ 65536 → end ≤ 2 ^ 40 → result ≡ behind (padded end buffer.old.bytes.items) }
{
    buffer.pad(end);
    put_at(store, end, buffer.as_slice());
    end.saturating_add(buffer.len() as u64)
}

// Writes data to `end`, and answers the end behind it.
#[tactic(auto, using(crate::proofs::Held::fills))]
fn write_data<S: SavingStore>(
    store: &mut S,
    buffer: &mut WriteBuffer,
    end: u64,
    content: &[u8],
) -> u64
    ensures trail { (later : List Write) → length content.now ≤ 65536 → Taken (length (S.Store.bytes store.old)) (S.Store.most store.old) (alone (padded end content.now) ++ later) → S.SavingStore.wrote store.old (alone (padded end content.now)) store.new }
    ensures later { (later : List Write) → length content.now ≤ 65536 → Taken (length (S.Store.bytes store.old)) (S.Store.most store.old) (alone (padded end content.now) ++ later) → Taken (length (S.Store.bytes store.new)) (S.Store.most store.new) later }
    ensures place { length content.now ≤ 65536 → end ≤ 2 ^ 40 → result ≡ behind (padded end content.now) }
{
    buffer.clear();
    buffer.push_bytes(content);
    write_piece(store, buffer, end)
}

// Writes a list's new fragment with a node to `end`, and answers the end behind it.
#[tactic(auto, using(crate::proofs::Held::fills, crate::proofs::Held::fragment_fits), unfolding(crate::specs::Parts::fragment_at))]
fn write_fragment<S: SavingStore>(
    store: &mut S,
    buffer: &mut WriteBuffer,
    end: u64,
    list: u32,
    number: u32,
    node: &NewNode,
) -> u64
    ensures trail { (later : List Write) → length (node_bytes node.now) ≤ 988 → Taken (length (S.Store.bytes store.old)) (S.Store.most store.old) (alone (fragment_at end list number (node_bytes node.now)) ++ later) → S.SavingStore.wrote store.old (alone (fragment_at end list number (node_bytes node.now))) store.new }
    ensures later { (later : List Write) → length (node_bytes node.now) ≤ 988 → Taken (length (S.Store.bytes store.old)) (S.Store.most store.old) (alone (fragment_at end list number (node_bytes node.now)) ++ later) → Taken (length (S.Store.bytes store.new)) (S.Store.most store.new) later }
    ensures place { length (node_bytes node.now) ≤ 988 → end ≤ 2 ^ 40 → result ≡ behind (fragment_at end list number (node_bytes node.now)) }
{
    buffer.clear();
    buffer.push_fragment(list, number, node);
    write_piece(store, buffer, end)
}

// Writes a terminator behind a list's last node, if there is room for it.
#[tactic(auto, using(crate::proofs::Held::fills, crate::proofs::Held::terminator_fits), unfolding(crate::specs::Parts::ended))]
fn write_terminator<S: SavingStore>(store: &mut S, buffer: &mut WriteBuffer, tail: &Tail)
    ensures trail { (later : List Write) → InReach 0 tail.now → Taken (length (S.Store.bytes store.old)) (S.Store.most store.old) (ended (as_tail tail.now) ++ later) → S.SavingStore.wrote store.old (ended (as_tail tail.now)) store.new }
    ensures later { (later : List Write) → InReach 0 tail.now → Taken (length (S.Store.bytes store.old)) (S.Store.most store.old) (ended (as_tail tail.now) ++ later) → Taken (length (S.Store.bytes store.new)) (S.Store.most store.new) later }
{
    if tail.free.saturating_add(TERMINATOR_BYTES) <= nodes_to(tail.fragment) {
        buffer.clear();
        buffer.push_terminator();
        put_at(store, tail.free, buffer.as_slice());
    }
}

// Names the new fragment at `end` in the one that was a list's last.
#[tactic(auto, using(crate::proofs::Held::span_fills, crate::proofs::Spills::named_put))]
fn write_next<S: SavingStore>(store: &mut S, buffer: &mut WriteBuffer, end: u64, tail: &Tail)
    ensures { InReach 0 tail.now → Taken (length (S.Store.bytes store.old)) (S.Store.most store.old) (named end (as_tail tail.now)) → S.SavingStore.wrote store.old (named end (as_tail tail.now)) store.new }
{
    buffer.clear();
    buffer.push_span(Span {
        start: end,
        size: FRAGMENT_BYTES,
    });
    put_at(store, nodes_to(tail.fragment), buffer.as_slice());
}

// Ends a list's last fragment, which the new one at `end` follows.
fn hand_over<S: SavingStore>(store: &mut S, buffer: &mut WriteBuffer, end: u64, tail: &Tail)
    ensures { InReach 0 tail.now → Taken (length (S.Store.bytes store.old)) (S.Store.most store.old) (ended (as_tail tail.now) ++ named end (as_tail tail.now)) → S.SavingStore.wrote store.old (ended (as_tail tail.now) ++ named end (as_tail tail.now)) store.new }
{
    write_terminator(store, buffer, tail);
    write_next(store, buffer, end, tail);
}

// Writes a node into a new fragment of its list.
fn spill<S: SavingStore>(
    store: &mut S,
    buffer: &mut WriteBuffer,
    end: u64,
    tail: &Tail,
    number: u32,
    node: &NewNode,
)
    ensures { InReach 0 tail.now → length (node_bytes node.now) ≤ 988 → Taken (length (S.Store.bytes store.old)) (S.Store.most store.old) (spilled end (as_tail tail.now) number (node_bytes node.now)) → S.SavingStore.wrote store.old (spilled end (as_tail tail.now) number (node_bytes node.now)) store.new }
{
    write_fragment(store, buffer, end, tail.list, number, node);
    hand_over(store, buffer, end, tail);
}

// Writes a node behind its list's last, or into a new fragment where it does not fit.
#[tactic(auto, using(crate::proofs::Held::fills, crate::proofs::Spills::node_fits, crate::proofs::Spills::node_spills))]
fn write_node<S: SavingStore>(
    store: &mut S,
    buffer: &mut WriteBuffer,
    end: u64,
    tail: &Tail,
    node: &NewNode,
)
    ensures { InReach 0 tail.now → length (node_bytes node.now) ≤ 988 → Taken (length (S.Store.bytes store.old)) (S.Store.most store.old) (node_writes end (as_tail tail.now) (node_bytes node.now)) → S.SavingStore.wrote store.old (node_writes end (as_tail tail.now) (node_bytes node.now)) store.new }
{
    buffer.clear();
    buffer.push_node(node);
    if tail.free.saturating_add(buffer.len() as u64) <= nodes_to(tail.fragment) {
        put_at(store, tail.free, buffer.as_slice());
    } else {
        let number = tail.number.saturating_add(1);
        spill(store, buffer, end, tail, number, node);
    }
}

impl<'a> NewAdd<'a> {
    // Its node, with the BaseType and the reference, if it refers to anything.
    fn node(&self, refers: Option<(u32, Span)>) -> NewNode<'a>
        ensures { node_bytes result ≡ written_node self.now.id refers self.now.payload.now }
    {
        NewNode {
            id: self.id,
            refers,
            payload: self.payload,
        }
    }
}

// Writes data, and then the node that refers to it.
#[tactic(auto, using(crate::proofs::Near::near))]
fn write_with_data<S: SavingStore>(
    store: &mut S,
    buffer: &mut WriteBuffer,
    end: u64,
    tail: &Tail,
    add: &NewAdd,
    content: &[u8],
)
    ensures { InReach end tail.now → length content.now ≤ 65536 → length (referring_node add.now.id 1 (span end (length content.now)) add.now.payload.now) ≤ 988 → Taken (length (S.Store.bytes store.old)) (S.Store.most store.old) (then_node (padded end content.now) (as_tail tail.now) (referring_node add.now.id 1 (span end (length content.now)) add.now.payload.now)) → S.SavingStore.wrote store.old (then_node (padded end content.now) (as_tail tail.now) (referring_node add.now.id 1 (span end (length content.now)) add.now.payload.now)) store.new }
{
    let data = Span {
        start: end,
        size: content.len() as u64,
    };
    let node = add.node(Some((Target::Data.base(), data)));
    let behind = write_data(store, buffer, end, content);
    write_node(store, buffer, behind, tail, &node);
}

// Writes a new list with its first node, and then the node that refers to it.
#[tactic(auto, using(crate::proofs::Near::near))]
fn write_with_list<S: SavingStore>(
    store: &mut S,
    buffer: &mut WriteBuffer,
    end: u64,
    tail: &Tail,
    add: &NewAdd,
    made: u32,
    first: &NewNode,
)
    ensures { InReach end tail.now → length (node_bytes first.now) ≤ 988 → length (referring_node add.now.id 2 (span end 1024) add.now.payload.now) ≤ 988 → Taken (length (S.Store.bytes store.old)) (S.Store.most store.old) (then_node (fragment_at end made 0 (node_bytes first.now)) (as_tail tail.now) (referring_node add.now.id 2 (span end 1024) add.now.payload.now)) → S.SavingStore.wrote store.old (then_node (fragment_at end made 0 (node_bytes first.now)) (as_tail tail.now) (referring_node add.now.id 2 (span end 1024) add.now.payload.now)) store.new }
{
    let list = Span {
        start: end,
        size: FRAGMENT_BYTES,
    };
    let node = add.node(Some((Target::List.base(), list)));
    let behind = write_fragment(store, buffer, end, made, 0, first);
    write_node(store, buffer, behind, tail, &node);
}

/// Makes the writes of an add to the list with this tail, over a draft that ends at `end`; a branch makes the list `made`.
#[tactic(auto, using(crate::proofs::Near::near, crate::proofs::ByKind::plain_writes, crate::proofs::ByKind::plain_fits, crate::proofs::ByKind::data_writes, crate::proofs::ByKind::data_fits, crate::proofs::ByKind::content_fits, crate::proofs::ByKind::list_writes, crate::proofs::ByKind::list_fits, crate::proofs::ByKind::first_fits))]
pub fn write_add<S: SavingStore>(
    store: &mut S,
    buffer: &mut WriteBuffer,
    end: u64,
    tail: &Tail,
    made: u32,
    add: &NewAdd,
)
    ensures { InReach end tail.now → too_large (add_of add.now) ≡ false → Taken (length (S.Store.bytes store.old)) (S.Store.most store.old) (add_writes end (as_tail tail.now) made (add_of add.now)) → S.SavingStore.wrote store.old (add_writes end (as_tail tail.now) made (add_of add.now)) store.new }
{
    match add.with {
        With::Nothing => write_node(store, buffer, end, tail, &add.node(None)),
        With::Data(content) => write_with_data(store, buffer, end, tail, add, content),
        With::List { id, payload } => {
            let first = NewNode {
                id,
                refers: None,
                payload,
            };
            write_with_list(store, buffer, end, tail, add, made, &first);
        }
    }
}

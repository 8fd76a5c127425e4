//! Opening the lists: each that is named, walked whole before the next.
#![tactic(auto)]

ghost use Rattle.std.specs.Prelude.{◌≡◌, false, ◌^◌, ◌<◌, ◌≤◌, [], ◌∷◌, ◌++◌, length, take, IfOk, vec_len, OnOk};
ghost use Rattle.counts.specs.Noted.{noted};
ghost use Rattle.pieces.specs.Found.{of_list, some_of};
ghost use Rattle.model.specs.References.{span_at};
ghost use Rattle.model.specs.ListFragments.{nodes_to};
ghost use Rattle.model.specs.Section.{Log};
ghost use Rattle.model.specs.OpenedLists.{named_first};
ghost use Rattle.refusals.specs.Checked.{Checked};
ghost use Rattle.lists_pass.specs.FragmentChecks.{place_checks, label_checks, mislabelled, first_checks, next_checks, begin_checks};
ghost use Rattle.lists_pass.specs.Listings.{Begins, Rests, Lists};
ghost use Rattle.lists_pass.specs.Opening.{Holds, ReadsAll};
ghost use Rattle.tables.specs.Queues.{Held, Names, name_of};
ghost use Rattle.lists_pass.specs.Parts.{Walks};

use crate::begun::Begun;
use format::fetching::number_at;
use format::nodes::{NodeHead, Target};
use format::references::{is_absent, span_at};
use header_pass::checked::CheckedHeader;
use model::limits::{MOST_FRAGMENTS, MOST_LISTS};
use model::marks::{FIRST_MARK, LAST_MARK};
use model::types::{Header, Span};
use node_walk::fragments::ListFragment;
use node_walk::{is_bad, node_before};
use refusals::faults::{InList, ListFault};
use store::base::Store;
use tables::fragments::Fragments;
use tables::places::Kind;
use tables::queue::{Named, Queue};
use tables::room::{Room, Row};

mod begun;

// Where the header refers to the root list and to the hashed chunk list.
const ROOT_FIELD: u64 = 0xAC;

const HASHED_FIELD: u64 = 0x94;

// List IDs begin here.
const LEAST_ID: u32 = 16;

// What was read of a fragment's nodes: how many, and the place behind the last of them.
#[derive(Clone, Copy, PartialEq, Eq, Debug)]
struct Part {
    nodes: u32,
    free: u64,
}

/// Reads all lists: those that the header names, and then those that are met.
pub fn read_lists<S: Store>(
    store: &S,
    checked: &CheckedHeader,
    room: &mut Room,
) -> Result<(), InList>
    ensures answer { (log : Log) → Holds log room.old.counts.changes.items room.old.fragments room.old.lists → room.old.queue ≡ [] → ReadsAll (S.Store.bytes store.now) checked.now.header log room.new.lists room.new.pieces.rows room.new.fragments result }
    ensures counts { room.new.counts ≡ room.old.counts }
{
    // no piece of an earlier file is left
    room.pieces.clear();
    name_first(&checked.header, &mut room.queue);
    read_named(store, checked, room)
}

// Names the root, and the hashed chunk list unless it is absent.
fn name_first(header: &Header, queue: &mut Queue)
    ensures { Names queue.old (named_first header.now) queue.new }
{
    queue.name(ROOT_FIELD, header.root);
    if !is_absent(header.hashed) {
        queue.name(HASHED_FIELD, header.hashed);
    }
}

// Reads the lists of the queue, each whole before the next. It grows by those that are met, so they are reached by number.
// Store, header and room are no struct here: the room is lent again in parts at each step, and only it changes.
#[tactic(auto, using(crate::proofs::Openings::opening_none))]
fn read_named<S: Store>(store: &S, checked: &CheckedHeader, room: &mut Room) -> Result<(), InList>
    requires { room.old.pieces.rows ≡ [] }
    ensures answer { (log : Log) → Holds log room.old.counts.changes.items room.old.fragments room.old.lists → Held room.old.queue (named_first checked.now.header) → ReadsAll (S.Store.bytes store.now) checked.now.header log room.new.lists room.new.pieces.rows room.new.fragments result }
    ensures counts { room.new.counts ≡ room.old.counts }
{
    for next in 0..MOST_LISTS + 1 {
        let Some(named) = room.queue.get(next) else {
            return Ok(());
        };
        read_list(store, checked, room, named)?;
    }
    Ok(())
}

// Reads the list that a reference names, unless there are as many as there may be.
#[tactic(auto, using(crate::proofs::ListWalks::held_first))]
fn read_list<S: Store>(
    store: &S,
    checked: &CheckedHeader,
    room: &mut Room,
    named: Named,
) -> Result<(), InList>
    ensures answer { length room.old.pieces.rows ≤ length room.old.fragments → Lists (S.Store.bytes store.now) checked.now.header.end room.old.counts.changes.items room.old.fragments room.old.lists named room.new.lists room.old.pieces.rows room.new.pieces.rows room.new.fragments room.old.queue room.new.queue result }
    ensures counts { room.new.counts ≡ room.old.counts }
{
    if room.lists.len() >= MOST_LISTS {
        let why = Kind::List.past_last(checked.header.end, named.span);
        return Err(InList {
            fault: why.at(named.field).into(),
            list: 0,
        });
    }
    let begun = begin_list(store, checked, room, named)?;
    read_rest(store, checked, room, begun)
}

// Takes in and checks the first fragment of the list that a reference names.
// It reads two tables of the room and changes a third, so it takes the room whole and promises what stays.
fn begin_list<S: Store>(
    store: &S,
    checked: &CheckedHeader,
    room: &mut Room,
    named: Named,
) -> Result<Begun, InList>
    ensures answer { Checked (begin_checks (S.Store.bytes store.now) checked.now.header.end room.old.fragments room.old.pieces.rows room.old.counts.changes.items named) result }
    ensures begun { IfOk result (λ x. Begins (S.Store.bytes store.now) room.old.counts.changes.items room.old.pieces.rows named (length room.old.fragments) x) }
    ensures fragments { OnOk result (room.new.fragments ≡ room.old.fragments ++ (named.span ∷ [])) }
    ensures counts { room.new.counts ≡ room.old.counts }
    ensures lists { room.new.lists ≡ room.old.lists }
    ensures queue { room.new.queue ≡ room.old.queue }
    ensures pieces { room.new.pieces.rows ≡ room.old.pieces.rows }
{
    let first = room.fragments.len();
    let fragment = take_in(&mut room.fragments, checked, named, 0)?;
    let list = fragment.owner(store);
    check_fragment(store, fragment, list, 0, 0)?;
    let count = check_first(room, list, fragment.span)?;
    Ok(Begun {
        list,
        count,
        first,
        fragment,
    })
}

// Reads a list's nodes, fragment by fragment, and adds its row.
#[tactic(auto, using(crate::proofs::ListWalks::listing_none))]
fn read_rest<S: Store>(
    store: &S,
    checked: &CheckedHeader,
    room: &mut Room,
    begun: Begun,
) -> Result<(), InList>
    requires few { length room.old.fragments ≤ 2048 }
    requires room { length room.old.lists < 1024 }
    requires held { room.old.fragments ≡ take begun.first room.old.fragments ++ (begun.fragment.span ∷ []) }
    requires new { some_of (of_list begun.list room.old.pieces.rows) ≡ false }
    ensures answer { length room.old.pieces.rows < length room.old.fragments → Rests (S.Store.bytes store.now) checked.now.header.end (take begun.first room.old.fragments) begun room.old.lists room.new.lists room.old.pieces.rows room.new.pieces.rows room.new.fragments room.old.queue room.new.queue result }
    ensures counts { room.new.counts ≡ room.old.counts }
{
    let row = room.lists.len();
    let mut fragment = begun.fragment;
    let mut nodes = 0;
    for sequence in 1..=MOST_FRAGMENTS as u32 {
        begun.put_piece(&mut room.pieces, row, nodes, fragment);
        let part = read_nodes(
            store,
            begun.list,
            fragment,
            begun.count - nodes,
            &mut room.queue,
        )?;
        nodes += part.nodes;
        if nodes == begun.count {
            // there is room, as was tested before the list was begun
            let _ = room.lists.push(Row {
                id: begun.list,
                first: begun.first,
                fragments: sequence as usize,
                nodes,
                free: part.free,
            });
            return Ok(());
        }
        fragment = next_fragment(
            store,
            checked,
            &mut room.fragments,
            fragment,
            begun.list,
            sequence,
        )?;
    }
    Ok(())
}

// Takes in and checks the fragment that follows another of a list.
fn next_fragment<S: Store>(
    store: &S,
    checked: &CheckedHeader,
    fragments: &mut Fragments,
    fragment: ListFragment,
    list: u32,
    sequence: u32,
) -> Result<ListFragment, InList>
    ensures answer { Checked (next_checks (S.Store.bytes store.now) checked.now.header.end fragments.old list sequence fragment.span) result }
    ensures next { IfOk result (λ g. (g.span ≡ span_at (S.Store.bytes store.now) (nodes_to fragment.span)) × (length fragments.old < 2048) × (fragments.new ≡ fragments.old ++ (g.span ∷ []))) }
{
    let field = fragment.nodes_to();
    let span = span_at(store, field);
    let next = take_in(fragments, checked, Named { field, span }, list)?;
    check_fragment(store, next, list, sequence, list)?;
    Ok(next)
}

// Takes in the fragment that a reference names.
fn take_in(
    fragments: &mut Fragments,
    checked: &CheckedHeader,
    named: Named,
    list: u32,
) -> Result<ListFragment, InList>
    ensures answer { Checked (place_checks checked.now.header.end fragments.old named.field named.span list) result }
    ensures fragment { IfOk result (λ f. f.span ≡ named.span) }
    ensures fragments { OnOk result (fragments.new ≡ fragments.old ++ (named.span ∷ [])) }
    ensures few { OnOk result (length fragments.old < 2048) }
{
    match fragments.admit(Kind::List, checked.header.end, named.span) {
        Ok(()) => Ok(ListFragment { span: named.span }),
        Err(why) => Err(InList {
            fault: why.at(named.field).into(),
            list,
        }),
    }
}

// Checks a fragment's marks, its list's ID and its number in the list; the list is told once the first fragment has passed.
fn check_fragment<S: Store>(
    store: &S,
    fragment: ListFragment,
    list: u32,
    sequence: u32,
    told: u32,
) -> Result<(), InList>
    ensures { Checked (label_checks (S.Store.bytes store.now) fragment.span list sequence told) result }
{
    if is_mislabelled(store, fragment, list, sequence) {
        return Err(InList {
            fault: ListFault::Fragment {
                place: fragment.span.start,
            },
            list: told,
        });
    }
    Ok(())
}

// Whether a mark, the number in the list or the list's ID is wrong.
fn is_mislabelled<S: Store>(store: &S, fragment: ListFragment, list: u32, sequence: u32) -> bool
    ensures { result ≡ mislabelled (S.Store.bytes store.now) fragment.span list sequence }
{
    let Span { start, size } = fragment.span;
    number_at::<u64, _>(store, start) != FIRST_MARK
        || number_at::<u64, _>(store, start + size - 8) != LAST_MARK
        || number_at::<u32, _>(store, start + 12) != sequence
        || fragment.owner(store) != list
        || list < LEAST_ID
}

// At a list's first fragment: no list before it has its ID, and the log counts it. Answers its count.
fn check_first(room: &Room, list: u32, fragment: Span) -> Result<u32, InList>
    ensures answer { Checked (first_checks room.now.pieces.rows (noted room.now.counts.changes.items list) list fragment) result }
    ensures count { IfOk result (λ n. (1 ≤ n) × (n ≡ noted room.now.counts.changes.items list)) }
    ensures new { OnOk result (some_of (of_list list room.now.pieces.rows) ≡ false) }
{
    let place = fragment.start;
    if room.pieces.has(list) {
        return Err(InList {
            fault: ListFault::Twice { place },
            list,
        });
    }
    let count = room.counts.latest(list);
    if count == 0 {
        return Err(InList {
            fault: ListFault::Unlisted { place },
            list,
        });
    }
    Ok(count)
}

// Reads a fragment's nodes, at most `left`, and names the lists that they refer to.
// The walk that checks their data answers otherwise at each step; what the two share stands in `node_walk`.
#[tactic(auto, using(crate::proofs::Walkings::walking_none, crate::proofs::Walkings::walked_over, crate::proofs::Walkings::walked_end))]
fn read_nodes<S: Store>(
    store: &S,
    list: u32,
    fragment: ListFragment,
    left: u32,
    queue: &mut Queue,
) -> Result<Part, InList>
    ensures answer { Walks (S.Store.bytes store.now) left list fragment.span queue.old queue.new result }
    ensures few { IfOk result (λ p. p.nodes ≤ left) }
{
    let stop = fragment.nodes_to();
    let mut place = fragment.nodes_from();
    for nodes in 0..left {
        let Some(node) = node_before(store, place, stop) else {
            return Ok(Part { nodes, free: place });
        };
        if is_bad(&node.head, place, stop) {
            return Err(InList {
                fault: ListFault::Node { place },
                list,
            });
        }
        name_list(queue, place, node);
        place += node.head.size as u64;
    }
    Ok(Part {
        nodes: left,
        free: place,
    })
}

// Names the list that the node at `place` refers to, if it does.
fn name_list(queue: &mut Queue, place: u64, node: NodeHead)
    requires { place ≤ 2 ^ 40 }
    ensures { Names queue.old (name_of place node.head.base node.reference) queue.new }
{
    if node.refers_to(Target::List) {
        queue.name(place + 4, node.reference);
    }
}

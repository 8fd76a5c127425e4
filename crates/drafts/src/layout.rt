//! The layout of an open draft.
ghost use Rattle.std.specs.Prelude.{◌≡◌, ℕ, ◌+◌, ◌≤◌, List, [], ◌∷◌, ◌++◌, length, IfOk, ◌==◌, slice_get, ◌-◌};
ghost use Rattle.std.specs.List.{position};
ghost use Rattle.model.specs.Faults.{done};
ghost use Rattle.model.specs.Section.{Section};
ghost use Rattle.model.specs.Layouts.{Add, blank};
ghost use Rattle.model.specs.Saving.{layout};
ghost use Rattle.model.specs.Opened.{opened};
ghost use Rattle.tables.specs.declared.room.Row.{Row};
ghost use Rattle.tables.specs.Kept.{Kept};
ghost use Rattle.drafts.specs.Lays.{Lays};
ghost use Rattle.drafts.specs.Steps.{maybe};
ghost use Rattle.drafts.specs.Plans.{Plans};
ghost use Rattle.drafts.specs.Rowed.{Rowed, RowFor};
ghost use Rattle.drafts.specs.Looked.{tail_for, put_tail, put_made, Finished, TailOf, RowKnown, RowOf};

use crate::step::Step;
use bounded::Bounded;
use model::limits::MOST_FRAGMENTS;
use pieces::piece::Piece;
use std::alloc::{AllocError, Global};
use tables::room::{Room, Row};
use writing::tails::Tail;

/// A draft touches at most so many lists.
pub const MOST_TOUCHED: usize = 16;

/// The draft's end; how many fragments and lists the file has with it; the highest list ID;
/// the ends of the lists that it touched, in the order of first touch; and the fragments that it made, in order.
#[derive(Drop)]
pub struct DraftLayout {
    pub end: u64,
    pub fragments: usize,
    pub lists: usize,
    pub highest: u32,
    pub touched: Bounded<Tail, MOST_TOUCHED>,
    pub added: Bounded<Piece, MOST_FRAGMENTS>,
}

impl DraftLayout {
    /// A layout with room for what a draft may touch and make.
    pub fn new(heap: Global) -> Result<DraftLayout, AllocError>
        ensures touched { IfOk result (λ d. d.touched ≡ []) }
        ensures added { IfOk result (λ d. d.added ≡ []) }
    {
        Ok(DraftLayout {
            end: 0,
            fragments: 0,
            lists: 0,
            highest: 0,
            touched: Bounded::new(heap)?,
            added: Bounded::new(heap)?,
        })
    }

    /// A draft without adds, over a file with these numbers.
    pub fn begin(&mut self, end: u64, fragments: usize, lists: usize, highest: u32)
        ensures lays { (s : Section) → end ≡ (blank s).end → fragments ≡ (blank s).fragments → lists ≡ (blank s).lists → highest ≡ (blank s).highest → Lays s [] self.new }
        ensures rowed { (rows : List Row) → lists ≡ length rows → Rowed rows self.new }
    {
        self.end = end;
        self.fragments = fragments;
        self.lists = lists;
        self.highest = highest;
        self.touched.clear();
        self.added.clear();
    }

    /// The tail of a list that the draft touched.
    pub fn touched_tail(&self, list: u32) -> Option<Tail>
        ensures { result ≡ tail_for list self.now.touched }
    {
        self.touched
            .as_slice()
            .iter()
            .copied()
            .find(|tail| tail.list == list)
    }

    /// The end of a list in the draft, if the list is there.
    pub fn tail(&self, room: &Room, list: u32) -> Option<Tail>
        ensures tail { (b : List ℕ) (s : Section) (adds : List Add) → Kept b s room.now → opened b ≡ done s → Lays s adds self.now → TailOf (layout s adds) list result }
        ensures row { (b : List ℕ) (s : Section) → Kept b s room.now → RowOf room.now.lists self.now.touched list result }
    {
        match self.touched_tail(list) {
            Some(tail) => Some(tail),
            None => room_tail(room, list),
        }
    }

    /// An add was made, by the step that was planned for it.
    pub fn take(&mut self, step: &Step)
        ensures lays { (s : Section) (adds : List Add) (a : Add) → Lays s adds self.old → Plans (layout s adds) a step.now → Lays s (adds ++ (a ∷ [])) self.new }
        ensures rowed { (s : Section) (adds : List Add) (a : Add) (rows : List Row) → Lays s adds self.old → Plans (layout s adds) a step.now → Rowed rows self.old → RowFor rows self.old.touched step.now.before → Rowed rows self.new }
    {
        self.end = step.end;
        self.fragments = step.fragments;
        self.lists = step.lists;
        self.highest = step.highest;
        touch(&mut self.touched, step.tail);
        touch_made(&mut self.touched, step.made);
        push_piece(&mut self.added, step.made_piece);
        push_piece(&mut self.added, step.piece);
    }
}

// Where the tail of a list stands.
fn touched_at(touched: &Bounded<Tail, MOST_TOUCHED>, list: u32) -> Option<usize>
    ensures { result ≡ position (λ t. t.list == list) touched.now }
{
    touched.as_slice().iter().position(|tail| tail.list == list)
}

// The list with this tail is touched.
#[tactic(auto, using(crate::proofs::Tails::put_at, crate::proofs::Tails::put_pushed))]
fn touch(touched: &mut Bounded<Tail, MOST_TOUCHED>, tail: Tail)
    ensures { length (put_tail tail touched.old) ≤ 16 → touched.new ≡ put_tail tail touched.old }
{
    match touched_at(touched, tail.list) {
        Some(at) => touched.set(at, tail),
        None => {
            // there is room, as was checked
            let _ = touched.push(tail);
        }
    }
}

// The list that was made is touched, if one was.
fn touch_made(touched: &mut Bounded<Tail, MOST_TOUCHED>, made: Option<Tail>)
    ensures { length (put_made made touched.old) ≤ 16 → touched.new ≡ put_made made touched.old }
{
    if let Some(made) = made {
        touch(touched, made);
    }
}

// A fragment more, if one was made.
fn push_piece(added: &mut Bounded<Piece, MOST_FRAGMENTS>, piece: Option<Piece>)
    ensures { length (added.old ++ maybe piece) ≤ 2048 → added.new ≡ added.old ++ maybe piece }
{
    if let Some(piece) = piece {
        // there is room, as was checked
        let _ = added.push(piece);
    }
}

/// The end of a list of the finished file, if the list is reached.
pub fn room_tail(room: &Room, list: u32) -> Option<Tail>
    ensures tail { (b : List ℕ) (s : Section) → Kept b s room.now → opened b ≡ done s → Finished s.lists list result }
    ensures row { (b : List ℕ) (s : Section) → Kept b s room.now → RowKnown room.now.lists list result }
{
    let piece = room.pieces.last(list)?;
    let row = row_at(room, piece.row)?;
    Some(Tail {
        list,
        row: piece.row,
        fragment: piece.fragment,
        number: last_number(row.fragments),
        free: row.free,
        count: row.nodes,
    })
}

// The row of a list, if there is one.
fn row_at(room: &Room, at: usize) -> Option<Row>
    ensures { result ≡ slice_get room.now.lists at }
{
    room.lists.as_slice().get(at).copied()
}

// The number of a list's last fragment.
fn last_number(fragments: usize) -> u32
    ensures { fragments ≤ 2048 → result ≡ fragments - 1 }
{
    // there are never so many that they pass four bytes
    u32::try_from(fragments.saturating_sub(1)).unwrap_or(u32::MAX)
}

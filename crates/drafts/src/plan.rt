//! The checks of an add, all before anything is changed, and the step that it makes.
ghost use Rattle.std.specs.Prelude.{◌≡◌, ℕ, ◌+◌, ◌-◌, ◌^◌, ◌<◌, ◌≤◌, false, List, IfOk, ◌||◌, nat_lt};
ghost use Rattle.model.specs.Faults.{done};
ghost use Rattle.model.specs.Section.{Section};
ghost use Rattle.model.specs.Layouts.{Add};
ghost use Rattle.model.specs.Saving.{layout};
ghost use Rattle.model.specs.Calls.{too_large, past_ceiling};
ghost use Rattle.model.specs.Opened.{opened};
ghost use Rattle.tables.specs.Kept.{Kept};
ghost use Rattle.adding.specs.Adds.{add_of};
ghost use Rattle.writing.specs.Tails.{InReach};
ghost use Rattle.drafts.specs.Lays.{Lays, Bounds};
ghost use Rattle.drafts.specs.Plans.{touches_more, outgrows, step_checks, Says, Tells};
ghost use Rattle.drafts.specs.Rowed.{RowFor};
ghost use Rattle.drafts.specs.Steps.{one, next_eight, node_size, first_end, fits, moved, spilt, made_tail, first_piece, highest_with, end_behind, step_of, capped};

use crate::layout::{DraftLayout, MOST_TOUCHED};
use crate::step::Step;
use adding::adds::{NewAdd, With};
use encoding::parts::{FRAGMENT_BYTES, PLAIN_BYTES, REFERRING_BYTES};
use model::limits::{MOST_FRAGMENTS, MOST_LISTS};
use model::types::Span;
use node_walk::nodes_to;
use pieces::piece::Piece;
use refusals::calls::SaveFault;
use tables::room::Room;
use writing::tails::Tail;

// The nodes of a new fragment begin behind so many bytes.
const NODES_FROM: u64 = 16;

// A file ends here at the latest.
const MOST_END: u64 = 0x100_0000_0000;

impl DraftLayout {
    /// The step that an add makes, or the first reason to refuse the add.
    pub fn plan(&self, room: &Room, ceiling: u64, add: &NewAdd) -> Result<Step, SaveFault>
        ensures tells { (b : List ℕ) (s : Section) (adds : List Add) → Kept b s room.now → opened b ≡ done s → Lays s adds self.now → Bounds (layout s adds) → Tells ceiling (layout s adds) (add_of add.now) result }
        ensures row { (b : List ℕ) (s : Section) → Kept b s room.now → IfOk result (λ p. RowFor room.now.lists self.now.touched p.before) }
    {
        let Some(before) = self.tail(room, add.list) else {
            return Err(SaveFault::NoList);
        };
        if add.is_too_large() {
            return Err(SaveFault::Size);
        }
        if add.has_bad_id() {
            return Err(SaveFault::Kind);
        }
        self.checked(ceiling, self.step(before, add))
    }

    // The step, by the list's tail. A number that would outgrow its field stays the highest; the checks refuse it.
    fn step(&self, before: Tail, add: &NewAdd) -> Step
        ensures before { result.before ≡ before }
        ensures made { InReach self.now.end before → self.now.fragments ≤ 2048 → self.now.lists ≤ 1024 → too_large (add_of add.now) ≡ false → result ≡ step_of self.now.end self.now.fragments self.now.lists self.now.highest (capped (self.now.highest + 1)) (capped (before.count + 1)) before (add_of add.now) }
    {
        let len = node_len(add);
        let at = first_end(self.end, add);
        let made = made_tail(self.end, self.lists, self.highest.saturating_add(1), add);
        let fragments = with_more(self.fragments, made.is_some());
        Step {
            before,
            end: end_behind(before, at, len),
            fragments: with_more(fragments, !fits(before, len)),
            lists: with_more(self.lists, made.is_some()),
            highest: highest_with(self.highest, made),
            tail: moved(before, at, len),
            made,
            made_piece: first_piece(made),
            piece: spilt_piece(before, at, len),
        }
    }

    // The step, unless one of the checks that need it fails.
    fn checked(&self, ceiling: u64, step: Step) -> Result<Step, SaveFault>
        ensures says { Says (step_checks self.now.end self.now.highest ceiling self.now.touched step) result }
        ensures same { IfOk result (λ p. p ≡ step) }
    {
        if self.is_too_wide(&step) {
            return Err(SaveFault::Wide);
        }
        if is_too_full(&step) {
            return Err(SaveFault::Full);
        }
        if self.outgrows(&step) {
            return Err(SaveFault::Last);
        }
        if is_past(self.end, ceiling, step.end) {
            return Err(SaveFault::Ceiling);
        }
        Ok(step)
    }

    // Whether the draft would touch one list more than it may.
    fn is_too_wide(&self, step: &Step) -> bool
        ensures { result ≡ touches_more self.now.touched step.now }
    {
        let known = self.touched_tail(step.tail.list).is_some();
        let more = usize::from(!known) + usize::from(step.made.is_some());
        self.touched.len().saturating_add(more) > MOST_TOUCHED
    }

    // Whether the list's count or the new list's ID would outgrow four bytes.
    fn outgrows(&self, step: &Step) -> bool
        ensures { result ≡ outgrows self.now.highest step.now }
    {
        step.before.count == u32::MAX || step.made.is_some() && self.highest == u32::MAX
    }
}

// Whether there would be one list or one fragment more than there may be.
fn is_too_full(step: &Step) -> bool
    ensures { result ≡ (nat_lt 1024 step.now.lists || nat_lt 2048 step.now.fragments) }
{
    step.lists > MOST_LISTS || step.fragments > MOST_FRAGMENTS
}

/// A number, or one more.
pub fn with_more(n: usize, more: bool) -> usize
    ensures { n ≤ 4096 → result ≡ n + one more }
{
    n.saturating_add(usize::from(more))
}

/// Whether a new end passes the ceiling, or where a file ends at the latest.
pub fn is_past(old: u64, ceiling: u64, end: u64) -> bool
    ensures { result ≡ past_ceiling old ceiling end }
{
    end > old && (end > ceiling || end > MOST_END)
}

// The end of a new piece, with the zeros up to the next place divisible by 8.
fn padded_end(end: u64, len: u64) -> u64
    ensures { end ≤ 2 ^ 41 → len ≤ 65536 → result ≡ next_eight (end + len) }
{
    let past = end.saturating_add(len);
    past.saturating_add((8 - past % 8) % 8)
}

// How many bytes the node takes.
fn node_len(add: &NewAdd) -> u64
    ensures { result ≡ node_size (add_of add.now) }
{
    let fixed = match add.with {
        With::Nothing => PLAIN_BYTES as u64,
        With::Data(_) | With::List { .. } => REFERRING_BYTES as u64,
    };
    fixed + add.payload.len() as u64
}

// The end of the data or of the branch's fragment, which come before the node.
fn first_end(end: u64, add: &NewAdd) -> u64
    ensures { end ≤ 2 ^ 40 → too_large (add_of add.now) ≡ false → result ≡ first_end end (add_of add.now) }
{
    match add.with {
        With::Nothing => end,
        With::Data(content) => padded_end(end, content.len() as u64),
        With::List { .. } => padded_end(end, FRAGMENT_BYTES),
    }
}

// The tail of the list that a branch makes.
fn made_tail(end: u64, row: usize, list: u32, add: &NewAdd) -> Option<Tail>
    ensures { end ≤ 2 ^ 40 → too_large (add_of add.now) ≡ false → result ≡ made_tail end row list (add_of add.now) }
{
    let With::List { payload, .. } = add.with else {
        return None;
    };
    Some(Tail {
        list,
        row,
        fragment: Span {
            start: end,
            size: FRAGMENT_BYTES,
        },
        number: 0,
        free: end
            .saturating_add(NODES_FROM + PLAIN_BYTES as u64)
            .saturating_add(payload.len() as u64),
        count: 1,
    })
}

// The fragment of a list that was made.
fn first_piece(made: Option<Tail>) -> Option<Piece>
    ensures { result ≡ first_piece made }
{
    let made = made?;
    Some(Piece {
        list: made.list,
        from: 0,
        row: made.row,
        fragment: made.fragment,
    })
}

// The highest ID with that of a list that was made.
fn highest_with(highest: u32, made: Option<Tail>) -> u32
    ensures { result ≡ highest_with highest made }
{
    match made {
        Some(made) => made.list,
        None => highest,
    }
}

// Whether a node of so many bytes goes behind the last of its list.
fn fits(tail: Tail, len: u64) -> bool
    ensures { (end : ℕ) → InReach end tail → len ≤ 1024 → result ≡ fits tail len }
{
    tail.free.saturating_add(len) <= nodes_to(tail.fragment)
}

// The list's tail behind the node; where it does not fit, in a new fragment at `at`.
fn moved(before: Tail, at: u64, len: u64) -> Tail
    ensures { (end : ℕ) → InReach end before → at ≤ 2 ^ 41 → len ≤ 1024 → result ≡ moved before at len (capped (before.count + 1)) }
{
    let count = before.count.saturating_add(1);
    if fits(before, len) {
        return Tail {
            free: before.free.saturating_add(len),
            count,
            ..before
        };
    }
    Tail {
        fragment: Span {
            start: at,
            size: FRAGMENT_BYTES,
        },
        number: before.number.saturating_add(1),
        free: at.saturating_add(NODES_FROM).saturating_add(len),
        count,
        ..before
    }
}

// The draft's end behind the node, with a new fragment at `at` where the node does not fit.
fn end_behind(before: Tail, at: u64, len: u64) -> u64
    ensures { (end : ℕ) → InReach end before → at ≤ 2 ^ 41 - 1024 → len ≤ 1024 → result ≡ end_behind before at len }
{
    if fits(before, len) {
        at
    } else {
        padded_end(at, FRAGMENT_BYTES)
    }
}

// The new fragment, where the node does not fit.
fn spilt_piece(before: Tail, at: u64, len: u64) -> Option<Piece>
    ensures { (end : ℕ) → InReach end before → len ≤ 1024 → result ≡ spilt before at len }
{
    if fits(before, len) {
        return None;
    }
    Some(Piece {
        list: before.list,
        from: before.count,
        row: before.row,
        fragment: Span {
            start: at,
            size: FRAGMENT_BYTES,
        },
    })
}

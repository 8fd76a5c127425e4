//! Ranges of a file that share no byte with one another, ordered by their starts: whether another range shares a byte with one of them.
#![tactic(auto)]

ghost use Rattle.std.specs.Prelude.{◌≡◌, ◌+◌, ◌<◌, ◌≤◌, ◌&&◌, not, [], All, AllPairs, IfOk, OnOk, OnErr, is_ok, nat_lt, length};
ghost use Rattle.std.specs.List.Sorted.{IsPartitionPoint};
ghost use Rattle.model.specs.References.{end_of, share, meets};
ghost use Rattle.ranges.specs.Ordered.{Adds};
ghost use Rattle.ranges.specs.Insertion.{inserted};

use bounded::Bounded;
use model::limits::MOST_FRAGMENTS;
use model::types::Span;
use std::alloc::{AllocError, Global};

/// Why a range is not added.
#[derive(Clone, Copy, PartialEq, Eq, Debug)]
pub enum NotAdded {
    /// It has no bytes.
    Empty,
    /// It shares a byte with one that is there.
    Shared,
    /// There is no room for more.
    Full,
}

#[derive(Drop)]
pub struct Ranges {
    spans: Bounded<Span, MOST_FRAGMENTS>,
    ghost some: { All (λ s. 0 < s.size) spans },
    ghost ordered: { AllPairs (λ s t. end_of s ≤ t.start) spans },
}

// Whether two ranges share a byte. An end may not fit a number, the difference of the starts does.
fn share(a: Span, b: Span) -> bool
    ensures { result ≡ share a b }
{
    a.start.saturating_sub(b.start) < b.size && b.start.saturating_sub(a.start) < a.size
}

impl Ranges {
    /// No ranges, with room for all that there may be.
    pub fn new(heap: Global) -> Result<Ranges, AllocError>
        ensures len { IfOk result (λ s. length s.spans ≡ 0) }
        ensures items { IfOk result (λ s. s.spans ≡ []) }
    {
        Ok(Ranges {
            spans: Bounded::new(heap)?,
        })
    }

    /// Lets all ranges go.
    pub fn clear(&mut self)
        ensures len { length self.new.spans ≡ 0 }
        ensures items { self.new.spans ≡ [] }
    {
        self.spans.clear();
    }

    /// How many ranges there are.
    pub fn len(&self) -> usize
        ensures { result ≡ length self.now.spans }
    {
        self.spans.len()
    }

    // The index of the first range that does not start below `start`. By hand: the library's search always makes all its comparisons,
    // and with a hundred ranges takes twice the time.
    fn place_of(&self, start: u64) -> usize
        ensures within { result ≤ length self.now.spans }
        ensures parts { IsPartitionPoint (λ s. s.start < start) (λ s. start ≤ s.start) self.now.spans result }
    {
        let spans = self.spans.as_slice();
        let mut low = 0;
        let mut high = spans.len();
        while low < high {
            let middle = low + (high - low) / 2;
            if spans[middle].start < start {
                low = middle + 1;
            } else {
                high = middle;
            }
        }
        low
    }

    // Whether a range shares a byte with one of the two beside its place. It can with no other.
    fn meets_at(&self, at: usize, span: Span) -> bool
        requires within { at ≤ length self.now.spans }
        requires parts { IsPartitionPoint (λ s. s.start < span.start) (λ s. span.start ≤ s.start) self.now.spans at }
        ensures { result ≡ meets span self.now.spans }
    {
        let (before, behind) = self.spans.as_slice().split_at(at);
        before.last().is_some_and(|s| share(span, *s))
            || behind.first().is_some_and(|s| share(span, *s))
    }

    /// Whether a range shares a byte with one of these.
    pub fn meets(&self, span: Span) -> bool
        ensures { result ≡ meets span self.now.spans }
    {
        self.meets_at(self.place_of(span.start), span)
    }

    /// One range more, unless it is empty, shares a byte with one of these, or finds no room.
    pub fn insert(&mut self, span: Span) -> Result<(), NotAdded>
        ensures answer { is_ok result ≡ (nat_lt 0 span.size && (not (meets span self.old.spans) && nat_lt (length self.old.spans) MOST_FRAGMENTS)) }
        ensures which { result ≡ inserted span self.old.spans (length self.old.spans) }
        ensures added { OnOk result (Adds self.old.spans span self.new.spans) }
        ensures len { OnOk result (length self.new.spans ≡ length self.old.spans + 1) }
        ensures same { OnErr result (self.new.spans ≡ self.old.spans) }
    {
        if span.size == 0 {
            return Err(NotAdded::Empty);
        }
        let at = self.place_of(span.start);
        if self.meets_at(at, span) {
            return Err(NotAdded::Shared);
        }
        self.spans.insert(at, span).map_err(|_| NotAdded::Full)
    }
}

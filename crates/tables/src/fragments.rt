//! The fragments of a file that is opened.
ghost use Rattle.std.specs.Prelude.{◌≡◌, ◌≤◌, List, [], IfOk, length};
ghost use Rattle.model.specs.declared.types.Span.{Span};
ghost use Rattle.model.specs.OpenedLog.{overlaps};
ghost use Rattle.tables.specs.Kinds.{least_of};
ghost use Rattle.tables.specs.Places.{Alike, Admits};

use crate::places::{Kind, Misplaced, is_in_header, is_outside};
use bounded::Bounded;
use model::limits::MOST_FRAGMENTS;
use model::types::Span;
use ranges::Ranges;
use std::alloc::{AllocError, Global};
use std::marker::Model;

/// The fragments as they were met, and as ranges ordered by their starts.
#[derive(Drop)]
pub struct Fragments {
    spans: Bounded<Span, MOST_FRAGMENTS>,
    ranges: Ranges,
}

// Clauses see the fragments as they were met.
impl Model for Fragments {
    ghost Value = { List Span };

    ghost view = { λ f. f.spans };

    ghost invariant = { λ f. Alike f.ranges.spans f.spans × (length f.ranges.spans ≡ length f.spans) };
}

impl Fragments {
    /// No fragments, with room for all that there may be.
    pub fn new(heap: Global) -> Result<Fragments, AllocError>
        ensures { IfOk result (λ f. f ≡ []) }
    {
        Ok(Fragments {
            spans: Bounded::new(heap)?,
            ranges: Ranges::new(heap)?,
        })
    }

    /// Lets all fragments go.
    pub fn clear(&mut self)
        ensures { self.new ≡ [] }
    {
        self.spans.clear();
        self.ranges.clear();
    }

    pub fn len(&self) -> usize
        ensures { result ≡ length self.now }
    {
        self.spans.len()
    }

    pub fn as_slice(&self) -> &[Span]
        ensures spans { result.now ≡ self.now }
        ensures few { length result.now ≤ 2048 }
    {
        self.spans.as_slice()
    }

    /// Takes a fragment in, unless it is outside the file, one too many, or shares a byte with the header or another; in this order.
    pub fn admit(&mut self, kind: Kind, end: u64, fragment: Span) -> Result<(), Misplaced>
        ensures { Admits (least_of kind) end self.old fragment self.new result }
    {
        if is_outside(kind.least(), end, fragment) {
            return Err(Misplaced::Outside);
        }
        if self.len() >= MOST_FRAGMENTS {
            return Err(Misplaced::Full);
        }
        if is_in_header(fragment) {
            return Err(Misplaced::Overlap);
        }
        let Ok(()) = self.ranges.insert(fragment) else {
            return Err(Misplaced::Overlap);
        };
        // there is room, as was tested above
        let _ = self.spans.push(fragment);
        Ok(())
    }

    /// Whether a range shares a byte with the header or with a fragment.
    pub fn overlaps(&self, span: Span) -> bool
        ensures { result ≡ overlaps span self.now }
    {
        is_in_header(span) || self.ranges.meets(span)
    }
}

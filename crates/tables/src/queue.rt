//! The lists that were named, and are read one after the other.
ghost use Rattle.std.specs.Prelude.{◌≡◌, List, [], ◌∷◌, IfOk, slice_get};
ghost use Rattle.tables.specs.declared.queue.Named.{Named};
ghost use Rattle.tables.specs.Queues.{Names};

use bounded::Bounded;
use model::limits::MOST_LISTS;
use model::types::Span;
use std::alloc::{AllocError, Global};
use std::marker::Model;

// One more than there may be lists: the list after the last is named and then refused, and no later one is ever reached.
const MOST_NAMED: usize = MOST_LISTS + 1;

/// A reference to a list, with the place of its field.
#[derive(Clone, Copy, PartialEq, Eq, Debug)]
pub struct Named {
    pub field: u64,
    pub span: Span,
}

/// The lists that were named, in this order.
#[derive(Drop)]
pub struct Queue {
    named: Bounded<Named, MOST_NAMED>,
}

// Clauses see the names in order.
impl Model for Queue {
    ghost Value = { List Named };

    ghost view = { λ q. q.named };
}

impl Queue {
    /// No lists, with room for all that are ever reached.
    pub fn new(heap: Global) -> Result<Queue, AllocError>
        ensures { IfOk result (λ q. q ≡ []) }
    {
        Ok(Queue {
            named: Bounded::new(heap)?,
        })
    }

    /// Lets all names go.
    pub fn clear(&mut self)
        ensures { self.new ≡ [] }
    {
        self.named.clear();
    }

    /// Names a list behind all that were named before it.
    pub fn name(&mut self, field: u64, span: Span)
        ensures { Names self.old ((field, span) ∷ []) self.new }
    {
        // a name past the last that may be is let go
        let _ = self.named.push(Named { field, span });
    }

    /// The list that was named after `i` others.
    pub fn get(&self, i: usize) -> Option<Named>
        ensures { result ≡ slice_get self.now i }
    {
        self.named.as_slice().get(i).copied()
    }
}

//! The room that opening works in: reserved at once, so that opening itself never wants memory.
ghost use Rattle.std.specs.Prelude.{◌≡◌, [], IfOk, vec_len};

use crate::fragments::Fragments;
use crate::queue::Queue;
use bounded::Bounded;
use counts::table::Counts;
use model::limits::MOST_LISTS;
use pieces::table::Pieces;
use std::alloc::{AllocError, Global};

/// A list: its ID, where its fragments stand among all and how many they are, its count of nodes, and the place behind the last of them.
/// The fragments of all lists stand in one table, since its room is reserved at once.
#[derive(Clone, Copy, PartialEq, Eq, Debug)]
pub struct Row {
    pub id: u32,
    pub first: usize,
    pub fragments: usize,
    pub nodes: u32,
    pub free: u64,
}

/// The tables of an opened file.
#[derive(Drop)]
pub struct Room {
    pub counts: Counts,
    pub fragments: Fragments,
    pub lists: Bounded<Row, MOST_LISTS>,
    pub queue: Queue,
    pub pieces: Pieces,
}

impl Room {
    /// Room for a file whose finished log counts lists at most `changes` times.
    pub fn new(heap: Global, changes: usize) -> Result<Room, AllocError>
        ensures changes { IfOk result (λ t. t.counts.changes.items ≡ []) }
        ensures noted { IfOk result (λ t. vec_len t.counts.changes ≡ 0) }
        ensures room { IfOk result (λ t. t.counts.room ≡ changes) }
        ensures finished { IfOk result (λ t. t.counts.finished ≡ 0) }
        ensures fragments { IfOk result (λ t. t.fragments ≡ []) }
        ensures lists { IfOk result (λ t. t.lists ≡ []) }
        ensures queue { IfOk result (λ t. t.queue ≡ []) }
        ensures pieces { IfOk result (λ t. t.pieces.rows ≡ []) }
    {
        Ok(Room {
            counts: Counts::new(heap, changes)?,
            fragments: Fragments::new(heap)?,
            lists: Bounded::new(heap)?,
            queue: Queue::new(heap)?,
            pieces: Pieces::new(heap)?,
        })
    }

    /// Lets all go that was read; the room stays.
    pub fn clear(&mut self)
        ensures changes { self.new.counts.changes.items ≡ [] }
        ensures noted { vec_len self.new.counts.changes ≡ 0 }
        ensures room { self.new.counts.room ≡ self.old.counts.room }
        ensures finished { self.new.counts.finished ≡ 0 }
        ensures fragments { self.new.fragments ≡ [] }
        ensures lists { self.new.lists ≡ [] }
        ensures queue { self.new.queue ≡ [] }
        ensures pieces { self.new.pieces.rows ≡ [] }
    {
        self.counts.clear();
        self.fragments.clear();
        self.lists.clear();
        self.queue.clear();
        self.pieces.clear();
    }
}

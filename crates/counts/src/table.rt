//! The changes in the order of the log, and the lists in the order of their IDs.
ghost use Rattle.std.specs.Prelude.{◌≡◌, ℕ, ◌+◌, ◌^◌, ◌<◌, ◌≤◌, min, false, [], ◌∷◌, ◌++◌, All, AllPairs, IfOk, if◌then◌else◌, is_ok, vec_len, vec_capacity, nat_lt, slice_index};
ghost use Rattle.counts.specs.Noted.{change, noted_most};
ghost use Rattle.counts.specs.Chains.{list_at, newest_in, listed, link_of};

use crate::changes::Change;
use crate::lists::Lists;
use bounded::Full;
use std::alloc::{AllocError, Global};

mod reads;

// Counting stops here. No log has so many transactions, since each takes bytes of a file.
const LAST: u64 = 1 << 63;

/// The changes in the order of the log, each list with its newest one, and for each change the index of its list's change before it,
/// or its own where it is the list's first.
/// The room is known only when it is made, so no `Bounded` holds them.
#[derive(Drop)]
pub struct Counts {
    changes: Vec<Change>,
    // not in the rows of the changes: the promises speak of the changes alone, in the order of the log;
    // a list's first change has its own index here, since an `Option` of an index takes twice the memory
    links: Vec<usize>,
    lists: Lists,
    room: usize,
    finished: u64,
    highest: u32,
    ghost held: { (vec_len changes ≤ room) × (room ≤ vec_capacity changes) },
    ghost paired: { (vec_len links ≡ vec_len changes) × (room ≤ vec_capacity links) },
    ghost few: { (vec_len lists.rows ≤ vec_len changes) × (room ≤ vec_capacity lists.rows) },
    ghost countable: { finished ≤ 2 ^ 63 },
    ghost newest: { (id : ℕ) → listed id lists.rows.items ≡ newest_in id changes.items (vec_len changes) },
    ghost linked: { (i : ℕ) → i < vec_len changes → slice_index links.items i ≡ link_of i (newest_in (list_at changes.items i) changes.items i) },
    ghost early: { All (λ c. c.transaction ≤ finished + 1) changes.items },
    ghost steady: { AllPairs (λ c d. c.transaction ≤ d.transaction) changes.items },
    ghost most: { highest ≡ noted_most changes.items },
}

impl Counts {
    /// No changes and no transactions, with room for `room` changes.
    #[tactic(auto, using(crate::proofs::Newest::newest_none, crate::proofs::Newest::most_none))]
    pub fn new(heap: Global, room: usize) -> Result<Counts, AllocError>
        ensures changes { IfOk result (λ t. t.changes.items ≡ []) }
        ensures len { IfOk result (λ t. vec_len t.changes ≡ 0) }
        ensures room { IfOk result (λ t. t.room ≡ room) }
        ensures finished { IfOk result (λ t. t.finished ≡ 0) }
    {
        Ok(Counts {
            changes: Vec::with_capacity(heap, room)?,
            links: Vec::with_capacity(heap, room)?,
            lists: Lists::new(heap, room)?,
            room,
            finished: 0,
            highest: 0,
        })
    }

    /// Lets all changes and transactions go.
    #[tactic(auto, using(crate::proofs::Newest::newest_none, crate::proofs::Newest::most_none))]
    pub fn clear(&mut self)
        ensures changes { self.new.changes.items ≡ [] }
        ensures len { vec_len self.new.changes ≡ 0 }
        ensures room { self.new.room ≡ self.old.room }
        ensures finished { self.new.finished ≡ 0 }
    {
        self.changes.clear();
        self.links.clear();
        self.lists.clear();
        self.finished = 0;
        self.highest = 0;
    }

    /// One transaction more is finished: what was noted since the last one belongs to it.
    pub fn finish(&mut self)
        ensures finished { self.new.finished ≡ min (self.old.finished + 1) (2 ^ 63) }
        ensures changes { self.new.changes ≡ self.old.changes }
        ensures room { self.new.room ≡ self.old.room }
    {
        if self.finished < LAST {
            self.finished += 1;
        }
    }

    /// Notes the count that the next transaction gives a list, if there is room.
    pub fn note(&mut self, list: u32, count: u32) -> Result<(), Full>
        ensures test { is_ok result ≡ nat_lt (vec_len self.old.changes) self.old.room }
        ensures changes { self.new.changes.items ≡ (if is_ok result then self.old.changes.items ++ change (self.old.finished + 1) list count ∷ [] else self.old.changes.items) }
        ensures len { vec_len self.new.changes ≡ (if is_ok result then vec_len self.old.changes + 1 else vec_len self.old.changes) }
        ensures room { self.new.room ≡ self.old.room }
        ensures finished { self.new.finished ≡ self.old.finished }
        ensures same { is_ok result ≡ false → self.new ≡ self.old }
    {
        if self.changes.len() >= self.room {
            return Err(Full);
        }
        let i = self.changes.len();
        let before = self.lists.set_newest(list, i);
        self.links.push_reserved(before.unwrap_or(i));
        self.changes.push_reserved(Change {
            transaction: self.finished + 1,
            list,
            count,
        });
        self.highest = self.highest.max(list);
        Ok(())
    }
}

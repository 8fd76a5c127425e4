//! Lists in the order of their IDs, each with its newest change.
ghost use Rattle.std.specs.Prelude.{◌≡◌, ℕ, ◌+◌, ◌<◌, ◌≤◌, [], AllPairs, IfOk, Some, if◌then◌else◌, vec_len, vec_capacity, nat_eq, insert, set, MatchResult};
ghost use Rattle.std.specs.List.{HoldsAt};
ghost use Rattle.std.specs.List.Sorted.{IsPartitionPoint};
ghost use Rattle.counts.specs.Chains.{listed};

use crate::changes::Counted;
use std::alloc::{AllocError, Global};
use std::mem;

/// Each list that has a count, once, in a sorted `Vec` and in no map, since nothing may allocate after it is made.
#[derive(Drop)]
pub(crate) struct Lists {
    rows: Vec<Counted>,
    ghost rises: { AllPairs (λ x y. x.list < y.list) rows.items },
}

impl Lists {
    /// No lists, with room for `room` of them.
    pub(crate) fn new(heap: Global, room: usize) -> Result<Lists, AllocError>
        ensures items { IfOk result (λ l. l.rows.items ≡ []) }
        ensures len { IfOk result (λ l. vec_len l.rows ≡ 0) }
        ensures room { IfOk result (λ l. vec_capacity l.rows ≡ room) }
    {
        Ok(Lists {
            rows: Vec::with_capacity(heap, room)?,
        })
    }

    /// Lets all lists go.
    pub(crate) fn clear(&mut self)
        ensures items { self.new.rows.items ≡ [] }
        ensures len { vec_len self.new.rows ≡ 0 }
        ensures room { vec_capacity self.new.rows ≡ vec_capacity self.old.rows }
    {
        self.rows.clear();
    }

    // The row of a list, or where it would stand.
    fn search(&self, list: u32) -> Result<usize, usize>
        ensures { MatchResult result (λ i. (i < vec_len self.now.rows) × HoldsAt (λ x. x.list ≡ list) self.now.rows.items i) (λ i. (i ≤ vec_len self.now.rows) × IsPartitionPoint (λ x. x.list < list) (λ x. list < x.list) self.now.rows.items i) }
    {
        self.rows.binary_search_by_key(&list, |row| row.list)
    }

    /// The index of a list's newest change, if it has a count.
    #[tactic(auto, using(crate::proofs::Listed::is_listed))]
    pub(crate) fn newest(&self, list: u32) -> Option<usize>
        ensures { result ≡ listed list self.now.rows.items }
    {
        match self.search(list) {
            Ok(i) => Some(self.rows[i].newest),
            Err(_) => None,
        }
    }

    /// Sets a list's newest change, and gives the one before it.
    pub(crate) fn set_newest(&mut self, list: u32, newest: usize) -> Option<usize>
        requires { vec_len self.old.rows < vec_capacity self.old.rows }
        ensures before { result ≡ listed list self.old.rows.items }
        ensures holds { (id : ℕ) → listed id self.new.rows.items ≡ (if nat_eq list id then Some newest else listed id self.old.rows.items) }
        ensures len { vec_len self.new.rows ≤ vec_len self.old.rows + 1 }
        ensures room { vec_capacity self.old.rows ≤ vec_capacity self.new.rows }
    {
        match self.search(list) {
            Ok(i) => Some(mem::replace(&mut self.rows[i].newest, newest)),
            Err(i) => {
                // the room is reserved, so this never fails
                let _ = self.rows.insert(i, Counted { list, newest });
                None
            }
        }
    }
}

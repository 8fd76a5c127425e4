//! The fragments of all lists in order.
ghost use Rattle.std.specs.Prelude.{◌≡◌, ℕ, ◌+◌, ◌^◌, ◌<◌, ◌≤◌, true, false, [], All, AllPairs, IfOk, MatchOption, if◌then◌else◌, is_ok, length, nat_eq, nat_lt};
ghost use Rattle.std.specs.List.Sorted.{IsPartitionPoint};
ghost use Rattle.pieces.specs.Found.{of_list, some_of, last_piece, last_from, put_in};
ghost use Rattle.pieces.specs.Placed.{up_to, front_of, IsLast};

use crate::piece::Piece;
use bounded::{Bounded, Full};
use model::limits::MOST_FRAGMENTS;
use std::alloc::{AllocError, Global};

/// Fragments in the order of their lists, and of one list in the order of the nodes before them.
#[derive(Drop)]
pub struct Pieces {
    rows: Bounded<Piece, MOST_FRAGMENTS>,
    ghost fits: { All (λ p. p.from < 2 ^ 32) rows },
    ghost ordered: { AllPairs (λ p q. up_to q.list q.from p ≡ true) rows },
}

impl Pieces {
    /// No fragments, with room for all that there may be.
    pub fn new(heap: Global) -> Result<Pieces, AllocError>
        ensures { IfOk result (λ t. t.rows ≡ []) }
    {
        Ok(Pieces {
            rows: Bounded::new(heap)?,
        })
    }

    /// Lets all fragments go.
    pub fn clear(&mut self)
        ensures { self.new.rows ≡ [] }
    {
        self.rows.clear();
    }

    /// How many fragments there are.
    pub fn len(&self) -> usize
        ensures { result ≡ length self.now.rows }
    {
        self.rows.len()
    }

    // The index of the first fragment that stands above one of the list with `from` nodes before it.
    fn place_behind(&self, list: u32, from: u32) -> usize
        ensures within { result ≤ length self.now.rows }
        ensures parts { IsPartitionPoint (λ p. up_to list from p ≡ true) (λ p. up_to list from p ≡ false) self.now.rows result }
    {
        self.rows
            .as_slice()
            .partition_point(|piece| (piece.list, piece.from) <= (list, from))
    }

    // The index of a list's last fragment with at most `from` nodes before it.
    fn last_up_to(&self, list: u32, from: u32) -> Option<usize>
        ensures { MatchOption result (front_of list from self.now.rows ≡ []) (IsLast list from self.now.rows) }
    {
        let last = self.place_behind(list, from).checked_sub(1)?;
        (self.rows.as_slice()[last].list == list).then_some(last)
    }

    /// The fragment of a list that has the node with an index: its last one with at most so many nodes before it.
    #[tactic(auto, using(crate::proofs::Placed::found, crate::proofs::Placed::not_found))]
    pub fn find(&self, list: u32, index: u32) -> Option<Piece>
        ensures { result ≡ last_from index (of_list list self.now.rows) }
    {
        let at = self.last_up_to(list, index)?;
        Some(self.rows.as_slice()[at])
    }

    /// A list's last fragment.
    #[tactic(auto, using(crate::proofs::Placed::all_low))]
    pub fn last(&self, list: u32) -> Option<Piece>
        ensures { result ≡ last_piece (of_list list self.now.rows) }
    {
        self.find(list, u32::MAX)
    }

    /// Whether a list has fragments.
    #[tactic(auto, using(crate::proofs::Kept::some_last))]
    pub fn has(&self, list: u32) -> bool
        ensures { result ≡ some_of (of_list list self.now.rows) }
    {
        self.last(list).is_some()
    }

    /// Puts in a fragment more, behind those of its list that have no more nodes before them, if there is room.
    pub fn insert(&mut self, piece: Piece) -> Result<(), Full>
        ensures test { is_ok result ≡ nat_lt (length self.old.rows) MOST_FRAGMENTS }
        ensures rows { (id : ℕ) → of_list id self.new.rows ≡ (if is_ok result then put_in piece id (of_list id self.old.rows) else of_list id self.old.rows) }
        ensures len { length self.new.rows ≡ (if is_ok result then length self.old.rows + 1 else length self.old.rows) }
    {
        // a full table is not searched
        if self.rows.len() >= MOST_FRAGMENTS {
            return Err(Full);
        }
        let at = self.place_behind(piece.list, piece.from);
        self.rows.insert(at, piece)
    }
}

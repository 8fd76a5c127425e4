//! A list's count after a number of finished transactions, read from the log in the store.
#![tactic(auto)]

ghost use Rattle.std.specs.Prelude.{◌≡◌, ◌+◌, ◌*◌, ◌^◌, ◌<◌, ◌≤◌};
ghost use Rattle.model.specs.Faults.{done};
ghost use Rattle.model.specs.LogFragments.{entry_at, entries_in, log_next};
ghost use Rattle.model.specs.Means.{entries_of};
ghost use Rattle.model.specs.Opened.{opened};
ghost use Rattle.model.specs.Section.{Section, count_at};
ghost use Rattle.log_count.specs.Tallies.{met, met_all};

use format::fetching::number_at;
use format::references::span_at;
use model::limits::MOST_FRAGMENTS;
use model::types::{Entry, Span};
use store::base::Store;

// The source of a sentinel, which ends a transaction.
const SENTINEL: u32 = 1;

// A list's count as far as the log was read, and how many transactions are still to end.
#[derive(Drop)]
struct Tally {
    list: u32,
    left: u32,
    count: u32,
}

/// The last count that the first `k` transactions of the log give a list, else 0. The log begins with the fragment `first`.
#[tactic(auto, using(crate::proofs::Fragments::ahead_all, crate::proofs::Fragments::ahead_more, crate::proofs::Fragments::ahead_done, crate::proofs::Fragments::ahead_none))]
pub fn count_in_log<S: Store>(store: &S, first: Span, k: u32, list: u32) -> u32
    ensures { (s : Section) → opened (S.Store.bytes store.now) ≡ done s → first ≡ s.header.log → k ≤ s.header.count → result ≡ count_at s.log k list }
{
    let mut tally = Tally {
        list,
        left: k,
        count: 0,
    };
    let mut fragment = first;
    for _read in 0..MOST_FRAGMENTS {
        if tally.left == 0 {
            return tally.count;
        }
        tally.meet_fragment(store, fragment);
        fragment = span_at(store, next_field(fragment));
    }
    tally.count
}

impl Tally {
    // Takes in a fragment's entries, up to the sentinel that ends the last of the transactions.
    #[tactic(auto, using(crate::proofs::Fragments::meeting_none, crate::proofs::Fragments::meeting_more, crate::proofs::Fragments::meeting_done, crate::proofs::Fragments::meeting_all))]
    fn meet_fragment<S: Store>(&mut self, store: &S, fragment: Span)
        ensures { fragment.start + fragment.size ≤ 2 ^ 40 → self.new ≡ met_all self.old (entries_of (S.Store.bytes store.now) fragment 0 (entries_in fragment.size)) }
    {
        for i in 0..entries(fragment) {
            if self.left == 0 {
                return;
            }
            self.meet(entry_at(store, fragment.start.saturating_add(8 * i)));
        }
    }

    // Takes in an entry, where a transaction is still to end.
    fn meet(&mut self, entry: Entry)
        ensures { self.new ≡ met self.old entry }
    {
        if entry.source == SENTINEL {
            self.left = self.left.saturating_sub(1);
        } else if entry.source == self.list {
            self.count = entry.number;
        }
    }
}

// How many entries a fragment of the log holds.
fn entries(fragment: Span) -> u64
    ensures value { result ≡ entries_in fragment.size }
    ensures bound { 8 * result < 2 ^ 64 }
{
    fragment.size.saturating_sub(12) / 8
}

// Where its next reference stands: right behind its last whole entry.
fn next_field(fragment: Span) -> u64
    ensures { fragment.start + fragment.size ≤ 2 ^ 40 → result ≡ log_next fragment }
{
    fragment.start.saturating_add(8 * entries(fragment))
}

// The entry at `place`.
fn entry_at<S: Store>(store: &S, place: u64) -> Entry
    ensures { place ≤ 2 ^ 40 → result ≡ entry_at (S.Store.bytes store.now) place }
{
    Entry {
        source: number_at(store, place),
        number: number_at(store, place.saturating_add(4)),
    }
}

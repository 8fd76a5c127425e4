//! The entries of one commit.
ghost use Rattle.std.specs.Prelude.{◌≡◌, ◌≤◌, length, take};
ghost use Rattle.model.specs.Crc.{crc_of, crc_32};
ghost use Rattle.model.specs.LogFragments.{entry_bytes};
ghost use Rattle.committing.specs.CommitWrites.{counts_of, entries_for};

use crc::crc32;
use encoding::buffer::WriteBuffer;
use model::types::Entry;
use writing::tails::Tail;

// A draft touches so many lists at most.
const MOST_TOUCHED: usize = 16;

// One entry for each of them, and the sentinel.
const MOST_ENTRIES: usize = 17;

// The source of a sentinel, which is no list's ID.
const SENTINEL: u32 = 1;

/// The counts of the lists touched, and the sentinel.
// An array, so that a commit allocates nothing.
#[derive(Clone, Copy, Debug)]
pub struct Entries {
    all: [Entry; MOST_ENTRIES],
    len: usize,
    ghost within: { len ≤ 17 },
}

impl Entries {
    /// Those for these lists; of more than 16, for the first 16.
    pub fn new(buffer: &mut WriteBuffer, touched: &[Tail]) -> Entries
        ensures { length touched.now ≤ 16 → take result.len result.all ≡ entries_for touched.now }
    {
        let len = touched.len().min(MOST_TOUCHED);
        let mut all = counts(&touched[..len]);
        all[len] = Entry {
            source: SENTINEL,
            number: sum(buffer, &all[..len]),
        };
        Entries { all, len: len + 1 }
    }

    /// The entries, in their order.
    pub fn as_slice(&self) -> &[Entry]
        ensures { result.now ≡ take self.now.len self.now.all }
    {
        &self.all[..self.len]
    }
}

// The lists' counts at the front of an array, in their order.
fn counts(touched: &[Tail]) -> [Entry; MOST_ENTRIES]
    requires { length touched.now ≤ 16 }
    ensures { take (length touched.now) result ≡ counts_of touched.now }
{
    let mut all = [Entry {
        source: SENTINEL,
        number: 0,
    }; MOST_ENTRIES];
    for (i, tail) in touched.iter().enumerate() {
        all[i] = Entry {
            source: tail.list,
            number: tail.count,
        };
    }
    all
}

// The CRC of the entries' bytes.
#[tactic(auto, using(crate::proofs::Parts::entries_pushed))]
fn sum(buffer: &mut WriteBuffer, entries: &[Entry]) -> u32
    requires { length entries.now ≤ 17 }
    ensures { result ≡ crc_of crc_32 (entry_bytes entries.now) }
{
    buffer.clear();
    buffer.push_entries(entries);
    crc32(buffer.as_slice())
}

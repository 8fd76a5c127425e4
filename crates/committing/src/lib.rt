//! What a commit writes: the counts of the lists that the draft touched, behind the log's last entry, and last the header.
#![tactic(auto)]

ghost use Rattle.std.specs.Prelude.{length};
ghost use Rattle.model.specs.Laws.{Taken};
ghost use Rattle.committing.specs.CommitWrites.{entries_for, commit_writes, WritesCommitted, Sizes};

use crate::entries::Entries;
use crate::heads::{change_head, first_bytes};
use crate::log_end::LogEnd;
use crate::writes::make_write;
use encoding::buffer::WriteBuffer;
use model::types::Header;
use store::base::SavingStore;
use writing::tails::Tail;

mod entries;
mod heads;
pub mod log_end;
mod log_writes;
mod writes;

/// These are the writes that the rules plan.
pub fn writes_are_those_planned()
    ensures { WritesCommitted }
{}

/// Makes the writes of a commit, over a draft that ends at `end` and touched these lists.
#[tactic(auto, using(crate::proofs::CommitMade::commit_made))]
pub fn write_commit<S: SavingStore>(
    store: &mut S,
    buffer: &mut WriteBuffer,
    header: &Header,
    log: LogEnd,
    end: u64,
    touched: &[Tail],
    guid: &[u8; 16],
)
    ensures { Sizes (S.Store.bytes store.old) header.now log end touched.now guid.now → Taken (length (S.Store.bytes store.old)) (S.Store.most store.old) (commit_writes (S.Store.bytes store.old) header.now log end (entries_for touched.now) guid.now) → S.SavingStore.wrote store.old (commit_writes (S.Store.bytes store.old) header.now log end (entries_for touched.now) guid.now) store.new }
{
    // before any write
    let mut head = first_bytes(store);
    let entries = Entries::new(buffer, touched);
    let end = log.write_entries(store, buffer, end, entries.as_slice());
    change_head(&mut head, header, end, guid);
    make_write(store, 0, &head);
}

//! Opening the log: each fragment's place, then its entries up to the last finished sentinel.
#![tactic(auto)]

ghost use Rattle.std.specs.Prelude.{◌≡◌, ◌+◌, ◌^◌, ◌<◌, ◌≤◌, [], ◌∷◌, length, vec_len, OnOk, ◌≢◌};
ghost use Rattle.model.specs.LogFragments.{entry_at, entry_bytes, entry};
ghost use Rattle.log_pass.specs.Logs.{LogRead};
ghost use Rattle.log_pass.specs.LogSteps.{TakesEntry, ReadsEntries, ReadsFragment};

use crate::fragment::LogFragment;
use counts::table::Counts;
use crc::Crc;
use format::fetching::bytes_at;
use format::references::span_at;
use header_pass::checked::CheckedHeader;
use model::limits::MOST_FRAGMENTS;
use model::types::{Entry, Span};
use refusals::faults::LogFault;
use store::base::Store;
use tables::fragments::Fragments;
use tables::places::Kind;
use tables::queue::Named;
use tables::room::Room;

mod fragment;

// Where the header refers to the log.
const FIELD: u64 = 0xA0;

// An entry of the log where it stands, and its bytes.
#[derive(Clone, Copy, PartialEq, Eq, Debug)]
struct LogEntry {
    place: u64,
    entry: Entry,
    bytes: [u8; 8],
    ghost same: { bytes ≡ entry_bytes (entry ∷ []) },
}

/// Reads the finished log into a room that is cleared first, and answers how many entries of its last fragment are used.
pub fn read_log<S: Store>(
    store: &S,
    checked: &CheckedHeader,
    room: &mut Room,
) -> Result<u64, LogFault>
    ensures log { LogRead (S.Store.bytes store.now) checked.now.header room.old.counts.room room.new.fragments room.new.counts.changes.items room.new.counts.finished result }
    ensures room { room.new.counts.room ≡ room.old.counts.room }
    ensures lists { room.new.lists ≡ [] }
    ensures queue { room.new.queue ≡ [] }
    ensures pieces { room.new.pieces.rows ≡ [] }
{
    room.clear();
    read_fragments(store, checked, &mut room.fragments, &mut room.counts)
}

// Reads the log into tables that hold nothing, fragment by fragment.
#[tactic(auto, using(crate::proofs::Fragments::walking_none))]
fn read_fragments<S: Store>(
    store: &S,
    checked: &CheckedHeader,
    fragments: &mut Fragments,
    counts: &mut Counts,
) -> Result<u64, LogFault>
    requires fragments { fragments.old ≡ [] }
    requires changes { counts.old.changes.items ≡ [] }
    requires noted { vec_len counts.old.changes ≡ 0 }
    requires finished { counts.old.finished ≡ 0 }
    ensures log { LogRead (S.Store.bytes store.now) checked.now.header counts.old.room fragments.new counts.new.changes.items counts.new.finished result }
    ensures room { counts.new.room ≡ counts.old.room }
{
    let mut named = Named {
        field: FIELD,
        span: checked.header.log,
    };
    let mut crc = Crc::new();
    for _read in 0..MOST_FRAGMENTS {
        let used = read_fragment(store, checked, named, fragments, counts, &mut crc)?;
        if let Some(used) = used {
            return Ok(used);
        }
        let field = LogFragment { span: named.span }.next_field();
        let span = span_at(store, field);
        named = Named { field, span };
    }
    let why = Kind::Log.past_last(checked.header.end, named.span);
    Err(why.at(named.field).into())
}

// Takes in the fragment that a reference names, and reads its entries.
#[tactic(auto, using(crate::proofs::Fragments::fragment_read))]
fn read_fragment<S: Store>(
    store: &S,
    checked: &CheckedHeader,
    named: Named,
    fragments: &mut Fragments,
    counts: &mut Counts,
    crc: &mut Crc,
) -> Result<Option<u64>, LogFault>
    requires { length fragments.old < 2048 }
    ensures place { OnOk result ((12 ≤ named.span.size) × (named.span.start + named.span.size ≤ checked.now.header.end)) }
    ensures read { ReadsFragment (S.Store.bytes store.now) checked.now.header fragments.old named.field named.span fragments.new counts.old crc.old counts.new crc.new result }
    ensures room { counts.new.room ≡ counts.old.room }
{
    // no `map_err`: the proof has to speak of what its closure answers
    if let Err(why) = fragments.admit(Kind::Log, checked.header.end, named.span) {
        return Err(why.at(named.field).into());
    }
    let fragment = LogFragment { span: named.span };
    read_entries(store, checked.header.count, fragment, counts, crc)
}

// Reads a fragment's entries, and answers how many are used where the log is finished by one of them.
#[tactic(auto, using(crate::proofs::Entries::going_all))]
fn read_entries<S: Store>(
    store: &S,
    count: u32,
    fragment: LogFragment,
    counts: &mut Counts,
    crc: &mut Crc,
) -> Result<Option<u64>, LogFault>
    ensures read { ReadsEntries (S.Store.bytes store.now) count fragment.span counts.old crc.old counts.new crc.new result }
    ensures room { counts.new.room ≡ counts.old.room }
{
    for i in 0..fragment.entries() {
        let place = fragment.span.start + 8 * i;
        let entry = LogEntry::at(store, place);
        if take_entry(&entry, count, counts, crc)? {
            return Ok(Some(i + 1));
        }
    }
    Ok(None)
}

impl LogEntry {
    // The entry at `place`.
    #[tactic(auto, using(crate::proofs::OneEntry::entry_window), unfolding(model::specs::Bytes::le))]
    fn at<S: Store>(store: &S, place: u64) -> LogEntry
        ensures place { result.place ≡ place }
        ensures entry { result.entry ≡ entry_at (S.Store.bytes store.now) place }
    {
        let bytes: [u8; 8] = bytes_at(store, place);
        let [a, b, c, d, e, f, g, h] = bytes;
        let source = u32::from_le_bytes([a, b, c, d]);
        let number = u32::from_le_bytes([e, f, g, h]);
        LogEntry {
            place,
            entry: Entry { source, number },
            bytes,
        }
    }
}

// Takes an entry, and says whether it finishes the log: a yes or no that nothing goes with.
// The count stays while table and sum change, so the three are no struct: each promise would say besides that it stays.
fn take_entry(
    logged: &LogEntry,
    count: u32,
    counts: &mut Counts,
    crc: &mut Crc,
) -> Result<bool, LogFault>
    ensures takes { TakesEntry count logged.now.place logged.now.entry counts.old crc.old counts.new crc.new result }
    ensures room { counts.new.room ≡ counts.old.room }
{
    if logged.entry.source == 1 {
        end_transaction(logged, count, counts, crc)
    } else {
        note_count(logged, count, counts, crc)
    }
}

// A list's new count: above its last one.
fn note_count(
    logged: &LogEntry,
    count: u32,
    counts: &mut Counts,
    crc: &mut Crc,
) -> Result<bool, LogFault>
    requires { logged.now.entry.source ≢ 1 }
    ensures takes { TakesEntry count logged.now.place logged.now.entry counts.old crc.old counts.new crc.new result }
    ensures room { counts.new.room ≡ counts.old.room }
{
    let Entry { source, number } = logged.entry;
    let place = logged.place;
    if number <= counts.latest(source) {
        return Err(LogFault::Backward { place });
    }
    let Ok(()) = counts.note(source, number) else {
        return Err(LogFault::Room { place });
    };
    crc.update_slice(&logged.bytes);
    Ok(false)
}

// A sentinel with the sum of its transaction's entries.
#[tactic(auto, using(crate::proofs::OneEntry::takes_sentinel))]
fn end_transaction(
    logged: &LogEntry,
    count: u32,
    counts: &mut Counts,
    crc: &mut Crc,
) -> Result<bool, LogFault>
    ensures takes { TakesEntry count logged.now.place (entry 1 logged.now.entry.number) counts.old crc.old counts.new crc.new result }
    ensures room { counts.new.room ≡ counts.old.room }
{
    if crc.finish() != logged.entry.number {
        return Err(LogFault::Sum {
            place: logged.place,
        });
    }
    *crc = Crc::new();
    counts.finish();
    Ok(counts.finished() == count as u64)
}

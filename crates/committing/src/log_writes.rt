//! The writes of a commit to the log.
ghost use Rattle.std.specs.Prelude.{◌≡◌, ◌<◌, ◌^◌, List, length};
ghost use Rattle.model.specs.declared.types.Entry.{Entry};
ghost use Rattle.model.specs.References.{span};
ghost use Rattle.model.specs.LogFragments.{entries_in, entry_place};
ghost use Rattle.model.specs.Means.{Inside};
ghost use Rattle.committing.specs.CommitWrites.{places, runs_out, log_then, log_writes, end_then};
ghost use Rattle.committing.specs.LogParts.{LogSizes, rest_writes, fit_writes, end_behind};
ghost use Rattle.committing.specs.Made.{Made};

use crate::log_end::LogEnd;
use crate::writes::make_write;
use encoding::buffer::WriteBuffer;
use encoding::parts::FRAGMENT_BYTES;
use model::types::{Entry, Span};
use store::base::SavingStore;

// A fragment's next reference takes so many bytes.
const NEXT_BYTES: u64 = 12;

// An entry takes so many.
const ENTRY_BYTES: u64 = 8;

// Where a new fragment stands in a file that ends at `end`.
fn new_fragment(end: u64) -> Span
    ensures { result ≡ span end 1024 }
{
    Span {
        start: end,
        size: FRAGMENT_BYTES,
    }
}

impl LogEnd {
    // How many entries the last fragment holds.
    fn holds(&self) -> u64
        ensures { result ≡ entries_in self.now.fragment.size }
    {
        self.fragment.size.saturating_sub(NEXT_BYTES) / ENTRY_BYTES
    }

    // How many still fit it.
    fn places(&self) -> u64
        ensures { result ≡ places self.now }
    {
        self.holds().saturating_sub(self.used)
    }

    // Where its i-th entry stands, or behind the last its next reference.
    fn place_of(&self, i: u64) -> u64
        ensures { entry_place self.now.fragment i < 2 ^ 64 → result ≡ entry_place self.now.fragment i }
    {
        self.fragment
            .start
            .saturating_add(i.saturating_mul(ENTRY_BYTES))
    }

    /// Whether so many entries do not all fit the last fragment.
    pub fn runs_out(&self, entries: usize) -> bool
        ensures { Inside 12 (2 ^ 40) self.now.fragment → result ≡ runs_out self.now entries }
    {
        self.places() < entries as u64
    }

    /// Where a file that ends at `end` ends once so many entries are written, and where its log does:
    /// in a new fragment if they run out, else further on in the last one.
    #[tactic(auto, using(crate::proofs::LogMade::end_new, crate::proofs::LogMade::end_same))]
    pub fn after(&self, end: u64, entries: usize) -> (u64, LogEnd)
        ensures end { (es : List Entry) → length es ≡ entries → LogSizes self.now end es → result.0 ≡ end_then self.now end es }
        ensures log { (es : List Entry) → length es ≡ entries → LogSizes self.now end es → result.1 ≡ log_then self.now end entries }
    {
        let entries = entries as u64;
        let places = self.places();
        if places < entries {
            let past = end.saturating_add(FRAGMENT_BYTES);
            let log = LogEnd {
                fragment: new_fragment(end),
                used: entries - places,
            };
            return (past.saturating_add((8 - past % 8) % 8), log);
        }
        let used = self.used.saturating_add(entries);
        (end, LogEnd { used, ..*self })
    }

    /// Writes a commit's entries over a draft that ends at `end`, and answers where it ends then.
    #[tactic(auto, using(crate::proofs::LogMade::log_made, crate::proofs::LogMade::end_both, crate::proofs::LogMade::rest_sizes))]
    pub fn write_entries<S: SavingStore>(
        &self,
        store: &mut S,
        buffer: &mut WriteBuffer,
        end: u64,
        entries: &[Entry],
    ) -> u64
        ensures made { LogSizes self.now end entries.now → Made S.SavingStore.wrote S.Store.bytes S.Store.most store.old store.new (log_writes self.now end entries.now) }
        ensures end { LogSizes self.now end entries.now → result ≡ end_then self.now end entries.now }
    {
        let places = self.places().min(entries.len() as u64) as usize;
        let (fit, rest) = entries.split_at(places);
        let behind = self.write_rest(store, buffer, end, rest);
        self.write_fit(store, buffer, fit);
        behind
    }

    // Writes a new fragment with the entries that do not fit the last one, and then the last one's next reference.
    #[tactic(auto, using(crate::proofs::LogMade::rest_made, crate::proofs::LogMade::rest_none, crate::proofs::LogMade::end_is, crate::proofs::LogMade::end_none))]
    fn write_rest<S: SavingStore>(
        &self,
        store: &mut S,
        buffer: &mut WriteBuffer,
        end: u64,
        rest: &[Entry],
    ) -> u64
        ensures made { LogSizes self.now end rest.now → Made S.SavingStore.wrote S.Store.bytes S.Store.most store.old store.new (rest_writes self.now end rest.now) }
        ensures end { LogSizes self.now end rest.now → result ≡ end_behind end rest.now }
    {
        if rest.is_empty() {
            return end;
        }
        buffer.clear();
        buffer.push_log_fragment(rest);
        buffer.pad(end);
        let behind = end.saturating_add(buffer.len() as u64);
        make_write(store, end, buffer.as_slice());
        buffer.clear();
        buffer.push_span(new_fragment(end));
        make_write(store, self.place_of(self.holds()), buffer.as_slice());
        behind
    }

    // Writes the entries that fit the last fragment, behind those used.
    #[tactic(auto, using(crate::proofs::LogMade::fit_made, crate::proofs::LogMade::fit_none))]
    fn write_fit<S: SavingStore>(&self, store: &mut S, buffer: &mut WriteBuffer, fit: &[Entry])
        ensures { LogSizes self.now 0 fit.now → Made S.SavingStore.wrote S.Store.bytes S.Store.most store.old store.new (fit_writes self.now fit.now) }
    {
        if fit.is_empty() {
            return;
        }
        buffer.clear();
        buffer.push_entries(fit);
        make_write(store, self.place_of(self.used), buffer.as_slice());
    }
}

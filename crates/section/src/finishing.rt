//! Saving: the commit of a draft.
ghost use Rattle.std.specs.Prelude.{◌≡◌, ◌^◌, ◌<◌, ◌≤◌, length, IfOk};
ghost use Rattle.model.specs.Bytes.{same_row};
ghost use Rattle.model.specs.Calls.{State, commit, answer, writes, after};
ghost use Rattle.model.specs.Laws.{Taken};
ghost use Rattle.committing.specs.CommitWrites.{log_then, Sizes};
ghost use Rattle.drafts.specs.Plans.{Says};
ghost use Rattle.section.specs.SavingAnswers.{as_draft, commit_answer, GivesBack};
ghost use Rattle.section.specs.Commits.{Sized, entries_of, fragments_then, used_with, file_end, checks_of, writes_by, KeepsUp, access_then, commit_done};
ghost use Rattle.section.specs.States.{StandsFor};

use crate::access::Access;
use crate::drafting::{Draft, NotCommitted};
use crate::files::File;
use committing::log_end::LogEnd;
use committing::write_commit;
use drafts::layout::DraftLayout;
use drafts::plan::{is_past, with_more};
use keeping::keep_committed;
use model::limits::MOST_FRAGMENTS;
use model::types::Header;
use refusals::calls::SaveFault;
use store::base::SavingStore;

// A fragment that a draft makes has so many bytes.
const MADE_BYTES: u64 = 1024;

impl<S: SavingStore> File<S> {
    /// Finishes the draft as one transaction, with a new version of the file. Refused, the draft comes back.
    pub fn commit(&mut self, draft: Draft, guid: &[u8; 16]) -> Result<(), NotCommitted>
        ensures answer { (st : State) → StandsFor (S.Store.bytes self.old.store) (S.Store.most self.old.store) self.old.room self.old.draft self.old.access st → commit_answer result ≡ answer st (commit (as_draft draft) guid.now) }
        ensures after { (st : State) → StandsFor (S.Store.bytes self.old.store) (S.Store.most self.old.store) self.old.room self.old.draft self.old.access st → StandsFor (S.Store.bytes self.new.store) (S.Store.most self.new.store) self.new.room self.new.draft self.new.access (after st (commit (as_draft draft) guid.now)) }
        ensures writes { (st : State) → StandsFor (S.Store.bytes self.old.store) (S.Store.most self.old.store) self.old.room self.old.draft self.old.access st → S.SavingStore.wrote self.old.store (writes st (commit (as_draft draft) guid.now)) self.new.store }
        ensures draft { GivesBack draft result }
    {
        match self.commit_draft(&draft, guid) {
            Ok(()) => {
                draft.spend();
                Ok(())
            }
            Err(fault) => Err(NotCommitted { draft, fault }),
        }
    }

    // The commit: all checks, then the writes, and then the tables.
    fn commit_draft(&mut self, draft: &Draft, guid: &[u8; 16]) -> Result<(), SaveFault>
        ensures answer { (st : State) → StandsFor (S.Store.bytes self.old.store) (S.Store.most self.old.store) self.old.room self.old.draft self.old.access st → commit_done result ≡ answer st (commit (as_draft draft.now) guid.now) }
        ensures after { (st : State) → StandsFor (S.Store.bytes self.old.store) (S.Store.most self.old.store) self.old.room self.old.draft self.old.access st → StandsFor (S.Store.bytes self.new.store) (S.Store.most self.new.store) self.new.room self.new.draft self.new.access (after st (commit (as_draft draft.now) guid.now)) }
        ensures writes { (st : State) → StandsFor (S.Store.bytes self.old.store) (S.Store.most self.old.store) self.old.room self.old.draft self.old.access st → S.SavingStore.wrote self.old.store (writes st (commit (as_draft draft.now) guid.now)) self.new.store }
    {
        let access = self.in_draft(draft)?;
        let after = self.after_commit(&access, guid)?;
        self.finish(&access, guid);
        self.access = Some(after);
        Ok(())
    }

    // Makes the writes of the commit, and brings the tables up to date.
    fn finish(&mut self, access: &Access, guid: &[u8; 16])
        ensures wrote { Sizes (S.Store.bytes self.old.store) access.now.header access.now.log self.old.draft.end self.old.draft.touched guid.now → Taken (length (S.Store.bytes self.old.store)) (S.Store.most self.old.store) (writes_by (S.Store.bytes self.old.store) self.old.draft access.now guid.now) → S.SavingStore.wrote self.old.store (writes_by (S.Store.bytes self.old.store) self.old.draft access.now guid.now) self.new.store }
        ensures kept { KeepsUp self.old.room self.old.draft access.now.header.count self.new.room }
    {
        write_commit(
            &mut self.store,
            &mut self.buffer,
            &access.header,
            access.log,
            self.draft.end,
            self.draft.touched.as_slice(),
            guid,
        );
        keep_committed(&mut self.room, &self.draft, access.header.count);
    }

    // What is known of the file after the commit of its draft, or the first reason to refuse that.
    #[tactic(auto, unfolding(crate::specs::Commits::checks_of))]
    fn after_commit(&self, access: &Access, guid: &[u8; 16]) -> Result<Access, SaveFault>
        ensures says { Sized self.now.draft access.now → Says (checks_of (S.Store.most self.now.store) self.now.draft access.now guid.now) result }
        ensures known { Sized self.now.draft access.now → IfOk result (λ x. x ≡ access_then self.now.draft access.now guid.now) }
    {
        let header = access.header;
        if self.draft.touched.as_slice().is_empty() {
            return Err(SaveFault::Empty);
        }
        if is_same(guid, &header.version) {
            return Err(SaveFault::Same);
        }
        let fragments = fragments_after(&self.draft, access);
        if fragments > MOST_FRAGMENTS {
            return Err(SaveFault::Full);
        }
        let (Some(count), Some(generation)) = (
            header.count.checked_add(1),
            header.generation.checked_add(1),
        ) else {
            return Err(SaveFault::Last);
        };
        let (end, log) = ends_after(&self.draft, access);
        if is_past(self.draft.end, self.store.ceiling(), end) {
            return Err(SaveFault::Ceiling);
        }
        Ok(Access {
            drafting: false,
            header: Header {
                count,
                end,
                generation,
                version: *guid,
                ..header
            },
            log,
            fragments,
            used: used_after(access, fragments),
            highest: self.draft.highest,
            ..*access
        })
    }
}

// How many entries the commit of a draft has: one for each list that it touched, and the sentinel.
fn entries(draft: &DraftLayout) -> usize
    ensures { result ≡ entries_of draft.now }
{
    draft.touched.as_slice().len() + 1
}

// How many fragments there are then: one more where the entries do not all fit the log's last.
fn fragments_after(draft: &DraftLayout, access: &Access) -> usize
    ensures { Sized draft.now access.now → result ≡ fragments_then draft.now access.now }
{
    with_more(draft.fragments, access.log.runs_out(entries(draft)))
}

// How many bytes header and fragments have then, with so many fragments.
fn used_after(access: &Access, fragments: usize) -> u64
    ensures { access.now.used < 2 ^ 57 → fragments ≤ 2048 → result ≡ used_with access.now fragments }
{
    let made = fragments.saturating_sub(access.fragments) as u64;
    access.used.saturating_add(MADE_BYTES.saturating_mul(made))
}

// Where the file and its log end then.
#[tactic(auto, using(crate::proofs::Checks::entries_length), unfolding(crate::specs::Commits::file_end))]
fn ends_after(draft: &DraftLayout, access: &Access) -> (u64, LogEnd)
    ensures end { Sized draft.now access.now → result.0 ≡ file_end draft.now access.now }
    ensures log { Sized draft.now access.now → result.1 ≡ log_then access.now.log draft.now.end (entries_of draft.now) }
{
    access.log.after(draft.end, entries(draft))
}

// Whether two versions of a file are the same.
#[tactic(auto, using(crate::proofs::Checks::row_test))]
fn is_same(a: &[u8; 16], b: &[u8; 16]) -> bool
    ensures { result ≡ same_row a.now b.now }
{
    a == b
}

//! Saving: drafts, adds, abandon. What each call answers, what it writes and what the file is then are those of the rules,
//! for every state that the file stands for; a refused call changes nothing.
ghost use Rattle.std.specs.Prelude.{◌≡◌, ◌+◌, false, List, [], ◌∷◌, ◌++◌, length};
ghost use Rattle.model.specs.Section.{Section};
ghost use Rattle.model.specs.Layouts.{Add};
ghost use Rattle.model.specs.Saving.{layout};
ghost use Rattle.model.specs.Calls.{State, begin, add, abandon, too_large, answer, writes, after};
ghost use Rattle.model.specs.Laws.{Taken};
ghost use Rattle.tables.specs.declared.room.Row.{Row};
ghost use Rattle.writing.specs.Tails.{as_tail, InReach};
ghost use Rattle.adding.specs.Writes.{add_writes};
ghost use Rattle.drafts.specs.Lays.{Lays};
ghost use Rattle.drafts.specs.Steps.{capped};
ghost use Rattle.drafts.specs.Plans.{Plans};
ghost use Rattle.drafts.specs.Rowed.{Rowed, RowFor};
ghost use Rattle.adding.specs.Adds.{add_of};
ghost use Rattle.section.specs.SavingAnswers.{as_draft, begin_answer, add_answer, abandon_answer, known, begun_in, owned, made_list};
ghost use Rattle.section.specs.States.{StandsFor};

use crate::access::Access;
use crate::bytes::adds_bytes;
use crate::drafting::{Added, Draft};
use crate::files::File;
use adding::adds::NewAdd;
use adding::writes::write_add;
use drafts::layout::DraftLayout;
use drafts::step::Step;
use encoding::buffer::WriteBuffer;
use refusals::calls::SaveFault;
use store::base::SavingStore;

impl<S: SavingStore> File<S> {
    /// Begins a draft.
    #[tactic(auto, using(crate::proofs::Rests::begin_refused, crate::proofs::Rests::begin_stays))]
    pub fn begin(&mut self) -> Result<Draft, SaveFault>
        ensures store { self.new.store ≡ self.old.store }
        ensures answer { (st : State) → StandsFor (S.Store.bytes self.old.store) (S.Store.most self.old.store) self.old.room self.old.draft self.old.access st → begin_answer result ≡ answer st begin }
        ensures after { (st : State) → StandsFor (S.Store.bytes self.old.store) (S.Store.most self.old.store) self.old.room self.old.draft self.old.access st → StandsFor (S.Store.bytes self.new.store) (S.Store.most self.new.store) self.new.room self.new.draft self.new.access (after st begin) }
    {
        let access = self.next_draft()?;
        self.draft.begin(
            access.header.end,
            access.fragments,
            self.room.lists.len(),
            access.highest,
        );
        self.access = Some(access);
        Ok(Draft::last_of(&access))
    }

    /// Adds a node to a list, and before it the data or the list that it refers to. The draft comes back, whether the add is done or refused.
    pub fn add(&mut self, draft: Draft, new: &NewAdd) -> Added
        ensures draft { result.draft ≡ draft }
        ensures answer { (st : State) → StandsFor (S.Store.bytes self.old.store) (S.Store.most self.old.store) self.old.room self.old.draft self.old.access st → add_answer result.done ≡ answer st (add (as_draft draft) (add_of new.now)) }
        ensures after { (st : State) → StandsFor (S.Store.bytes self.old.store) (S.Store.most self.old.store) self.old.room self.old.draft self.old.access st → StandsFor (S.Store.bytes self.new.store) (S.Store.most self.new.store) self.new.room self.new.draft self.new.access (after st (add (as_draft draft) (add_of new.now))) }
        ensures writes { (st : State) → StandsFor (S.Store.bytes self.old.store) (S.Store.most self.old.store) self.old.room self.old.draft self.old.access st → S.SavingStore.wrote self.old.store (writes st (add (as_draft draft) (add_of new.now))) self.new.store }
    {
        let done = self.add_to(&draft, new);
        Added { draft, done }
    }

    /// Lets the draft go: nothing of it is ever seen. Refused, the file's own draft stays open.
    #[tactic(auto, using(crate::proofs::Rests::abandon_refused, crate::proofs::Rests::abandon_stays, crate::proofs::Rests::abandoned_answer))]
    pub fn abandon(&mut self, draft: Draft) -> Result<(), SaveFault>
        ensures store { self.new.store ≡ self.old.store }
        ensures answer { (st : State) → StandsFor (S.Store.bytes self.old.store) (S.Store.most self.old.store) self.old.room self.old.draft self.old.access st → abandon_answer result ≡ answer st (abandon (as_draft draft)) }
        ensures after { (st : State) → StandsFor (S.Store.bytes self.old.store) (S.Store.most self.old.store) self.old.room self.old.draft self.old.access st → StandsFor (S.Store.bytes self.new.store) (S.Store.most self.new.store) self.new.room self.new.draft self.new.access (after st (abandon (as_draft draft))) }
    {
        let access = self.in_draft(&draft);
        draft.spend();
        self.access = Some(access?.without_draft());
        Ok(())
    }

    // What is known of the file, if it is open.
    fn known(&self) -> Result<Access, SaveFault>
        ensures { result ≡ known self.now.access }
    {
        self.access.ok_or(SaveFault::Shut)
    }

    // What is known of it once one more draft is begun.
    fn next_draft(&self) -> Result<Access, SaveFault>
        ensures { result ≡ begun_in self.now.access }
    {
        self.known()?.with_draft()
    }

    // What is known of the file, if this draft is the one open here.
    pub(crate) fn in_draft(&self, draft: &Draft) -> Result<Access, SaveFault>
        ensures { result ≡ owned self.now.access draft.now }
    {
        let access = self.known()?;
        if !draft.is_open_in(&access) {
            return Err(SaveFault::Foreign);
        }
        Ok(access)
    }

    // The add: all checks, then the writes. A branch answers the ID of the list that it made.
    #[tactic(auto, using(crate::proofs::Adds::foreign_refused, crate::proofs::Adds::foreign_stands))]
    fn add_to(&mut self, draft: &Draft, new: &NewAdd) -> Result<Option<u32>, SaveFault>
        ensures answer { (st : State) → StandsFor (S.Store.bytes self.old.store) (S.Store.most self.old.store) self.old.room self.old.draft self.old.access st → add_answer result ≡ answer st (add (as_draft draft.now) (add_of new.now)) }
        ensures after { (st : State) → StandsFor (S.Store.bytes self.old.store) (S.Store.most self.old.store) self.old.room self.old.draft self.old.access st → StandsFor (S.Store.bytes self.new.store) (S.Store.most self.new.store) self.new.room self.new.draft self.new.access (after st (add (as_draft draft.now) (add_of new.now))) }
        ensures writes { (st : State) → StandsFor (S.Store.bytes self.old.store) (S.Store.most self.old.store) self.old.room self.old.draft self.old.access st → S.SavingStore.wrote self.old.store (writes st (add (as_draft draft.now) (add_of new.now))) self.new.store }
    {
        self.in_draft(draft)?;
        adds_bytes(new);
        let step = self.draft.plan(&self.room, self.store.ceiling(), new)?;
        make(
            &mut self.store,
            &mut self.buffer,
            &mut self.draft,
            &step,
            new,
        );
        Ok(made_list(&step))
    }
}

// Makes the writes of a planned add, and then the draft has it.
fn make<S: SavingStore>(
    store: &mut S,
    buffer: &mut WriteBuffer,
    draft: &mut DraftLayout,
    step: &Step,
    new: &NewAdd,
)
    ensures writes { InReach draft.old.end step.now.before → too_large (add_of new.now) ≡ false → Taken (length (S.Store.bytes store.old)) (S.Store.most store.old) (add_writes draft.old.end (as_tail step.now.before) (capped (draft.old.highest + 1)) (add_of new.now)) → S.SavingStore.wrote store.old (add_writes draft.old.end (as_tail step.now.before) (capped (draft.old.highest + 1)) (add_of new.now)) store.new }
    ensures lays { (s : Section) (adds : List Add) (a : Add) → Lays s adds draft.old → Plans (layout s adds) a step.now → Lays s (adds ++ (a ∷ [])) draft.new }
    ensures rowed { (s : Section) (adds : List Add) (a : Add) (rows : List Row) → Lays s adds draft.old → Plans (layout s adds) a step.now → Rowed rows draft.old → RowFor rows draft.old.touched step.now.before → Rowed rows draft.new }
{
    let made = draft.highest.saturating_add(1);
    write_add(store, buffer, draft.end, &step.before, made, new);
    draft.take(step);
}

// The ID of the list that an add made, if it made one.
fn made_list(step: &Step) -> Option<u32>
    ensures { result ≡ made_list step.now.made }
{
    step.made.map(|tail| tail.list)
}

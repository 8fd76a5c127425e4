//! What a file tells of itself: its figures as it now stands, its store, and its parts.
ghost use Rattle.std.specs.Prelude.{◌≡◌, ◌^◌, ◌<◌, ◌≤◌, true, length, is_some, MatchResult, None};
ghost use Rattle.model.specs.Faults.{fault};
ghost use Rattle.refusals.specs.CallRefusals.{look_told};
ghost use Rattle.section.specs.Figures.{figures_known};
ghost use Rattle.section.specs.Keeping.{Sound};
ghost use Rattle.section.specs.Telling.{Tells};

use crate::access::{Access, Figures};
use crate::files::File;
use crate::space::Space;
use refusals::calls::LookFault;
use store::base::Store;

impl<S: Store> File<S> {
    /// The figures of the file as it now stands: those that opening its bytes would give.
    pub fn figures(&self) -> Result<Figures, LookFault>
        ensures open { MatchResult result (λ f. is_some self.now.access ≡ true) (λ e. (self.now.access ≡ None) × (look_told e ≡ fault 15 5 0 0)) }
        ensures figures { Sound (S.Store.bytes self.now.store) self.now.room self.now.access → Tells (S.Store.bytes self.now.store) self.now.access result }
    {
        let Some(access) = self.access else {
            return Err(LookFault::Shut);
        };
        Ok(self.figures_by(&access))
    }

    // The same, of an opened file, by what is known of it.
    pub(crate) fn figures_by(&self, access: &Access) -> Figures
        ensures { 1 ≤ access.now.header.end → access.now.used < 2 ^ 57 → result ≡ figures_known access.now (length self.now.room.lists) }
    {
        access.figures(self.room.lists.len())
    }

    /// The file's store.
    pub fn store(&self) -> &S
        ensures { result.now ≡ self.now.store }
    {
        &self.store
    }

    /// Takes the file apart, into its store and the space that it worked in.
    pub fn into_parts(self) -> (S, Space)
        ensures store { result.0 ≡ self.store }
        ensures room { result.1.room ≡ self.room }
        ensures draft { result.1.draft ≡ self.draft }
        ensures buffer { result.1.buffer ≡ self.buffer }
    {
        let File {
            store,
            room,
            draft,
            buffer,
            access: _,
        } = self;
        (
            store,
            Space {
                room,
                draft,
                buffer,
            },
        )
    }
}

//! Looks at an opened file, now and back.
ghost use Rattle.std.specs.Prelude.{◌≡◌, MatchResult, None};
ghost use Rattle.model.specs.Faults.{fault};
ghost use Rattle.refusals.specs.CallRefusals.{look_told};
ghost use Rattle.model.specs.Looks.{node_look, data_look, alike};
ghost use Rattle.looks.specs.Answers.{node_answer, data_answer, alike_answer, count_answer};
ghost use Rattle.section.specs.Keeping.{Sound};
ghost use Rattle.section.specs.LookAnswers.{look_of, count_of, HasHeader};

use crate::files::File;
use looks::opened::Opened;
use looks::seen::NodeSeen;
use refusals::calls::LookFault;
use store::base::Store;

impl<S: Store> File<S> {
    // The file as looks see it, unless it is shut.
    fn opened(&self) -> Result<Opened<'_, S>, LookFault>
        ensures { MatchResult result (λ o. (o.store.now ≡ self.now.store) × (o.room.now ≡ self.now.room) × HasHeader self.now.access o.header) (λ e. (self.now.access ≡ None) × (look_told e ≡ fault 15 5 0 0)) }
    {
        match &self.access {
            None => Err(LookFault::Shut),
            Some(access) => Ok(Opened {
                store: &self.store,
                room: &self.room,
                header: access.header,
            }),
        }
    }

    /// How many nodes a list had when `k` transactions were finished; 0 for a list that none of them counts.
    #[tactic(auto, using(crate::proofs::Shown::counted_of))]
    pub fn count_at(&self, k: u64, list: u32) -> Result<u32, LookFault>
        ensures { Sound (S.Store.bytes self.now.store) self.now.room self.now.access → count_answer result ≡ count_of self.now.access (S.Store.bytes self.now.store) k list }
    {
        self.opened()?.count_at(k, list)
    }

    /// The node of a list with an index, as it was when `k` transactions were finished; its payload goes to the buffer's front.
    #[tactic(auto, using(crate::proofs::Shown::shown))]
    pub fn node(
        &self,
        k: u64,
        list: u32,
        index: u64,
        buffer: &mut [u8],
    ) -> Result<NodeSeen, LookFault>
        ensures { Sound (S.Store.bytes self.now.store) self.now.room self.now.access → node_answer result buffer.new ≡ look_of self.now.access (S.Store.bytes self.now.store) (node_look k list index buffer.old) }
    {
        self.opened()?.node(k, list, index, buffer)
    }

    /// `size` bytes of a node's data from `place` in it on; they go to the buffer's front.
    #[tactic(auto, using(crate::proofs::Shown::shown))]
    pub fn data(
        &self,
        k: u64,
        list: u32,
        index: u64,
        place: u64,
        size: u64,
        buffer: &mut [u8],
    ) -> Result<(), LookFault>
        ensures { Sound (S.Store.bytes self.now.store) self.now.room self.now.access → data_answer size result buffer.new ≡ look_of self.now.access (S.Store.bytes self.now.store) (data_look k list index place size buffer.old) }
    {
        self.opened()?.data(k, list, index, place, size, buffer)
    }

    /// Whether two nodes had the same ID and the same payload when `k` transactions were finished.
    #[tactic(auto, using(crate::proofs::Shown::shown))]
    pub fn alike(
        &self,
        k: u64,
        list: u32,
        index: u64,
        other_list: u32,
        other_index: u64,
    ) -> Result<bool, LookFault>
        ensures { Sound (S.Store.bytes self.now.store) self.now.room self.now.access → alike_answer result ≡ look_of self.now.access (S.Store.bytes self.now.store) (alike k list index other_list other_index) }
    {
        self.opened()?
            .alike(k, list, index, other_list, other_index)
    }
}

//! An opened file as looks see it.
ghost use Rattle.std.specs.Prelude.{◌≡◌, ◌≤◌};
ghost use Rattle.model.specs.Section.{Section, count_at};
ghost use Rattle.model.specs.Looks.{node_look, data_look, alike, node_of, seen_in, answered};
ghost use Rattle.looks.specs.Answers.{Opens, node_answer, data_answer, alike_answer, counted, count_answer};
ghost use Rattle.looks.specs.Finds.{Finds, Finished, Below, Fills};

use crate::compared::same_pieces;
use crate::found::{FoundNode, place_of};
use crate::seen::NodeSeen;
use format::references::ends_past;
use log_count::count_in_log;
use model::types::Header;
use node_walk::nodes_from;
use refusals::calls::LookFault;
use store::base::Store;
use tables::room::Room;

/// An opened file: its store, its tables, and its header. No look takes memory or changes anything but its buffer.
#[derive(Drop)]
pub struct Opened<'a, S> {
    pub store: &'a S,
    pub room: &'a Room,
    pub header: Header,
}

impl<S: Store> Opened<'_, S> {
    /// How many nodes a list had when `k` transactions were finished.
    #[tactic(auto, using(crate::proofs::Counting::counted_done))]
    pub fn count_at(&self, k: u64, list: u32) -> Result<u32, LookFault>
        ensures { (s : Section) → Opens (S.Store.bytes self.now.store.now) self.now.room.now self.now.header s → count_answer result ≡ counted s k list }
    {
        let finished = self.finished(k)?;
        Ok(self.counted(finished, list))
    }

    /// The node of a list with an index, as it was when `k` transactions were finished; its payload goes to the buffer's front.
    pub fn node(
        &self,
        k: u64,
        list: u32,
        index: u64,
        buffer: &mut [u8],
    ) -> Result<NodeSeen, LookFault>
        ensures { (s : Section) → Opens (S.Store.bytes self.now.store.now) self.now.room.now self.now.header s → node_answer result buffer.new ≡ answered (node_look k list index buffer.old) (seen_in (S.Store.bytes self.now.store.now) s (node_look k list index buffer.old)) }
    {
        let node = self.find(k, list, index)?;
        self.read(node.payload.start, node.payload.size, buffer)?;
        Ok(node.seen())
    }

    /// So many bytes of a node's data, from a place in it on; they go to the buffer's front.
    pub fn data(
        &self,
        k: u64,
        list: u32,
        index: u64,
        place: u64,
        size: u64,
        buffer: &mut [u8],
    ) -> Result<(), LookFault>
        ensures { (s : Section) → Opens (S.Store.bytes self.now.store.now) self.now.room.now self.now.header s → data_answer size result buffer.new ≡ answered (data_look k list index place size buffer.old) (seen_in (S.Store.bytes self.now.store.now) s (data_look k list index place size buffer.old)) }
    {
        let data = self.find(k, list, index)?.data();
        if ends_past(data.size, place, size) {
            return Err(LookFault::Range);
        }
        self.read(data.start.saturating_add(place), size, buffer)
    }

    /// Whether two nodes have the same ID and the same payload.
    pub fn alike(
        &self,
        k: u64,
        list: u32,
        index: u64,
        other_list: u32,
        other_index: u64,
    ) -> Result<bool, LookFault>
        ensures { (s : Section) → Opens (S.Store.bytes self.now.store.now) self.now.room.now self.now.header s → alike_answer result ≡ answered (alike k list index other_list other_index) (seen_in (S.Store.bytes self.now.store.now) s (alike k list index other_list other_index)) }
    {
        let one = self.find(k, list, index)?;
        let other = self.find(k, other_list, other_index)?;
        Ok(
            one.node.head.id == other.node.head.id
                && same_pieces(self.store, one.payload, other.payload),
        )
    }

    // The count that a look looks back to, if the file has come to it.
    fn finished(&self, k: u64) -> Result<u32, LookFault>
        ensures { Finished self.now.header.count k result }
    {
        if k == 0 || k > u64::from(self.header.count) {
            return Err(LookFault::Future);
        }
        Ok(k as u32)
    }

    // A list's count after `k` transactions: by the table as far as it goes, else by the log.
    #[tactic(auto, using(crate::proofs::Counting::noted_is))]
    fn counted(&self, k: u32, list: u32) -> u32
        ensures { (s : Section) → Opens (S.Store.bytes self.now.store.now) self.now.room.now self.now.header s → k ≤ self.now.header.count → result ≡ count_at s.log k list }
    {
        if u64::from(k) <= self.room.counts.finished() {
            self.room.counts.count_at(k, list)
        } else {
            count_in_log(self.store, self.header.log, k, list)
        }
    }

    // The node of a list with an index, if there was one when `k` transactions were finished.
    fn find(&self, k: u64, list: u32, index: u64) -> Result<FoundNode, LookFault>
        ensures { (s : Section) → Opens (S.Store.bytes self.now.store.now) self.now.room.now self.now.header s → Finds (S.Store.bytes self.now.store.now) result (node_of s k list index) }
    {
        let k = self.finished(k)?;
        let index = below(self.counted(k, list), index)?;
        let Some(piece) = self.room.pieces.find(list, index) else {
            return Err(LookFault::NoNode);
        };
        let place = place_of(
            self.store,
            nodes_from(piece.fragment),
            index.saturating_sub(piece.from),
        );
        Ok(FoundNode::at(self.store, place))
    }

    // Bytes of the file go to the buffer's front.
    fn read(&self, place: u64, size: u64, buffer: &mut [u8]) -> Result<(), LookFault>
        ensures { Fills (S.Store.bytes self.now.store.now) place size buffer.old buffer.new result }
    {
        self.store
            .read(place, size as usize, buffer)
            .map_err(|_| LookFault::Range)
    }
}

// An index, if it is below a list's count.
fn below(count: u32, index: u64) -> Result<u32, LookFault>
    ensures { Below count index result }
{
    if index >= u64::from(count) {
        return Err(LookFault::NoNode);
    }
    Ok(index as u32)
}

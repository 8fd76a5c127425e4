//! What a table of counts answers.
ghost use Rattle.std.specs.Prelude.{◌≡◌, ◌-◌, ◌<◌, vec_len};
ghost use Rattle.counts.specs.Noted.{noted, noted_at, noted_most};
ghost use Rattle.counts.specs.Chains.{list_at, newest_in};

use crate::table::Counts;

impl Counts {
    /// How many transactions are finished.
    pub fn finished(&self) -> u64
        ensures { result ≡ self.now.finished }
    {
        self.finished
    }

    /// For how many changes more there is room.
    pub fn left(&self) -> usize
        ensures { result ≡ self.now.room - vec_len self.now.changes }
    {
        self.room.saturating_sub(self.changes.len())
    }

    /// The highest ID of a list that was given a count; 0 for none.
    pub fn highest(&self) -> u32
        ensures { result ≡ noted_most self.now.changes.items }
    {
        self.highest
    }

    /// A list's newest count; 0 for a list that was given none, as the definitions have it.
    #[tactic(auto, using(crate::proofs::Newest::newest_within, crate::proofs::Newest::noted_none, crate::proofs::Newest::noted_some))]
    pub fn latest(&self, list: u32) -> u32
        ensures { result ≡ noted self.now.changes.items list }
    {
        match self.lists.newest(list) {
            Some(i) => self.changes[i].count,
            None => 0,
        }
    }

    // The change of the same list before a change, if there is one.
    #[tactic(auto, using(crate::proofs::Newest::link_tells, std::proofs::lemmas::List::get_or_read_under))]
    fn before(&self, i: usize) -> Option<usize>
        requires { i < vec_len self.now.changes }
        ensures { result ≡ newest_in (list_at self.now.changes.items i) self.now.changes.items i }
    {
        let before = self.links[i];
        (before < i).then_some(before)
    }

    /// A list's count after `k` transactions, by its changes from the newest one back.
    pub fn count_at(&self, k: u32, list: u32) -> u32
        ensures { result ≡ noted_at self.now.changes.items k list }
    {
        let mut at = self.lists.newest(list);
        while let Some(i) = at {
            let change = self.changes[i];
            if change.transaction <= u64::from(k) {
                return change.count;
            }
            at = self.before(i);
        }
        0
    }
}

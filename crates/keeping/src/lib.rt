//! The tables of an opened file, once the commit of a draft is done.
#![tactic(auto)]

ghost use Rattle.std.specs.Prelude.{◌≡◌, ℕ, ◌+◌, ◌-◌, List, ◌++◌, if◌then◌else◌, vec_len};
ghost use Rattle.model.specs.Faults.{done};
ghost use Rattle.model.specs.Section.{Section};
ghost use Rattle.model.specs.Opened.{opened};
ghost use Rattle.model.specs.Layouts.{Add};
ghost use Rattle.commits.specs.Parts.{Leaves};
ghost use Rattle.counts.specs.Noted.{changes_of};
ghost use Rattle.tables.specs.Kept.{Kept};
ghost use Rattle.drafts.specs.Lays.{Lays};
ghost use Rattle.drafts.specs.Rowed.{Rowed};
ghost use Rattle.keeping.specs.Given.{given, notes};

use crate::noting::keep_counts;
use crate::parts::{keep_pieces, keep_rows};
use drafts::layout::DraftLayout;
use tables::room::Room;

mod noting;
mod parts;

/// Brings the tables of a file up to date, once the commit of a draft is done: the rows and the fragments of the lists that it touched,
/// and the counts that its transaction gave, as long as there is room for them; `count` is the number of transactions before it.
pub fn keep_committed(room: &mut Room, draft: &DraftLayout, count: u32)
    ensures kept { (b c : List ℕ) (s : Section) (adds : List Add) (t : Section) → opened b ≡ done s → opened c ≡ done t → count ≡ s.header.count → Kept b s room.old → Lays s adds draft.now → Rowed room.old.lists draft.now → Leaves s adds t → Kept c t room.new }
    ensures changes { room.new.counts.changes.items ≡ (if notes room.old.counts.finished count (room.old.counts.room - vec_len room.old.counts.changes) draft.now.touched then room.old.counts.changes.items ++ changes_of (room.old.counts.finished + 1) (given draft.now.touched) else room.old.counts.changes.items) }
    ensures finished { room.new.counts.finished ≡ (if notes room.old.counts.finished count (room.old.counts.room - vec_len room.old.counts.changes) draft.now.touched then room.old.counts.finished + 1 else room.old.counts.finished) }
    ensures room { room.new.counts.room ≡ room.old.counts.room }
{
    let touched = draft.touched.as_slice();
    keep_rows(&mut room.lists, touched);
    keep_pieces(&mut room.pieces, draft.added.as_slice());
    keep_counts(&mut room.counts, touched, count);
}

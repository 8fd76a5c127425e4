//! The counts that a commit's transaction gave.
ghost use Rattle.std.specs.Prelude.{◌≡◌, ◌+◌, ◌-◌, ◌≤◌, ◌++◌, length, if◌then◌else◌, vec_len};
ghost use Rattle.counts.specs.Noted.{changes_of};
ghost use Rattle.keeping.specs.Given.{given, notes};

use counts::table::Counts;
use writing::tails::Tail;

/// Notes the counts that the transaction behind the first `count` gave, if all before it were noted and there is room for its own.
/// Where there is none, neither it nor a later one is noted.
pub(crate) fn keep_counts(counts: &mut Counts, touched: &[Tail], count: u32)
    ensures changes { counts.new.changes.items ≡ (if notes counts.old.finished count (counts.old.room - vec_len counts.old.changes) touched.now then counts.old.changes.items ++ changes_of (counts.old.finished + 1) (given touched.now) else counts.old.changes.items) }
    ensures finished { counts.new.finished ≡ (if notes counts.old.finished count (counts.old.room - vec_len counts.old.changes) touched.now then counts.old.finished + 1 else counts.old.finished) }
    ensures room { counts.new.room ≡ counts.old.room }
{
    if counts.finished() == u64::from(count) && touched.len() <= counts.left() {
        note_all(counts, touched);
        counts.finish();
    }
}

// Notes the count of each of these lists.
fn note_all(counts: &mut Counts, touched: &[Tail])
    requires { length touched.now ≤ counts.old.room - vec_len counts.old.changes }
    ensures changes { counts.new.changes.items ≡ counts.old.changes.items ++ changes_of (counts.old.finished + 1) (given touched.now) }
    ensures finished { counts.new.finished ≡ counts.old.finished }
    ensures room { counts.new.room ≡ counts.old.room }
{
    for tail in touched {
        // there is room, as was tested
        let _ = counts.note(tail.list, tail.count);
    }
}

//! Reading a file: its header, its log, its lists, and then their data references.
ghost use Rattle.std.specs.Prelude.{◌≡◌, [], ◌+◌, ◌^◌, ◌<◌};
ghost use Rattle.model.specs.References.{span};
ghost use Rattle.model.specs.Section.{last_of};
ghost use Rattle.commits.specs.Extends.{sizes};
ghost use Rattle.section.specs.OpenAnswers.{ReadsFile};

use crate::access::Access;
use committing::log_end::LogEnd;
use data_pass::check_data;
use header_pass::check_header;
use lists_pass::read_lists;
use log_pass::read_log;
use model::types::Span;
use refusals::faults::OpenFault;
use store::base::Store;
use tables::room::Room;

// Reads the file of a store into a room.
pub(crate) fn read_file<S: Store>(
    store: &S,
    mark: u64,
    room: &mut Room,
) -> Result<Access, OpenFault>
    ensures file { ReadsFile mark (S.Store.bytes store.now) room.old.counts.room room.new result }
    ensures room { room.new.counts.room ≡ room.old.counts.room }
{
    // A refused header leaves no lists of an earlier try.
    room.clear();
    read_parts(store, mark, room)
}

// Reads its parts, one after the other, into a room that holds no list.
fn read_parts<S: Store>(store: &S, mark: u64, room: &mut Room) -> Result<Access, OpenFault>
    requires { room.old.lists ≡ [] }
    ensures file { ReadsFile mark (S.Store.bytes store.now) room.old.counts.room room.new result }
    ensures room { room.new.counts.room ≡ room.old.counts.room }
{
    let checked = check_header(store)?;
    let used = read_log(store, &checked, room)?;
    let fragment = last_of(room.fragments.as_slice());
    read_lists(store, &checked, room)?;
    check_data(store, &checked, room)?;
    Ok(Access {
        mark,
        begins: 0,
        drafting: false,
        header: checked.header,
        log: LogEnd { fragment, used },
        fragments: room.fragments.len(),
        used: used_bytes(room.fragments.as_slice()),
        highest: room.counts.highest(),
    })
}

// The last of the log's fragments; a log that was read has one.
#[tactic(auto, using(crate::proofs::Lasts::last_found))]
fn last_of(fragments: &[Span]) -> Span
    ensures { result ≡ last_of (span 0 0) fragments.now }
{
    fragments
        .last()
        .copied()
        .unwrap_or(Span { start: 0, size: 0 })
}

// How many bytes the header and the fragments have.
fn used_bytes(fragments: &[Span]) -> u64
    ensures { sizes fragments.now < 2 ^ 56 → result ≡ 1024 + sizes fragments.now }
{
    let mut all: u64 = 1024;
    for fragment in fragments {
        all = all.saturating_add(fragment.size);
    }
    all
}

//! The data references of all lists, one after the other: each ends by the file's end, and shares no byte with the header or a fragment.
#![tactic(auto)]

ghost use Rattle.std.specs.Prelude.{◌≡◌, List, []};
ghost use Rattle.model.specs.Section.{Log, NodeList};
ghost use Rattle.model.specs.Opened.{all_data};
ghost use Rattle.model.specs.Breaks.{Walked};
ghost use Rattle.refusals.specs.Checked.{Checked};
ghost use Rattle.data_pass.specs.Files.{Filed};

use crate::listed::Listed;
use header_pass::checked::CheckedHeader;
use refusals::faults::InList;
use store::base::Store;
use tables::room::Room;

mod listed;

/// The data references of all lists, list by list.
pub fn check_data<S: Store>(store: &S, checked: &CheckedHeader, room: &Room) -> Result<(), InList>
    ensures { (log : Log) (ls : List NodeList) → Walked (S.Store.bytes store.now) checked.now.header log ls [] → Filed log ls room.now.lists room.now.fragments → Checked (all_data checked.now.header log ls) result }
{
    let file = Listed {
        store,
        end: checked.header.end,
        fragments: &room.fragments,
    };
    file.check_lists(room.lists.as_slice())
}

//! A file in a lent buffer is extended by one transaction.
ghost use Rattle.std.specs.Prelude.{◌≡◌, ℕ, ◌≤◌, length, take, None};
ghost use Rattle.model.specs.Calls.{State};
ghost use Rattle.model.specs.Layouts.{plain, with_data, branch};
ghost use Rattle.adding.specs.Adds.{add_of};
ghost use Rattle.section.specs.SavingAnswers.{as_draft};
ghost use Rattle.section.specs.States.{StandsFor};
ghost use Rattle.sheet_c.specs.Shapes.{fault_as};
ghost use Rattle.sheet_c.specs.Extends.{id_or_0, transacted, extended_in, Ends, Runs, Extended};

use crate::shapes::{SheetFault, no_fault, no_memory};
use adding::adds::{NewAdd, With};
use lent_store::lent_mut::LentMut;
use model::types::Fault;
use section::drafting::{Added, Draft, NotCommitted};
use section::files::File;
use section::space::Space;
use std::alloc::Global;
use store::base::{SavingStore, Store, StoreFault};

// Any mark will do: each file is opened once.
const MARK: u64 = 1;

// The ID of a list, or 0 for none.
fn id_or_0(made: Option<u32>) -> u32
    ensures { result ≡ id_or_0 made }
{
    match made {
        Some(id) => id,
        None => 0,
    }
}

// An add, and the commit of its draft. Refused, the draft is abandoned. Answers the ID of the list that the add made, or 0.
fn finish<S: SavingStore>(
    file: &mut File<S>,
    draft: Draft,
    new: &NewAdd,
    version: &[u8; 16],
) -> Result<u32, Fault>
    ensures { (st : State) → StandsFor (S.Store.bytes file.old.store) (S.Store.most file.old.store) file.old.room file.old.draft file.old.access st → Ends S.Store.bytes S.SavingStore.wrote file.old.store file.new.store result (transacted st (as_draft draft) (add_of new.now) version.now) }
{
    let Added { draft, done } = file.add(draft, new);
    let made = match done {
        Ok(made) => made,
        Err(fault) => {
            let _ = file.abandon(draft);
            return Err(fault.into());
        }
    };
    match file.commit(draft, version) {
        Ok(()) => Ok(id_or_0(made)),
        Err(NotCommitted { draft, fault }) => {
            let _ = file.abandon(draft);
            Err(fault.into())
        }
    }
}

// One transaction of one add, on a file that is not open.
fn transaction<S: SavingStore>(
    file: &mut File<S>,
    new: &NewAdd,
    version: &[u8; 16],
) -> Result<u32, Fault>
    ensures { file.old.access ≡ None → Ends S.Store.bytes S.SavingStore.wrote file.old.store file.new.store result (extended_in file.old.room.counts.room (S.Store.bytes file.old.store) (S.Store.most file.old.store) (add_of new.now) version.now) }
{
    file.open(MARK)?;
    let draft = file.begin()?;
    finish(file, draft, new, version)
}

// The same in a lent buffer, whose first `len` bytes are the file. The loan comes back, so that what the buffer then holds is known. No answer: memory is wanted.
fn extended<'a>(
    heap: Global,
    buffer: &'a mut [u8],
    len: u64,
    room: usize,
    new: &NewAdd,
    version: &[u8; 16],
    answer: &mut Option<Result<u32, Fault>>,
) -> LentMut<'a>
    requires { len ≤ length buffer.old }
    ensures same { result.buffer.ghost_name ≡ buffer.entry.ghost_name }
    ensures extends { Runs answer.new (take len buffer.old) (take result.len result.buffer.now) (extended_in room (take len buffer.old) (length buffer.old) (add_of new.now) version.now) }
{
    let store = LentMut::up_to(buffer, len);
    let Ok(space) = Space::new(heap, room) else {
        *answer = None;
        return store;
    };
    let mut file = File::new(store, space);
    *answer = Some(transaction(&mut file, new, version));
    let (store, _) = file.into_parts();
    store
}

// One transaction of one add in a lent buffer, and what it tells.
fn extend(
    heap: Global,
    buffer: &mut [u8],
    len: &mut u64,
    room: usize,
    new: &NewAdd,
    version: &[u8; 16],
    made: &mut u32,
    fault: &mut SheetFault,
) -> u32
    ensures number { result ≡ fault.new.number }
    ensures extends { Extended room buffer.old len.old (add_of new.now) version.now buffer.new len.new fault.new made.old made.new }
{
    if *len as usize > buffer.len() {
        return tell(fault, StoreFault::Map.into());
    }
    let mut answer = None;
    let store = extended(heap, buffer, *len, room, new, version, &mut answer);
    *len = store.len();
    match answer {
        None => {
            *fault = no_memory();
            fault.number
        }
        Some(Ok(id)) => {
            *made = id;
            *fault = no_fault();
            0
        }
        Some(Err(f)) => tell(fault, f),
    }
}

// Tells a fault, and its number.
pub(crate) fn tell(fault: &mut SheetFault, f: Fault) -> u32
    ensures number { result ≡ f.number }
    ensures fault { fault.new ≡ fault_as f }
{
    *fault = f.into();
    f.number
}

/// Adds a node to a list, in one transaction.
#[unsafe(no_mangle)]
pub extern "C" fn sheet_add(
    heap: Global,
    buffer: &mut [u8],
    len: &mut u64,
    room: usize,
    version: &[u8; 16],
    list: u32,
    id: u32,
    payload: &[u8],
    fault: &mut SheetFault,
) -> u32
    ensures number { result ≡ fault.new.number }
    ensures extends { (made : ℕ) × Extended room buffer.old len.old (plain list id payload.now) version.now buffer.new len.new fault.new 0 made }
{
    let new = NewAdd {
        list,
        id,
        payload,
        with: With::Nothing,
    };
    let mut made = 0;
    extend(heap, buffer, len, room, &new, version, &mut made, fault)
}

/// Adds a node with data of its own to a list, in one transaction.
#[unsafe(no_mangle)]
pub extern "C" fn sheet_add_data(
    heap: Global,
    buffer: &mut [u8],
    len: &mut u64,
    room: usize,
    version: &[u8; 16],
    list: u32,
    id: u32,
    payload: &[u8],
    content: &[u8],
    fault: &mut SheetFault,
) -> u32
    ensures number { result ≡ fault.new.number }
    ensures extends { (made : ℕ) × Extended room buffer.old len.old (with_data list id payload.now content.now) version.now buffer.new len.new fault.new 0 made }
{
    let new = NewAdd {
        list,
        id,
        payload,
        with: With::Data(content),
    };
    let mut made = 0;
    extend(heap, buffer, len, room, &new, version, &mut made, fault)
}

/// Adds a node that refers to a new list, and that list with a first node, in one transaction. Tells the new list's ID.
#[unsafe(no_mangle)]
pub extern "C" fn sheet_branch(
    heap: Global,
    buffer: &mut [u8],
    len: &mut u64,
    room: usize,
    version: &[u8; 16],
    list: u32,
    id: u32,
    payload: &[u8],
    first_id: u32,
    first_payload: &[u8],
    made: &mut u32,
    fault: &mut SheetFault,
) -> u32
    ensures number { result ≡ fault.new.number }
    ensures extends { Extended room buffer.old len.old (branch list id payload.now first_id first_payload.now) version.now buffer.new len.new fault.new made.old made.new }
{
    let new = NewAdd {
        list,
        id,
        payload,
        with: With::List {
            id: first_id,
            payload: first_payload,
        },
    };
    extend(heap, buffer, len, room, &new, version, made, fault)
}

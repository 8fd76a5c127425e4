//! Looks at a file in lent bytes. Each opens it anew.
ghost use Rattle.std.specs.Prelude.{◌≡◌, ◌++◌, map, length, take, drop};
ghost use Rattle.model.specs.Looks.{node_look, data_look};
ghost use Rattle.section.specs.Figures.{figures_of};
ghost use Rattle.section.specs.OpenAnswers.{opened_in};
ghost use Rattle.sheet_c.specs.Shapes.{figures_as, list_as, no_memory, no_fault};
ghost use Rattle.sheet_c.specs.Shows.{Unless_lacks, Tells, look_in, IsNode, with_lists, rows_in};
ghost use Rattle.sheet_c.specs.Opening.{Opened};

use crate::extending::tell;
use crate::shapes::{
    SheetFault, SheetFigures, SheetList, SheetNode, figures_as, list_as, no_fault, no_memory,
    node_as,
};
use lent_store::lent::Lent;
use refusals::faults::OpenFault;
use section::access::Figures;
use section::files::File;
use section::space::Space;
use std::alloc::Global;
use tables::room::Row;

// Any mark will do: each file is opened once.
const MARK: u64 = 1;

// A file in lent bytes that was opened, and its figures.
#[derive(Drop)]
pub(crate) struct Seeing<'a> {
    file: File<Lent<'a>>,
    figures: Figures,
}

// Opens the file in lent bytes, unless memory is wanted.
fn open(heap: Global, bytes: &[u8], room: usize) -> Option<Result<Seeing<'_>, OpenFault>>
    ensures { Opened room bytes.now result }
{
    let Ok(space) = Space::new(heap, room) else {
        return None;
    };
    let mut file = File::new(Lent::new(bytes), space);
    match file.open(MARK) {
        Ok(figures) => Some(Ok(Seeing { file, figures })),
        Err(fault) => Some(Err(fault)),
    }
}

// Tells that memory is wanted.
fn tell_lack(fault: &mut SheetFault) -> u32
    ensures number { result ≡ fault.new.number }
    ensures fault { fault.new ≡ no_memory }
{
    *fault = no_memory();
    fault.number
}

// Tells that nothing was refused.
fn tell_none(fault: &mut SheetFault) -> u32
    ensures number { result ≡ fault.new.number }
    ensures fault { fault.new ≡ no_fault }
{
    *fault = no_fault();
    fault.number
}

// The lists of a file, as many as there is room for.
fn put_lists(rows: &[Row], out: &mut [SheetList])
    ensures { out.new ≡ with_lists rows.now out.old }
{
    let n = rows.len().min(out.len());
    for i in 0..n {
        out[i] = list_as(&rows[i]);
    }
}

/// Opens a file, and tells its figures.
#[unsafe(no_mangle)]
pub extern "C" fn sheet_open(
    heap: Global,
    bytes: &[u8],
    room: usize,
    figures: &mut SheetFigures,
    fault: &mut SheetFault,
) -> u32
    ensures number { result ≡ fault.new.number }
    ensures tells { Unless_lacks fault.new (figures.new ≡ figures.old) (Tells (opened_in room bytes.now) fault.new (λ s. figures.new ≡ figures_as (figures_of s)) (figures.new ≡ figures.old)) }
{
    match open(heap, bytes, room) {
        None => tell_lack(fault),
        Some(Err(f)) => tell(fault, f.into()),
        Some(Ok(seeing)) => {
            *figures = figures_as(seeing.figures);
            tell_none(fault)
        }
    }
}

/// The lists of a file in the order of opening, as many as the slice takes; and how many there are.
#[unsafe(no_mangle)]
pub extern "C" fn sheet_lists(
    heap: Global,
    bytes: &[u8],
    room: usize,
    lists: &mut [SheetList],
    number: &mut u64,
    fault: &mut SheetFault,
) -> u32
    ensures number { result ≡ fault.new.number }
    ensures tells { Unless_lacks fault.new ((lists.new ≡ lists.old) × (number.new ≡ number.old)) (Tells (opened_in room bytes.now) fault.new (λ s. (lists.new ≡ with_lists (rows_in s) lists.old) × (number.new ≡ length (rows_in s))) ((lists.new ≡ lists.old) × (number.new ≡ number.old))) }
{
    match open(heap, bytes, room) {
        None => tell_lack(fault),
        Some(Err(f)) => tell(fault, f.into()),
        Some(Ok(seeing)) => {
            let rows = seeing.file.lists();
            put_lists(rows, lists);
            *number = rows.len() as u64;
            tell_none(fault)
        }
    }
}

/// A node of a list, as it was when `k` transactions were finished; its payload goes to the buffer's front.
#[unsafe(no_mangle)]
pub extern "C" fn sheet_node(
    heap: Global,
    bytes: &[u8],
    room: usize,
    k: u64,
    list: u32,
    index: u64,
    payload: &mut [u8],
    node: &mut SheetNode,
    fault: &mut SheetFault,
) -> u32
    ensures number { result ≡ fault.new.number }
    ensures payload { Unless_lacks fault.new (payload.new ≡ payload.old) (payload.new ≡ (look_in room bytes.now (node_look k list index payload.old)).buffer) }
    ensures tells { Unless_lacks fault.new (node.new ≡ node.old) (Tells (look_in room bytes.now (node_look k list index payload.old)).answer fault.new (IsNode node.new) (node.new ≡ node.old)) }
{
    match open(heap, bytes, room) {
        None => tell_lack(fault),
        Some(Err(f)) => tell(fault, f.into()),
        Some(Ok(seeing)) => match seeing.file.node(k, list, index, payload) {
            Err(f) => tell(fault, f.into()),
            Ok(seen) => {
                *node = node_as(seen, payload.len());
                tell_none(fault)
            }
        },
    }
}

/// `size` bytes of a node's data from `place` in it on; they go to the buffer's front.
#[unsafe(no_mangle)]
pub extern "C" fn sheet_data(
    heap: Global,
    bytes: &[u8],
    room: usize,
    k: u64,
    list: u32,
    index: u64,
    place: u64,
    size: u64,
    buffer: &mut [u8],
    fault: &mut SheetFault,
) -> u32
    ensures number { result ≡ fault.new.number }
    ensures buffer { Unless_lacks fault.new (buffer.new ≡ buffer.old) (buffer.new ≡ (look_in room bytes.now (data_look k list index place size buffer.old)).buffer) }
    ensures tells { Unless_lacks fault.new (buffer.new ≡ buffer.old) (Tells (look_in room bytes.now (data_look k list index place size buffer.old)).answer fault.new (λ s. Unit {0}) (Unit {0})) }
{
    match open(heap, bytes, room) {
        None => tell_lack(fault),
        Some(Err(f)) => tell(fault, f.into()),
        Some(Ok(seeing)) => match seeing.file.data(k, list, index, place, size, buffer) {
            Err(f) => tell(fault, f.into()),
            Ok(()) => tell_none(fault),
        },
    }
}

//! What crosses to C.
ghost use Rattle.std.specs.Prelude.{◌≡◌};
ghost use Rattle.sheet_c.specs.Shapes.{fault_as, figures_as, list_as, node_as, no_fault, no_memory};

use looks::seen::NodeSeen;
use model::types::Fault;
use section::access::Figures;
use tables::room::Row;

/// Why a call was refused: 0 if it was not, 101 for want of memory, else the number of a refusal, with its layer, list and place.
#[repr(C)]
#[derive(Clone, Copy, PartialEq, Eq, Debug)]
pub struct SheetFault {
    pub number: u32,
    pub layer: u32,
    pub list: u32,
    pub place: u64,
}

/// The figures of an opened file.
#[repr(C)]
#[derive(Clone, Copy, PartialEq, Eq, Debug)]
pub struct SheetFigures {
    pub count: u32,
    pub end: u64,
    pub lists: u64,
    pub fragments: u64,
    pub percent: u64,
}

/// A list: its ID, and how many nodes and fragments it has.
#[repr(C)]
#[derive(Clone, Copy, PartialEq, Eq, Debug)]
pub struct SheetList {
    pub id: u32,
    pub nodes: u32,
    pub fragments: u64,
}

/// A node: its ID, its BaseType, its reference, where `refers` says that it has one, and how many bytes its payload has.
#[repr(C)]
#[derive(Clone, Copy, PartialEq, Eq, Debug)]
pub struct SheetNode {
    pub id: u32,
    pub base: u32,
    pub refers: bool,
    pub start: u64,
    pub size: u64,
    pub payload: u64,
}

/// What a refusal tells.
impl From<Fault> for SheetFault {
    ghost from_gives = { λ f r. r ≡ fault_as f };

    fn from(f: Fault) -> SheetFault {
        SheetFault {
            number: f.number,
            layer: f.layer,
            list: f.list,
            place: f.place,
        }
    }
}

// Nothing was refused.
pub(crate) fn no_fault() -> SheetFault
    ensures { result ≡ no_fault }
{
    SheetFault {
        number: 0,
        layer: 0,
        list: 0,
        place: 0,
    }
}

// Memory is wanted: no rule of the format.
pub(crate) fn no_memory() -> SheetFault
    ensures { result ≡ no_memory }
{
    SheetFault {
        number: 101,
        layer: 0,
        list: 0,
        place: 0,
    }
}

pub(crate) fn figures_as(f: Figures) -> SheetFigures
    ensures { result ≡ figures_as f }
{
    SheetFigures {
        count: f.count,
        end: f.end,
        lists: f.lists as u64,
        fragments: f.fragments as u64,
        percent: f.percent,
    }
}

pub(crate) fn list_as(row: &Row) -> SheetList
    ensures { result ≡ list_as row.now }
{
    SheetList {
        id: row.id,
        nodes: row.nodes,
        fragments: row.fragments as u64,
    }
}

// A node, with a payload that is no longer than the buffer that it stands in.
pub(crate) fn node_as(n: NodeSeen, room: usize) -> SheetNode
    ensures { result ≡ node_as n room }
{
    let (refers, start, size) = match n.reference {
        Some(span) => (true, span.start, span.size),
        None => (false, 0, 0),
    };
    SheetNode {
        id: n.id,
        base: n.base,
        refers,
        start,
        size,
        payload: n.payload.min(room) as u64,
    }
}

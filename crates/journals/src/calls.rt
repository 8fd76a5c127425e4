//! Calls on a file as values, and the lines that answer them.
use adding::adds::NewAdd;
use looks::seen::NodeSeen;
use refusals::calls::{LookFault, SaveFault};
use refusals::faults::OpenFault;
use section::access::Figures;
use section::drafting::Draft;

/// A look at a file, with the buffer that it fills.
#[derive(Drop)]
pub enum Look<'a> {
    Node {
        k: u64,
        list: u32,
        index: u64,
        buffer: &'a mut [u8],
    },
    Data {
        k: u64,
        list: u32,
        index: u64,
        place: u64,
        size: u64,
        buffer: &'a mut [u8],
    },
    Alike {
        k: u64,
        list: u32,
        index: u64,
        other_list: u32,
        other_index: u64,
    },
}

/// What a look answers. Its buffer comes back.
#[derive(Drop)]
pub enum Seen<'a> {
    Node {
        node: Result<NodeSeen, LookFault>,
        buffer: &'a mut [u8],
    },
    /// The data is the buffer's front of this size.
    Data {
        size: u64,
        done: Result<(), LookFault>,
        buffer: &'a mut [u8],
    },
    Alike(Result<bool, LookFault>),
}

/// A call on a file. Add, commit and abandon take the draft in hand.
#[derive(Drop)]
pub enum Call<'a> {
    Open { mark: u64 },
    Begin,
    Add(NewAdd<'a>),
    Commit { guid: [u8; 16] },
    Abandon,
    Look(Look<'a>),
}

/// What a call answers.
#[derive(Drop)]
pub enum Line<'a> {
    Opened(Result<Figures, OpenFault>),
    /// The draft that was begun is in hand.
    Begun(Result<(), SaveFault>),
    Added(Result<Option<u32>, SaveFault>),
    /// Refused, the draft stays in hand.
    Committed(Result<(), SaveFault>),
    Abandoned(Result<(), SaveFault>),
    Saw(Seen<'a>),
    /// A begin with a draft in hand is not made, and changes nothing.
    HasDraft,
    /// Nor is an add, a commit or an abandon with none.
    NoDraft,
}

/// A line, and the draft that is in hand then.
pub struct Made<'a> {
    pub hand: Option<Draft>,
    pub line: Line<'a>,
}

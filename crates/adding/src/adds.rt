//! What is added.
ghost use Rattle.std.specs.Prelude.{◌≡◌};
ghost use Rattle.model.specs.Calls.{too_large, bad_id, bad_ids};
ghost use Rattle.adding.specs.Adds.{add_of};

use encoding::parts::{NODE_ROOM, PLAIN_BYTES, REFERRING_BYTES};
use node_walk::TERMINATOR;

// Data has at most so many bytes.
const MOST_DATA: usize = 65_536;

// The highest ID of a node.
const HIGHEST_ID: u32 = 0x3FF;

/// What a new node refers to, and what is added with it.
#[derive(Clone, Copy, Debug)]
pub enum With<'a> {
    Nothing,
    Data(&'a [u8]),
    /// A new list with a first node.
    List { id: u32, payload: &'a [u8] },
}

/// An add to a list: the new node's ID and payload, and what comes with it.
#[derive(Clone, Copy, Debug)]
pub struct NewAdd<'a> {
    pub list: u32,
    pub id: u32,
    pub payload: &'a [u8],
    pub with: With<'a>,
}

// Whether no node is written with this ID.
fn is_bad_id(id: u32) -> bool
    ensures { result ≡ bad_id id }
{
    id == 0 || id == TERMINATOR || id > HIGHEST_ID
}

impl NewAdd<'_> {
    /// Whether a node passes 988 bytes, or data is empty or passes 65,536.
    pub fn is_too_large(&self) -> bool
        ensures { result ≡ too_large (add_of self.now) }
    {
        let len = self.payload.len();
        match self.with {
            With::Nothing => len > NODE_ROOM - PLAIN_BYTES,
            With::Data(content) => {
                len > NODE_ROOM - REFERRING_BYTES || content.is_empty() || content.len() > MOST_DATA
            }
            With::List { payload, .. } => {
                len > NODE_ROOM - REFERRING_BYTES || payload.len() > NODE_ROOM - PLAIN_BYTES
            }
        }
    }

    /// Whether a node's ID is 0, that of a terminator, or over 0x3FF.
    pub fn has_bad_id(&self) -> bool
        ensures { result ≡ bad_ids (add_of self.now) }
    {
        match self.with {
            With::Nothing | With::Data(_) => is_bad_id(self.id),
            With::List { id, .. } => is_bad_id(self.id) || is_bad_id(id),
        }
    }
}

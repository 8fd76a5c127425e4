//! The space that a file works in, reserved at once: no call on a file wants memory.
ghost use Rattle.std.specs.Prelude.{◌≡◌, IfOk};

use drafts::layout::DraftLayout;
use encoding::buffer::WriteBuffer;
use std::alloc::{AllocError, Global};
use tables::room::Room;

/// The tables that opening fills, those of a draft, and the bytes of one write.
#[derive(Drop)]
pub struct Space {
    pub room: Room,
    pub draft: DraftLayout,
    pub buffer: WriteBuffer,
}

impl Space {
    /// Space for a file whose finished log counts lists at most `changes` times when it is opened.
    pub fn new(heap: Global, changes: usize) -> Result<Space, AllocError>
        ensures { IfOk result (λ s. s.room.counts.room ≡ changes) }
    {
        Ok(Space {
            room: Room::new(heap, changes)?,
            draft: DraftLayout::new(heap)?,
            buffer: WriteBuffer::new(heap)?,
        })
    }
}

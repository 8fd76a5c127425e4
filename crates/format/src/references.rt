//! References: a start and a size, read together.
ghost use Rattle.std.specs.Prelude.{◌≡◌, ◌+◌, ◌≤◌, nat_lt};
ghost use Rattle.model.specs.References.{span_at, absent, start_width, size_width};
ghost use Rattle.format.specs.Pairs.{reference_of};

use crate::fetching::bytes_at;
use crate::forms::{Form, number};
use model::types::Span;
use store::base::Store;

/// A reference of a fixed form at `place`: a start of 8 bytes, then a size of 4.
pub fn span_at<S: Store>(store: &S, place: u64) -> Span
    ensures { result ≡ span_at (S.Store.bytes store.now) place }
{
    let bytes: [u8; 12] = bytes_at(store, place);
    let (start, size) = bytes.split_at(8);
    Span {
        start: number(start),
        size: number(size),
    }
}

/// How many bytes a node's reference takes.
pub fn width(stp: u32, cb: u32) -> usize
    ensures value { result ≡ start_width stp + size_width cb }
    ensures bound { result ≤ 16 }
{
    Form::of_start(stp).width + Form::of_size(cb).width
}

/// The start and the size of a node's reference in these formats, if there are so many bytes; the promise is of the pair.
#[tactic(auto, using(crate::proofs::FormSteps::too_few, crate::proofs::FormSteps::pair_read))]
pub fn reference(bytes: &[u8], stp: u32, cb: u32) -> Option<(u64, u64)>
    ensures { result ≡ reference_of bytes.now stp cb }
{
    let start = Form::of_start(stp);
    let size = Form::of_size(cb);
    let (first, second) = bytes.get(..start.width + size.width)?.split_at(start.width);
    Some((start.read(first), size.read(second)))
}

/// Whether a reference refers to nothing: nil (a start of 2^64 - 1, a size of 0), or zero.
pub fn is_absent(span: Span) -> bool
    ensures { result ≡ absent span }
{
    span.size == 0 && (span.start == 0 || span.start == u64::MAX)
}

/// Whether `size` bytes from `place` on end past `end`; no sum is made, since it may pass 2^64.
pub fn ends_past(end: u64, place: u64, size: u64) -> bool
    ensures { result ≡ nat_lt end (place + size) }
{
    size > end || place > end - size
}

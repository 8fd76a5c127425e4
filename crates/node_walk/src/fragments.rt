//! A list's fragment that lies in its file.
ghost use Rattle.std.specs.Prelude.{◌≡◌, ◌+◌, ◌^◌, ◌≤◌};
ghost use Rattle.model.specs.ListFragments.{owner, nodes_from, nodes_to};

use crate::{nodes_from, nodes_to};
use format::fetching::number_at;
use model::types::Span;
use store::base::Store;

/// A list's fragment in its file: it holds both marks, its ID, its number and a next reference, and ends by 2^40, past which no file goes.
#[derive(Clone, Copy, PartialEq, Eq, Debug)]
pub struct ListFragment {
    pub span: Span,
    ghost least: { 36 ≤ span.size },
    ghost inside: { span.start + span.size ≤ 2 ^ 40 },
}

impl ListFragment {
    /// Where its nodes begin.
    pub fn nodes_from(self) -> u64
        ensures value { result ≡ nodes_from self.span }
        ensures bound { result ≤ 2 ^ 40 }
    {
        nodes_from(self.span)
    }

    /// Where they must end: there stands the next reference.
    pub fn nodes_to(self) -> u64
        ensures value { result ≡ nodes_to self.span }
        ensures bound { result + 20 ≤ 2 ^ 40 }
    {
        nodes_to(self.span)
    }

    /// The list that it belongs to.
    pub fn owner<S: Store>(self, store: &S) -> u32
        ensures { result ≡ owner (S.Store.bytes store.now) self.span }
    {
        number_at(store, self.span.start + 8)
    }
}

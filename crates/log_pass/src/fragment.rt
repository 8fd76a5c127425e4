//! A fragment of the log that lies in its file.
ghost use Rattle.std.specs.Prelude.{◌≡◌, ◌+◌, ◌^◌, ◌≤◌};
ghost use Rattle.model.specs.LogFragments.{entries_in, log_next};

use model::types::Span;

/// A fragment of the log in its file: it holds a next reference, and ends by 2^40, past which no file goes.
#[derive(Clone, Copy, PartialEq, Eq, Debug)]
pub(crate) struct LogFragment {
    pub span: Span,
    ghost least: { 12 ≤ span.size },
    ghost inside: { span.start + span.size ≤ 2 ^ 40 },
}

impl LogFragment {
    /// How many entries it holds.
    pub fn entries(self) -> u64
        ensures { result ≡ entries_in self.span.size }
    {
        (self.span.size - 12) / 8
    }

    /// Where its next reference stands: right behind its last whole entry.
    pub fn next_field(self) -> u64
        ensures { result ≡ log_next self.span }
    {
        self.span.start + 8 * self.entries()
    }
}

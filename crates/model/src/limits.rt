//! How much a file that is opened may hold.

/// At most so many fragments, the log's among them.
pub const MOST_FRAGMENTS: usize = 2048;

/// At most so many lists.
pub const MOST_LISTS: usize = 1024;

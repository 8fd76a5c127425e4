//! A header that was checked.
ghost use Rattle.std.specs.Prelude.{◌^◌, ◌≤◌};

use model::types::Header;

/// The fields of a header whose rules hold: the file is no longer than any may be, and a transaction is finished.
#[derive(Clone, Copy, PartialEq, Eq, Debug)]
pub struct CheckedHeader {
    pub header: Header,
    ghost short: { header.end ≤ 2 ^ 40 },
    ghost some: { 1 ≤ header.count },
}

//! The front of some bytes in hexadecimal.
ghost use Rattle.std.specs.Prelude.{◌≡◌, min, take, nat_lt};

use std::fmt;

/// How many bytes are shown.
pub(crate) const SHOWN: usize = 16;

/// The first of some bytes in lower-case hexadecimal, with `..` behind them where there are more; `-` where there are none.
#[derive(Clone, Copy)]
pub(crate) struct Front<'a> {
    bytes: &'a [u8],
    more: bool,
}

impl Front<'_> {
    /// The front of `size` bytes, of which these are the first.
    pub fn of(bytes: &[u8], size: u64) -> Front<'_>
        ensures bytes { result.bytes.now ≡ take (min size 16) bytes.now }
        ensures more { result.more ≡ nat_lt 16 size }
    {
        let shown = size.min(SHOWN as u64) as usize;
        Front {
            bytes: bytes.get(..shown).unwrap_or(bytes),
            more: size > SHOWN as u64,
        }
    }
}

impl fmt::Display for Front<'_> {
    fn fmt<W: fmt::Write>(&self, f: &mut fmt::Formatter<W>) -> fmt::Result {
        if self.bytes.is_empty() {
            return f.write_str("-");
        }
        for byte in self.bytes {
            write!(f, "{byte:02x}")?;
        }
        f.write_str(if self.more { ".." } else { "" })
    }
}

//! The letters that name files and drafts.
ghost use Rattle.std.specs.Prelude.{◌≡◌, ◌-◌, ◌<◌, ◌≤◌, ◌↔◌, IsSome, IfSome, Some, encode_utf8};

use std::fmt;

/// How many letters there are.
pub const LETTERS: usize = 26;

/// A letter from a to z. It has no ghost field, so that an array of what holds a letter can be taken apart.
#[derive(Clone, Copy, PartialEq, Eq, Debug)]
pub struct Letter {
    byte: u8,
}

impl Letter {
    /// The letter that a byte writes.
    pub fn of(byte: u8) -> Option<Letter>
        ensures letter { IsSome result ↔ ((97 ≤ byte) × (byte ≤ 122)) }
        ensures byte { IfSome result (λ l. l.byte ≡ byte) }
    {
        match byte {
            b'a'..=b'z' => Some(Letter { byte }),
            _ => None,
        }
    }

    /// Its place among the letters, from 0 on.
    pub fn place(self) -> usize
        ensures range { result < 26 }
        ensures place { 97 ≤ self.byte → self.byte ≤ 122 → result ≡ self.byte - 97 }
    {
        usize::from(self.byte.saturating_sub(b'a')).min(LETTERS - 1)
    }
}

impl fmt::Display for Letter {
    ghost output = { λ l. Some (encode_utf8 l.byte) };

    fn fmt<W: fmt::Write>(&self, f: &mut fmt::Formatter<W>) -> fmt::Result {
        f.write_char(char::from(self.byte))
    }
}

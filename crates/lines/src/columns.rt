//! Numbers in columns, and a line of them.
ghost use Rattle.std.specs.Prelude.{Some};
ghost use Rattle.lines.specs.Lines.{column_of, line};

use column::column;
use std::{fmt, str};

// A number in its column of 12; where it has more digits, a space and all of them.
#[derive(Clone, Copy)]
struct Column(u64);

impl fmt::Display for Column {
    ghost output = { λ c. Some (column_of c.0) };

    #[tactic(auto, using(crate::proofs::Digits::digits_printed), unfolding(crate::specs::Lines::column_of))]
    fn fmt<W: fmt::Write>(&self, f: &mut fmt::Formatter<W>) -> fmt::Result {
        let Some(bytes) = column(self.0) else {
            return write!(f, " {}", self.0);
        };
        let Ok(text) = str::from_utf8(&bytes) else {
            unreachable!();
        };
        f.write_str(text)
    }
}

/// Numbers, each in its column, and the line's end.
#[derive(Clone, Copy)]
pub struct Line<'a>(pub &'a [u64]);

impl fmt::Display for Line<'_> {
    ghost output = { λ l. Some (line l.0.now) };

    #[tactic(auto, unfolding(crate::specs::Lines::line))]
    fn fmt<W: fmt::Write>(&self, f: &mut fmt::Formatter<W>) -> fmt::Result {
        for n in self.0 {
            f.write(Column(*n))?;
        }
        f.write_str("\n")
    }
}

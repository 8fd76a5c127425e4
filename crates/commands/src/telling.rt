//! The commands that tell of a file.
use crate::Ended;
use crate::opening::{Opened, read};
use crate::troubles::Trouble;
use lines::Listing;
use section::access::Figures;
use states::State;
use states::additions::Additions;
use std::fmt;
use std::fs::{File, Files};
use std::io::{self, Write};

/// Tells the file's figures and its lists.
pub(crate) fn list<'a, R: Files<File = File> + AllocGlobal, W: Write>(
    rt: &R,
    path: &'a str,
    out: &mut W,
) -> Result<Ended, Trouble<'a>> {
    let Opened { file, figures } = read(rt, path)?;
    let listing = Listing::Opened {
        figures,
        lists: file.lists(),
    };
    write!(out, "{listing}")?;
    Ok(Ended::Done)
}

/// Tells the file as it was when `k` transactions were finished, or as it is.
pub(crate) fn show<'a, R: Files<File = File> + AllocGlobal, W: Write>(
    rt: &R,
    path: &'a str,
    k: Option<u64>,
    out: &mut W,
) -> Result<Ended, Trouble<'a>> {
    let Opened { file, figures } = read(rt, path)?;
    let k = k.unwrap_or(u64::from(figures.count));
    // a look at any list refuses a count that the file never had
    file.count_at(k, 0)?;
    let state = State { file: &file, k };
    write!(out, "{state}")?;
    Ok(Ended::Done)
}

/// Tells what each transaction added.
pub(crate) fn history<'a, R: Files<File = File> + AllocGlobal, W: Write>(
    rt: &R,
    path: &'a str,
    out: &mut W,
) -> Result<Ended, Trouble<'a>> {
    let Opened { file, figures } = read(rt, path)?;
    let additions = Additions {
        file: &file,
        count: figures.count,
    };
    write!(out, "{additions}")?;
    Ok(Ended::Done)
}

/// Tells whether the file is accepted, or why it is refused.
pub(crate) fn check<'a, R: Files<File = File> + AllocGlobal, W: Write>(
    rt: &R,
    path: &'a str,
    out: &mut W,
) -> Result<Ended, Trouble<'a>> {
    match read(rt, path) {
        Ok(Opened { file: _, figures }) => {
            writeln!(out, "{path}: accepted: {}", InWords(figures))?;
            Ok(Ended::Done)
        }
        Err(Trouble::Refused(refusal)) => {
            writeln!(out, "{path}: {refusal}")?;
            Ok(Ended::Failed)
        }
        Err(trouble) => Err(trouble),
    }
}

/// Tells how many transactions of a file are finished, after the disc did not take all of one.
pub(crate) fn stands<R: Files<File = File> + AllocGlobal, W: Write>(
    rt: &R,
    path: &str,
    err: &mut W,
) -> io::Result<()> {
    match read(rt, path) {
        Ok(Opened { file: _, figures }) => {
            let finished = Finished(figures.count);
            writeln!(err, "sheet: {path}: what stands: {finished}")
        }
        Err(trouble) => trouble.tell(path, err),
    }
}

/// How many transactions are finished, in words.
#[derive(Clone, Copy)]
pub(crate) struct Finished(pub(crate) u32);

impl fmt::Display for Finished {
    fn fmt<W: fmt::Write>(&self, f: &mut fmt::Formatter<W>) -> fmt::Result {
        let count = self.0;
        let word = if count == 1 {
            "transaction"
        } else {
            "transactions"
        };
        write!(f, "{count} {word} finished")
    }
}

// A file's figures in words.
#[derive(Clone, Copy)]
struct InWords(Figures);

impl fmt::Display for InWords {
    fn fmt<W: fmt::Write>(&self, f: &mut fmt::Formatter<W>) -> fmt::Result {
        let Figures {
            count,
            end,
            lists,
            fragments,
            percent,
        } = self.0;
        write!(
            f,
            "{}, {end} bytes, {lists} lists, {fragments} fragments, {percent} percent header and fragments",
            Finished(count)
        )
    }
}

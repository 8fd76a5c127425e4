//! Carries out scripts of actions on files, and tells what each did.
#![tactic(auto)]

use answers::{Done, Trouble};
use desk::Desk;
use script::actions::{Action, read};
use script::faults::LineFault;
use std::alloc::Global;
use std::io::{BufRead, Write};

mod answers;
mod calls;
mod desk;
mod files;
mod hand;
mod seen;
mod stores;

// A line has at most so many bytes.
const MOST_LINE: usize = 262_144;

/// Carries out a script, one action a line, and writes what each did, one line each.
pub fn carry_out<R: BufRead, W: Write>(
    heap: Global,
    script: &mut R,
    out: &mut W,
) -> anyhow::Result<()> {
    let mut desk = Desk::new(heap)?;
    // no `?` while the desk holds drafts
    let told = each_line(&mut desk, heap, script, out);
    let ended = desk.end(out);
    told?;
    ended?;
    Ok(())
}

fn each_line<R: BufRead, W: Write>(
    desk: &mut Desk,
    heap: Global,
    script: &mut R,
    out: &mut W,
) -> anyhow::Result<()> {
    let mut line = Vec::new(heap);
    for number in 1..u64::MAX {
        line.clear();
        if script.read_until(b'\n', &mut line)? == 0 {
            break;
        }
        match understood(heap, text_of(line.as_slice())) {
            Ok(None) => {}
            Ok(Some(action)) => tell(desk, number, action, out)?,
            Err(fault) => tell_fault(number, fault, out)?,
        }
    }
    Ok(())
}

// A line without its end.
fn text_of(line: &[u8]) -> &[u8] {
    line.strip_suffix(b"\n".as_slice()).unwrap_or(line)
}

fn understood(heap: Global, line: &[u8]) -> Result<Option<Action>, LineFault> {
    if line.len() > MOST_LINE {
        return Err(LineFault::Long);
    }
    read(heap, line)
}

// Carries out an action, and tells what it did.
fn tell<W: Write>(desk: &mut Desk, number: u64, action: Action, out: &mut W) -> anyhow::Result<()> {
    let (word, file) = (action.verb.word(), action.file);
    match desk.carry_out(action) {
        Ok(done) => writeln!(out, "{word} {file}: done{done}")?,
        Err(Trouble::Refused(fault)) => writeln!(out, "{word} {file}: refused {fault}")?,
        Err(Trouble::Line(fault)) => tell_fault(number, fault, out)?,
        Err(Trouble::Memory(error)) => return Err(error.into()),
    }
    Ok(())
}

// Tells why a line is not carried out. Want of memory ends the script.
fn tell_fault<W: Write>(number: u64, fault: LineFault, out: &mut W) -> anyhow::Result<()> {
    if fault == LineFault::Memory {
        return Err(fault.into());
    }
    writeln!(out, "line {number}: {fault}")?;
    Ok(())
}

//! The commands of the program on section files.
#![tactic(auto)]

use arguments::Command;
use std::fs::{File, Files};
use std::io::{self, Write};
use std::time::Clock;
use troubles::Trouble;

mod arguments;
mod opening;
mod saving;
mod telling;
mod transaction;
mod troubles;
mod versions;
mod words;

const USAGE: &str = "usage:
  sheet                            carry out a script from standard input
  sheet list FILE                  the file's figures and its lists
  sheet show FILE [K]              lists and nodes as they were when K transactions were finished, or as they are
  sheet history FILE               what each transaction added
  sheet check FILE                 whether the file is accepted, or the rule that it breaks
  sheet add FILE LIST ID PAYLOAD-FILE
                                   add a node to a list, as one transaction
  sheet data FILE LIST ID PAYLOAD-FILE DATA-FILE
                                   add a node with data
  sheet branch FILE LIST ID PAYLOAD-FILE FIRST-ID FIRST-PAYLOAD-FILE
                                   add a node that refers to a new list, and that list's first node
  sheet help                       this text
K, LIST, ID and FIRST-ID are numbers, decimal or hexadecimal behind 0x.
";

/// How the program ends.
#[derive(Clone, Copy, PartialEq, Eq, Debug)]
pub enum Ended {
    Done,
    /// A refusal, or an error of the system: it was told.
    Failed,
    /// The arguments name no command.
    Misused,
}

impl Ended {
    /// The program's status.
    pub fn status(self) -> u8 {
        match self {
            Ended::Done => 0,
            Ended::Failed => 1,
            Ended::Misused => 2,
        }
    }
}

/// Carries out the command that the arguments name. What it tells goes to `out`, and why it is not carried out to `err`.
pub fn run<R: Files<File = File> + AllocGlobal + Clock, W: Write, E: Write>(
    rt: &R,
    arguments: &[&str],
    out: &mut W,
    err: &mut E,
) -> Ended {
    let command = match Command::of(arguments) {
        Ok(command) => command,
        Err(misuse) => {
            // where nothing more can be told, the status does
            let _ = write!(err, "sheet: {misuse}\n{USAGE}");
            return Ended::Misused;
        }
    };
    match carry_out(rt, command, out) {
        Ok(ended) => ended,
        Err(trouble) => {
            let _ = tell(rt, command, &trouble, err);
            Ended::Failed
        }
    }
}

// Carries out a command, and writes all that it tells.
fn carry_out<'a, R: Files<File = File> + AllocGlobal + Clock, W: Write>(
    rt: &R,
    command: Command<'a>,
    out: &mut W,
) -> Result<Ended, Trouble<'a>> {
    let ended = told(rt, command, out)?;
    out.flush()?;
    Ok(ended)
}

fn told<'a, R: Files<File = File> + AllocGlobal + Clock, W: Write>(
    rt: &R,
    command: Command<'a>,
    out: &mut W,
) -> Result<Ended, Trouble<'a>> {
    match command {
        Command::Help => {
            write!(out, "{USAGE}")?;
            Ok(Ended::Done)
        }
        Command::List { file } => telling::list(rt, file, out),
        Command::Show { file, k } => telling::show(rt, file, k, out),
        Command::History { file } => telling::history(rt, file, out),
        Command::Check { file } => telling::check(rt, file, out),
        Command::Add(new) => saving::add(rt, new, out),
    }
}

// Tells why a command is not carried out, and what stands of a file that was to be saved.
fn tell<R: Files<File = File> + AllocGlobal + Clock, E: Write>(
    rt: &R,
    command: Command,
    trouble: &Trouble,
    err: &mut E,
) -> io::Result<()> {
    trouble.tell(command.file(), err)?;
    match (command, trouble) {
        (Command::Add(new), Trouble::Disc(_) | Trouble::Output(_)) => {
            telling::stands(rt, new.file, err)
        }
        _ => Ok(()),
    }
}

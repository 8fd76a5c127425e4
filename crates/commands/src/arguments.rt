//! What the arguments of the program say.
use std::fmt;

/// What the program is asked for. A file is named by its path.
#[derive(Clone, Copy, PartialEq, Eq, Debug)]
pub enum Command<'a> {
    Help,
    List { file: &'a str },
    /// At the newest count, unless one is named.
    Show { file: &'a str, k: Option<u64> },
    History { file: &'a str },
    Check { file: &'a str },
    Add(NewNode<'a>),
}

/// A node that is to be added to a list of a file, and where its payload stands.
#[derive(Clone, Copy, PartialEq, Eq, Debug)]
pub struct NewNode<'a> {
    pub file: &'a str,
    pub list: u32,
    pub id: u32,
    pub payload: &'a str,
    pub with: NewWith<'a>,
}

/// What is added with a node, and where its bytes stand.
#[derive(Clone, Copy, PartialEq, Eq, Debug)]
pub enum NewWith<'a> {
    Nothing,
    Data(&'a str),
    List { id: u32, payload: &'a str },
}

/// Why arguments say nothing.
#[derive(Clone, Copy, PartialEq, Eq, Debug)]
pub enum Misuse<'a> {
    /// No command has this name.
    Command(&'a str),
    /// This command takes other arguments.
    Arguments(&'a str),
    /// What stands for this number is none, or passes the most.
    Number {
        name: &'static str,
        word: &'a str,
        most: u64,
    },
}

impl fmt::Display for Misuse<'_> {
    fn fmt<W: fmt::Write>(&self, f: &mut fmt::Formatter<W>) -> fmt::Result {
        match self {
            Misuse::Command(word) => write!(f, "no command is named '{word}'"),
            Misuse::Arguments(command) => write!(f, "'{command}' takes other arguments"),
            Misuse::Number { name, word, most } => write!(
                f,
                "{name} is a number from 0 to {most}, decimal or hexadecimal behind 0x, and not '{word}'"
            ),
        }
    }
}

impl<'a> Command<'a> {
    /// The section file that it is about.
    pub fn file(&self) -> &'a str {
        match *self {
            Command::Help => "help",
            Command::List { file }
            | Command::Show { file, k: _ }
            | Command::History { file }
            | Command::Check { file } => file,
            Command::Add(new) => new.file,
        }
    }

    /// The command that these arguments name.
    pub fn of(arguments: &[&'a str]) -> Result<Command<'a>, Misuse<'a>> {
        match arguments {
            [] | ["help" | "--help" | "-h", ..] => Ok(Command::Help),
            ["list", file] => Ok(Command::List { file }),
            ["show", file] => Ok(Command::Show { file, k: None }),
            ["show", file, k] => Ok(Command::Show {
                file,
                k: Some(number("K", k)?),
            }),
            ["history", file] => Ok(Command::History { file }),
            ["check", file] => Ok(Command::Check { file }),
            ["add", file, list, id, payload] => {
                new_node(file, list, id, payload, NewWith::Nothing)
            }
            ["data", file, list, id, payload, content] => {
                new_node(file, list, id, payload, NewWith::Data(content))
            }
            ["branch", file, list, id, payload, first_id, first_payload] => {
                let first = NewWith::List {
                    id: short("FIRST-ID", first_id)?,
                    payload: first_payload,
                };
                new_node(file, list, id, payload, first)
            }
            [command, ..] => Err(misuse_of(command)),
        }
    }
}

// Why a command says nothing with its arguments.
fn misuse_of<'a>(command: &'a str) -> Misuse<'a> {
    match command {
        "list" | "show" | "history" | "check" | "add" | "data" | "branch" => {
            Misuse::Arguments(command)
        }
        _ => Misuse::Command(command),
    }
}

// A node that is to be added.
fn new_node<'a>(
    file: &'a str,
    list: &'a str,
    id: &'a str,
    payload: &'a str,
    with: NewWith<'a>,
) -> Result<Command<'a>, Misuse<'a>> {
    Ok(Command::Add(NewNode {
        file,
        list: short("LIST", list)?,
        id: short("ID", id)?,
        payload,
        with,
    }))
}

// A number of 32 bits.
fn short<'a>(name: &'static str, word: &'a str) -> Result<u32, Misuse<'a>> {
    match digits_of(word).and_then(|n| u32::try_from(n).ok()) {
        Some(n) => Ok(n),
        None => Err(Misuse::Number {
            name,
            word,
            most: u64::from(u32::MAX),
        }),
    }
}

// A number of 64 bits.
fn number<'a>(name: &'static str, word: &'a str) -> Result<u64, Misuse<'a>> {
    digits_of(word).ok_or(Misuse::Number {
        name,
        word,
        most: u64::MAX,
    })
}

// What digits write: decimal, or hexadecimal behind `0x`. No sign stands before them.
fn digits_of(word: &str) -> Option<u64> {
    if word.contains('+') {
        return None;
    }
    match word.strip_prefix("0x") {
        Some(digits) => u64::from_str_radix(digits, 16).ok(),
        None => word.parse().ok(),
    }
}

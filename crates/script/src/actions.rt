//! What a line says.
ghost use Rattle.std.specs.Prelude.{◌≡◌, take, length, IfOk, IfSome};
ghost use Rattle.script.specs.Kinds.{kind_word, adding_word, looking_word};
ghost use Rattle.script.specs.Texts.{adding_in, looking_in, kind_in, verb_word};

use crate::faults::LineFault;
use crate::letters::Letter;
use crate::words::Words;
use std::alloc::Global;

/// What an added node refers to, and what is added with it.
#[derive(Drop)]
pub enum NewWith {
    Nothing,
    Data(Vec<u8>),
    List { id: u32, payload: Vec<u8> },
}

/// A node that is added to a list, and what comes with it.
#[derive(Drop)]
pub struct NewNode {
    pub list: u32,
    pub id: u32,
    pub payload: Vec<u8>,
    pub with: NewWith,
}

/// A node that is looked at: a count, a list and an index.
#[derive(Clone, Copy, PartialEq, Eq, Debug)]
pub struct Place {
    pub k: u64,
    pub list: u32,
    pub index: u64,
}

/// What is to be done with a file.
#[derive(Drop)]
pub enum Verb {
    Flat {
        len: u64,
        bytes: Vec<u8>,
    },
    Card {
        len: u64,
        map: Vec<u32>,
        bytes: Vec<u8>,
    },
    Cover {
        blocks: u64,
    },
    Open {
        mark: u64,
    },
    Begin {
        draft: Letter,
    },
    Add {
        draft: Letter,
        new: NewNode,
    },
    Commit {
        draft: Letter,
        guid: [u8; 16],
    },
    Abandon {
        draft: Letter,
    },
    Look(Look),
}

/// What is looked at in a file.
#[derive(Clone, Copy, PartialEq, Eq, Debug)]
pub enum Look {
    Node {
        at: Place,
        room: u64,
    },
    Piece {
        at: Place,
        place: u64,
        size: u64,
        room: u64,
    },
    Alike {
        at: Place,
        list: u32,
        index: u64,
    },
    /// The length, the ceiling and the check of its bytes.
    Bytes,
    /// All its bytes.
    Dump,
    /// Its figures and its lists.
    List,
}

impl Verb {
    /// The word that begins the line of such an action.
    pub fn word(&self) -> &'static str
        ensures { result.now ≡ verb_word self.now }
    {
        match self {
            Verb::Flat { .. } => "flat",
            Verb::Card { .. } => "card",
            Verb::Cover { .. } => "cover",
            Verb::Open { .. } => "open",
            Verb::Begin { .. } => "begin",
            Verb::Add { new, .. } => new.with.word(),
            Verb::Commit { .. } => "commit",
            Verb::Abandon { .. } => "abandon",
            Verb::Look(look) => look.word(),
        }
    }
}

impl NewWith {
    // The word that begins the line of such an add.
    fn word(&self) -> &'static str
        ensures { result.now ≡ adding_word (adding_in self.now) }
    {
        match self {
            NewWith::Nothing => "add",
            NewWith::Data(_) => "data",
            NewWith::List { .. } => "branch",
        }
    }
}

impl Look {
    // The word that begins the line of such a look.
    fn word(&self) -> &'static str
        ensures { result.now ≡ looking_word (looking_in self.now) }
    {
        match self {
            Look::Node { .. } => "node",
            Look::Piece { .. } => "piece",
            Look::Alike { .. } => "alike",
            Look::Bytes => "bytes",
            Look::Dump => "dump",
            Look::List => "list",
        }
    }
}

/// A line: the file that it names, and what is to be done with it.
#[derive(Drop)]
pub struct Action {
    pub file: Letter,
    pub verb: Verb,
}

/// Reads a line. An empty one and a comment say nothing; any other begins with the word of its action.
pub fn read(heap: Global, line: &[u8]) -> Result<Option<Action>, LineFault>
    ensures { IfOk result (λ said. IfSome said (λ a. take (length (verb_word a.verb)) line.now ≡ verb_word a.verb)) }
{
    if line.is_empty() || line[0] == b'#' {
        return Ok(None);
    }
    let mut words = Words::of(line);
    let kind = kind_of(words.word()?).ok_or(LineFault::Action)?;
    let file = words.letter()?;
    let verb = verb_of(heap, kind, &mut words)?;
    words.end()?;
    Ok(Some(Action { file, verb }))
}

// What a first word names.
#[derive(Clone, Copy, PartialEq, Eq)]
enum Kind {
    Flat,
    Card,
    Cover,
    Adding(Adding),
    Calling(Calling),
    Looking(Looking),
}

// An add.
#[derive(Clone, Copy, PartialEq, Eq)]
enum Adding {
    Plain,
    Data,
    Branch,
}

// Another call on a file.
#[derive(Clone, Copy, PartialEq, Eq)]
enum Calling {
    Open,
    Begin,
    Commit,
    Abandon,
}

// A look.
#[derive(Clone, Copy, PartialEq, Eq)]
enum Looking {
    Node,
    Piece,
    Alike,
    Bytes,
    Dump,
    List,
}

fn kind_of(word: &[u8]) -> Option<Kind>
    ensures { IfSome result (λ k. word.now ≡ kind_word k) }
{
    match word {
        b"flat" => Some(Kind::Flat),
        b"card" => Some(Kind::Card),
        b"cover" => Some(Kind::Cover),
        b"open" => Some(Kind::Calling(Calling::Open)),
        b"begin" => Some(Kind::Calling(Calling::Begin)),
        b"add" => Some(Kind::Adding(Adding::Plain)),
        b"data" => Some(Kind::Adding(Adding::Data)),
        b"branch" => Some(Kind::Adding(Adding::Branch)),
        b"commit" => Some(Kind::Calling(Calling::Commit)),
        b"abandon" => Some(Kind::Calling(Calling::Abandon)),
        b"node" => Some(Kind::Looking(Looking::Node)),
        b"piece" => Some(Kind::Looking(Looking::Piece)),
        b"alike" => Some(Kind::Looking(Looking::Alike)),
        b"bytes" => Some(Kind::Looking(Looking::Bytes)),
        b"dump" => Some(Kind::Looking(Looking::Dump)),
        b"list" => Some(Kind::Looking(Looking::List)),
        _ => None,
    }
}

// The words behind the file's letter.
fn verb_of(heap: Global, kind: Kind, words: &mut Words) -> Result<Verb, LineFault>
    ensures { IfOk result (λ v. kind_in v ≡ kind) }
{
    match kind {
        Kind::Flat => Ok(Verb::Flat {
            len: words.number()?,
            bytes: words.bytes(heap)?,
        }),
        Kind::Card => Ok(Verb::Card {
            len: words.number()?,
            map: words.numbers(heap)?,
            bytes: words.bytes(heap)?,
        }),
        Kind::Cover => Ok(Verb::Cover {
            blocks: words.number()?,
        }),
        Kind::Adding(kind) => add_of(heap, kind, words),
        Kind::Calling(kind) => call_of(kind, words),
        Kind::Looking(kind) => Ok(Verb::Look(look_of(kind, words)?)),
    }
}

fn call_of(kind: Calling, words: &mut Words) -> Result<Verb, LineFault>
    ensures { IfOk result (λ v. kind_in v ≡ Kind.Calling kind) }
{
    match kind {
        Calling::Open => Ok(Verb::Open {
            mark: words.number()?,
        }),
        Calling::Begin => Ok(Verb::Begin {
            draft: words.letter()?,
        }),
        Calling::Commit => Ok(Verb::Commit {
            draft: words.letter()?,
            guid: words.guid()?,
        }),
        Calling::Abandon => Ok(Verb::Abandon {
            draft: words.letter()?,
        }),
    }
}

fn add_of(heap: Global, kind: Adding, words: &mut Words) -> Result<Verb, LineFault>
    ensures { IfOk result (λ v. kind_in v ≡ Kind.Adding kind) }
{
    let draft = words.letter()?;
    let list = words.short()?;
    let id = words.short()?;
    let payload = words.bytes(heap)?;
    let new = NewNode {
        list,
        id,
        payload,
        with: with_of(heap, kind, words)?,
    };
    Ok(Verb::Add { draft, new })
}

fn with_of(heap: Global, kind: Adding, words: &mut Words) -> Result<NewWith, LineFault>
    ensures { IfOk result (λ w. adding_in w ≡ kind) }
{
    match kind {
        Adding::Plain => Ok(NewWith::Nothing),
        Adding::Data => Ok(NewWith::Data(words.bytes(heap)?)),
        Adding::Branch => Ok(NewWith::List {
            id: words.short()?,
            payload: words.bytes(heap)?,
        }),
    }
}

fn look_of(kind: Looking, words: &mut Words) -> Result<Look, LineFault>
    ensures { IfOk result (λ l. looking_in l ≡ kind) }
{
    match kind {
        Looking::Node => Ok(Look::Node {
            at: place_of(words)?,
            room: words.number()?,
        }),
        Looking::Piece => Ok(Look::Piece {
            at: place_of(words)?,
            place: words.number()?,
            size: words.number()?,
            room: words.number()?,
        }),
        Looking::Alike => Ok(Look::Alike {
            at: place_of(words)?,
            list: words.short()?,
            index: words.number()?,
        }),
        Looking::Bytes => Ok(Look::Bytes),
        Looking::Dump => Ok(Look::Dump),
        Looking::List => Ok(Look::List),
    }
}

fn place_of(words: &mut Words) -> Result<Place, LineFault> {
    Ok(Place {
        k: words.number()?,
        list: words.short()?,
        index: words.number()?,
    })
}

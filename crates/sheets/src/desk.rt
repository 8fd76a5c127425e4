//! The files and drafts of a script, and the actions on them.
use crate::answers::{Done, Trouble, told};
use crate::calls::{Asked, ask, ask_alone};
use crate::files::Files;
use crate::hand::{Hand, Held, Owner, put, take};
use crate::seen::seen;
use crate::stores::{AnyStore, card, flat};
use adding::adds::{NewAdd, With};
use journals::calls::{Call, Line};
use script::actions::{Action, NewNode, NewWith, Verb};
use script::faults::LineFault;
use script::letters::Letter;
use std::alloc::{AllocError, Global};
use std::io::{self, Write};

/// The files and drafts of a script.
pub(crate) struct Desk {
    heap: Global,
    files: Files,
    hand: Hand,
}

impl Desk {
    /// With no file and no draft.
    pub(crate) fn new(heap: Global) -> Result<Desk, AllocError> {
        let files = Files::new(heap)?;
        Ok(Desk {
            heap,
            files,
            hand: Hand::new(),
        })
    }

    /// Carries out an action.
    pub(crate) fn carry_out(&mut self, action: Action) -> Result<Done, Trouble> {
        let Action { file, verb } = action;
        match verb {
            Verb::Flat { len, bytes } => self.make(file, flat(bytes, len)),
            Verb::Card { len, map, bytes } => self.make(file, card(bytes, map, len)),
            Verb::Cover { blocks } => {
                self.files.cover(file, blocks)?;
                Ok(Done::Nothing)
            }
            Verb::Open { mark } => {
                told(ask_alone(self.heap, self.files.get(file)?, Call::Open { mark })?)
            }
            Verb::Begin { draft } => self.begin(file, draft),
            Verb::Add { draft, new } => told(self.ask(file, draft, Call::Add(new_add(&new)))?),
            Verb::Commit { draft, guid } => told(self.ask(file, draft, Call::Commit { guid })?),
            Verb::Abandon { draft } => told(self.ask(file, draft, Call::Abandon)?),
            Verb::Look(look) => seen(self.heap, self.files.get(file)?, look),
        }
    }

    // A file over a store, unless there is one with this letter.
    fn make(&mut self, file: Letter, store: Result<AnyStore, Trouble>) -> Result<Done, Trouble> {
        if self.files.has(file) {
            return Err(LineFault::FileTaken.into());
        }
        self.files.put(file, store?)?;
        Ok(Done::Nothing)
    }

    // Makes a call on a file, with the draft that a letter has; one that it begins has the letter then.
    fn ask<'a>(
        &mut self,
        file: Letter,
        letter: Letter,
        call: Call<'a>,
    ) -> Result<Line<'a>, Trouble> {
        let sheet = self.files.get(file)?;
        let place = self.hand.place(letter);
        let (owner, hand) = take(place, Owner { file, letter });
        let Asked { hand, line } = ask(self.heap, sheet, hand, call);
        put(place, owner, hand);
        Ok(line?)
    }

    fn begin(&mut self, file: Letter, letter: Letter) -> Result<Done, Trouble> {
        let line = self.ask(file, letter, Call::Begin)?;
        told(line)?;
        match self.hand.place(letter) {
            Some(Held { owner: _, draft }) => Ok(Done::Begun {
                mark: draft.mark(),
                number: draft.number(),
            }),
            None => Err(LineFault::NoDraft.into()),
        }
    }

    /// Abandons the drafts that are still in hand, each on its file, and tells so.
    pub(crate) fn end<W: Write>(self, out: &mut W) -> io::Result<()> {
        let Desk {
            heap: _,
            mut files,
            hand,
        } = self;
        hand.end(&mut files, out)
    }
}

// What is added, as a file takes it.
fn new_add(new: &NewNode) -> NewAdd<'_> {
    let with = match &new.with {
        NewWith::Nothing => With::Nothing,
        NewWith::Data(content) => With::Data(content.as_slice()),
        NewWith::List { id, payload } => With::List {
            id: *id,
            payload: payload.as_slice(),
        },
    };
    NewAdd {
        list: new.list,
        id: new.id,
        payload: new.payload.as_slice(),
        with,
    }
}

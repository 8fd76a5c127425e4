//! One add as a transaction, by the calls of a journal.
ghost use Rattle.std.specs.Prelude.{[], ◌∷◌, None, IfOk};
ghost use Rattle.journals.specs.Running.{Runs};
ghost use Rattle.journals.specs.declared.calls.Call.TheVariants.{Begin, Add, Commit, Abandon};

use adding::adds::NewAdd;
use journals::calls::{Call, Line};
use journals::runs::run;
use refusals::calls::SaveFault;
use section::drafting::Draft;
use section::files::File;
use std::alloc::{AllocError, Global};
use store::base::SavingStore;

// The lines that answered some calls, and the draft that is in hand then.
struct Answered<'a> {
    lines: Vec<Line<'a>>,
    hand: Option<Draft>,
}

/// Adds a node, and what comes with it, as one transaction. The ID of a list that was made comes back.
pub(crate) fn add<S: SavingStore>(
    heap: Global,
    file: &mut File<S>,
    node: NewAdd,
    version: [u8; 16],
) -> Result<Result<Option<u32>, SaveFault>, AllocError> {
    let Answered { lines, hand } = called(heap, file, node, version)?;
    let_go(file, hand);
    Ok(answer(lines))
}

// Begins a draft, adds a node and commits. The abandon lets go of a draft whose commit is refused; after a commit there is none, and it is not made.
fn called<'a, S: SavingStore>(
    heap: Global,
    file: &mut File<S>,
    node: NewAdd<'a>,
    version: [u8; 16],
) -> Result<Answered<'a>, AllocError>
    ensures { IfOk result (λ a. Runs S.Store.bytes S.Store.most S.SavingStore.wrote file.old None (Begin ∷ (Add node.entry ∷ (Commit version ∷ (Abandon ∷ [])))) [] file.new a.lines.items a.hand) }
{
    let mut calls = Vec::new(heap);
    calls.push(Call::Begin)?;
    calls.push(Call::Add(node))?;
    calls.push(Call::Commit { guid: version })?;
    calls.push(Call::Abandon)?;
    let mut lines = Vec::with_capacity(heap, calls.len())?;
    match run(file, None, calls, &mut lines) {
        Ok(hand) => Ok(Answered { lines, hand }),
        Err(_) => unreachable!(),
    }
}

// The end of a draft that is in hand: it may not be let go but by a file.
fn let_go<S: SavingStore>(file: &mut File<S>, hand: Option<Draft>) {
    match hand {
        None => {}
        Some(draft) => {
            let _ = file.abandon(draft);
        }
    }
}

// What the lines tell: the list that was made, or the first refusal.
fn answer(lines: Vec<Line>) -> Result<Option<u32>, SaveFault> {
    let mut made = None;
    for line in lines {
        match line {
            Line::Begun(done) => done?,
            Line::Added(done) => made = done?,
            Line::Committed(done) => done?,
            _ => {}
        }
    }
    Ok(made)
}

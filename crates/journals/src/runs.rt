//! Calls on a file, made in order.
ghost use Rattle.std.specs.Prelude.{◌≡◌, ◌+◌, ◌≤◌, None, IfOk, IsOk, IfErr, ◌↔◌, vec_len, vec_capacity};
ghost use Rattle.std.specs.List.{AllByRecursion};
ghost use Rattle.journals.specs.Running.{Runs, RunsNew};
ghost use Rattle.journals.specs.Telling.{NeedsNoDraft};

use crate::calls::{Call, Line, Made};
use crate::making::make;
use section::drafting::Draft;
use section::files::File;
use section::space::Space;
use store::base::SavingStore;

/// The lines lack room for one for each call: none was made, and the calls and the draft come back.
pub struct NoRoom<'a> {
    pub hand: Option<Draft>,
    pub calls: Vec<Call<'a>>,
}

/// Makes the calls in order, with the draft in hand, and answers a line to each, behind the lines that are there. What is then in hand comes back.
/// The calls and lines are those of the rules, from the state that the file stands for to the one that it stands for afterwards; but for an opening that is refused for want of room.
#[tactic(auto, using(crate::proofs::Steps::going_first))]
pub fn run<'a, S: SavingStore>(
    file: &mut File<S>,
    hand: Option<Draft>,
    calls: Vec<Call<'a>>,
    lines: &mut Vec<Line<'a>>,
) -> Result<Option<Draft>, NoRoom<'a>>
    ensures room { IsOk result ↔ (vec_len lines.old + vec_len calls.entry ≤ vec_capacity lines.old) }
    ensures each { IfOk result (λ left. vec_len lines.new ≡ vec_len lines.old + vec_len calls.entry) }
    ensures runs { IfOk result (λ left. Runs S.Store.bytes S.Store.most S.SavingStore.wrote file.old hand calls.entry.items lines.old.items file.new lines.new.items left) }
    ensures hand { IfOk result (λ left. AllByRecursion NeedsNoDraft calls.entry.items → left ≡ hand) }
    ensures lacks { IfErr result (λ back. (file.new ≡ file.old) × (lines.new.items ≡ lines.old.items) × (back.hand ≡ hand) × (back.calls.items ≡ calls.entry.items)) }
{
    if lines.capacity() - lines.len() < calls.len() {
        return Err(NoRoom { hand, calls });
    }
    let mut held = hand;
    for call in calls {
        let Made { hand, line } = make(file, held, call);
        held = hand;
        lines.push_reserved(line);
    }
    Ok(held)
}

/// Makes a file over a store, and then the calls on it, in order. Every file that comes about so stands for a state of the rules:
/// it is shut, with its store as it was, or one of the calls opened it, and those behind that are a journal.
pub fn run_new<'a, S: SavingStore>(
    store: S,
    space: Space,
    calls: Vec<Call<'a>>,
    lines: &mut Vec<Line<'a>>,
) -> (File<S>, Result<Option<Draft>, NoRoom<'a>>)
    ensures room { IsOk result.1 ↔ (vec_len lines.old + vec_len calls.entry ≤ vec_capacity lines.old) }
    ensures runs { IfOk result.1 (λ left. RunsNew S.Store.bytes S.Store.most S.SavingStore.wrote store calls.entry.items lines.old.items result.0 lines.new.items left) }
    ensures lacks { IfErr result.1 (λ back. (result.0.store ≡ store) × (lines.new.items ≡ lines.old.items) × (back.hand ≡ None) × (back.calls.items ≡ calls.entry.items)) }
{
    let mut file = File::new(store, space);
    let left = run(&mut file, None, calls, lines);
    (file, left)
}

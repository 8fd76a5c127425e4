//! One call on a file, with the draft in hand.
ghost use Rattle.journals.specs.declared.calls.Call.TheVariants.{Open, Begin, Add, Commit, Abandon};
ghost use Rattle.std.specs.Prelude.{◌≡◌, None, length};
ghost use Rattle.model.specs.Bytes.{Bytes};
ghost use Rattle.journals.specs.declared.calls.Line.TheVariants.{NoDraft};
ghost use Rattle.journals.specs.Making.{Makes, Shows};
ghost use Rattle.journals.specs.Telling.{NeedsNoDraft};

use crate::calls::{Call, Line, Look, Made, Seen};
use adding::adds::NewAdd;
use section::bytes::{adds_bytes, are_bytes};
use section::drafting::{Added, Draft, NotCommitted};
use section::files::File;
use store::base::{SavingStore, Store};

/// Makes one call, if what is in hand allows it.
pub fn make<'a, S: SavingStore>(file: &mut File<S>, hand: Option<Draft>, call: Call<'a>) -> Made<'a>
    ensures makes { Makes S.Store.bytes S.Store.most S.SavingStore.wrote file.old hand call.entry file.new result.line result.hand }
    ensures hand { NeedsNoDraft call.entry → result.hand ≡ hand }
{
    match call {
        Call::Open { mark } => open(file, hand, mark),
        Call::Begin => begin(file, hand),
        Call::Add(new) => add(file, hand, new),
        Call::Commit { guid } => commit(file, hand, guid),
        Call::Abandon => abandon(file, hand),
        Call::Look(at) => Made {
            hand,
            line: Line::Saw(look(file, at)),
        },
    }
}

// An opening; the draft in hand stays there.
#[tactic(auto, using(crate::proofs::Answered::open_leaves))]
fn open<'a, S: SavingStore>(file: &mut File<S>, hand: Option<Draft>, mark: u64) -> Made<'a>
    ensures makes { Makes S.Store.bytes S.Store.most S.SavingStore.wrote file.old hand (Open mark) file.new result.line result.hand }
    ensures hand { result.hand ≡ hand }
{
    Made {
        hand,
        line: Line::Opened(file.open(mark)),
    }
}

// A begin, unless a draft is in hand.
#[tactic(auto, using(crate::proofs::Answered::begun_leaves, crate::proofs::Answered::not_begun_leaves))]
fn begin<'a, S: SavingStore>(file: &mut File<S>, hand: Option<Draft>) -> Made<'a>
    ensures { Makes S.Store.bytes S.Store.most S.SavingStore.wrote file.old hand Begin file.new result.line result.hand }
{
    match hand {
        Some(draft) => Made {
            hand: Some(draft),
            line: Line::HasDraft,
        },
        None => match file.begin() {
            Ok(draft) => Made {
                hand: Some(draft),
                line: Line::Begun(Ok(())),
            },
            Err(fault) => Made {
                hand: None,
                line: Line::Begun(Err(fault)),
            },
        },
    }
}

// An add in the draft in hand, which stays there.
fn add<'a, S: SavingStore>(file: &mut File<S>, hand: Option<Draft>, new: NewAdd) -> Made<'a>
    ensures { Makes S.Store.bytes S.Store.most S.SavingStore.wrote file.old hand (Add new.entry) file.new result.line result.hand }
{
    let Some(draft) = hand else {
        return no_draft();
    };
    adds_bytes(&new);
    let Added { draft, done } = file.add(draft, &new);
    Made {
        hand: Some(draft),
        line: Line::Added(done),
    }
}

// The commit of the draft in hand; refused, it stays there.
#[tactic(auto, using(crate::proofs::Answered::committed_leaves, crate::proofs::Answered::not_committed_leaves))]
fn commit<'a, S: SavingStore>(file: &mut File<S>, hand: Option<Draft>, guid: [u8; 16]) -> Made<'a>
    ensures { Makes S.Store.bytes S.Store.most S.SavingStore.wrote file.old hand (Commit guid) file.new result.line result.hand }
{
    let Some(draft) = hand else {
        return no_draft();
    };
    is_version(&guid);
    match file.commit(draft, &guid) {
        Ok(()) => Made {
            hand: None,
            line: Line::Committed(Ok(())),
        },
        Err(NotCommitted { draft, fault }) => Made {
            hand: Some(draft),
            line: Line::Committed(Err(fault)),
        },
    }
}

// A version is 16 bytes.
fn is_version(guid: &[u8; 16])
    ensures bytes { Bytes guid.now }
    ensures length { length guid.now ≡ 16 }
{
    are_bytes(guid);
    let _guid = *guid;
}

// The end of the draft in hand, without a commit.
#[tactic(auto, using(crate::proofs::Answered::abandoned_leaves))]
fn abandon<'a, S: SavingStore>(file: &mut File<S>, hand: Option<Draft>) -> Made<'a>
    ensures { Makes S.Store.bytes S.Store.most S.SavingStore.wrote file.old hand Abandon file.new result.line result.hand }
{
    let Some(draft) = hand else {
        return no_draft();
    };
    Made {
        hand: None,
        line: Line::Abandoned(file.abandon(draft)),
    }
}

// No call was made, for want of a draft.
fn no_draft<'a>() -> Made<'a>
    ensures hand { result.hand ≡ None }
    ensures line { result.line ≡ NoDraft }
{
    Made {
        hand: None,
        line: Line::NoDraft,
    }
}

/// A look at the file.
pub fn look<'a, S: Store>(file: &File<S>, at: Look<'a>) -> Seen<'a>
    ensures { Shows S.Store.bytes S.Store.most file.now at.entry result }
{
    match at {
        Look::Node {
            k,
            list,
            index,
            buffer,
        } => Seen::Node {
            node: file.node(k, list, index, buffer),
            buffer,
        },
        Look::Data {
            k,
            list,
            index,
            place,
            size,
            buffer,
        } => Seen::Data {
            size,
            done: file.data(k, list, index, place, size, buffer),
            buffer,
        },
        Look::Alike {
            k,
            list,
            index,
            other_list,
            other_index,
        } => Seen::Alike(file.alike(k, list, index, other_list, other_index)),
    }
}

//! Finished states last. Each law stands on the contract of a function that does nothing, so that its proof is asked for.
#![tactic(auto)]

ghost use Rattle.model.specs.Laws.{Local, FreeApart, DraftsWriteFree, WritesTaken, OpensSound, StepsSound, CutsSurvive};
ghost use Rattle.model.specs.Theorem.{FinishedStatesLast};
ghost use Rattle.lasting.specs.Uncommitted.{DraftsUnseen};
ghost use Rattle.lasting.specs.Unsynced.{UnsyncedHarmless};

// bytes that agree on the footprint of an accepted file, and reach its end, are the same file: opened alike, and looked at alike
pub fn same_footprint_same_file()
    ensures { Local }
{}

// no byte is both in the footprint and in the free zone
pub fn free_bytes_are_not_read()
    ensures { FreeApart }
{}

// every write of a draft, and every write of its commit but the header's, lies in the free zone
#[tactic(auto, using(crate::proofs::Drafts::drafts_write_free))]
pub fn drafts_write_where_nothing_is_finished()
    ensures { DraftsWriteFree }
{}

// an accepted opening gives a sound state
#[tactic(auto, using(crate::proofs::Opening::opens_sound))]
pub fn opening_gives_a_sound_state()
    ensures { OpensSound }
{}

// calls of which none commits, as those of a draft that is abandoned, leave every look as it was
pub fn drafts_are_not_seen_before_their_commit()
    ensures { DraftsUnseen }
{}

// every call keeps a sound state, and each look to a k up to its count
pub fn calls_keep_a_sound_state()
    ensures { StepsSound }
{}

// whatever a cut call leaves of a sound state is accepted, with the old count or one more
#[tactic(auto, using(crate::proofs::CutCalls::cuts_survive, commits::proofs::CommitReads::commit_reads, commits::proofs::LooksGrow::looks_grow))]
pub fn cut_calls_leave_an_accepted_file()
    ensures { CutsSurvive }
{}

// a disc that keeps of its unsynced writes what it likes, and is synced before each write of a header, holds the file as it was
#[tactic(auto, using(crate::proofs::Unsure::unsynced_harmless))]
pub fn unsynced_writes_are_harmless()
    ensures { UnsyncedHarmless }
{}

// a store takes every write of every call
#[tactic(auto, using(crate::proofs::Lasting::writes_taken, commits::proofs::CommitReads::commit_reads, commits::proofs::LooksGrow::looks_grow))]
pub fn stores_take_every_write()
    ensures { WritesTaken }
{}

/// In any journal each look back answers as when its count was reached; and wherever a write of the next call is cut, the file is accepted,
/// with the old count, or one more where a commit's header stood, and looks back answer as before.
pub fn finished_states_last()
    ensures { FinishedStatesLast }
{}

//! What a commit does to a section file: two statements of the model, on the contracts of functions that do nothing.
#![tactic(auto)]

ghost use Rattle.model.specs.Laws.{CommitReads, LooksGrow};
ghost use Rattle.commits.specs.Parts.{CommitLeaves};

// after a commit the file opens with the count one higher, and each list holds what it held and then the draft's nodes
#[tactic(auto, using(crate::proofs::CommitReads::commit_reads))]
pub fn commit_reads_as_draft()
    ensures { CommitReads }
{}

// over a commit each look to a count up to the old one answers as before
#[tactic(auto, using(crate::proofs::LooksGrow::looks_grow))]
pub fn looks_back_stand_over_commit()
    ensures { LooksGrow }
{}

/// What a commit leaves in the log and in the lists: the log's new end, each list's tail, where its nodes stand, and the highest ID known.
pub fn commit_leaves_lists_with_their_tails()
    ensures { CommitLeaves }
{}

//! What an accepted file is, and what a refusal tells. Each law stands on the contract of a function that does nothing, so that its proof is asked for.
#![tactic(auto)]

ghost use Rattle.model.specs.Laws.{OpenedMeans, MeantOpens, RefusedBreaks};

/// A file is accepted exactly when its bytes hold a section, and what is opened is that section, its lists in the order in which they are named.
pub fn accepted_exactly_when_meant()
    ensures { OpenedMeans }
{}

/// Bytes that hold a section are accepted, whatever the order in which its lists are told.
#[tactic(auto, using(crate::proofs::MeantOpens::meant_opens))]
pub fn meant_files_open()
    ensures { MeantOpens }
{}

/// A file is refused exactly when it breaks a rule, and the refusal tells the first one broken, in the order of checks, and the place.
#[tactic(auto, using(crate::proofs::RefusedBreaks::refused_breaks))]
pub fn refusals_tell_the_first_broken_rule()
    ensures { RefusedBreaks }
{}

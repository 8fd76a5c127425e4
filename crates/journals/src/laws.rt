//! What the calls on a file are together. Each law stands on the contract of a function that does nothing, so that its proof is asked for.
ghost use Rattle.journals.specs.Running.{JournalOf, RunsBegin};

/// The calls made on a file since it was opened, with their answers, are a journal of the rules, which ends in the state that the file stands for.
pub fn calls_make_a_journal()
    ensures { JournalOf }
{}

/// The calls made on a file since it was made leave it shut, with its bytes as they were; or one of them opens it, and those behind that, with their answers,
/// are a journal of the rules over these bytes, which ends in the state that the file stands for.
pub fn an_accepted_opening_begins_a_journal()
    ensures { RunsBegin }
{}

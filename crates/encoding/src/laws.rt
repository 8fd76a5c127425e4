//! What is written is read back. Each law stands on the contract of a function that does nothing, so that its proof is asked for.
ghost use Rattle.encoding.specs.Reading.{NumbersRead, NumbersWritten, ReferencesRead, PlainNodesRead, ReferringNodesRead, EntriesRead};

/// A number that fits its width is read as it was written.
#[tactic(auto, using(crate::proofs::Back::numbers_read))]
pub fn numbers_read_back()
    ensures { NumbersRead }
{}

/// Bytes that are read as a number are written again as they were.
#[tactic(auto, using(crate::proofs::Back::numbers_written))]
pub fn numbers_write_back()
    ensures { NumbersWritten }
{}

/// A reference is read as it was written.
#[tactic(auto, using(crate::proofs::Back::references_read))]
pub fn references_read_back()
    ensures { ReferencesRead }
{}

/// A node that refers to nothing is read as it was written.
#[tactic(auto, using(crate::proofs::Back::plain_nodes_read))]
pub fn plain_nodes_read_back()
    ensures { PlainNodesRead }
{}

/// A node that refers to data or to a list is read as it was written.
#[tactic(auto, using(crate::proofs::Back::referring_nodes_read))]
pub fn referring_nodes_read_back()
    ensures { ReferringNodesRead }
{}

/// An entry of the log is read as it was written.
#[tactic(auto, using(crate::proofs::Back::entries_read))]
pub fn entries_read_back()
    ensures { EntriesRead }
{}

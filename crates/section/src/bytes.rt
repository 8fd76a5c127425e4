//! That what is added are bytes: the types say so, and these calls, which do nothing, tell it to the proofs above them.
ghost use Rattle.model.specs.Bytes.{Bytes};
ghost use Rattle.model.specs.Journal.{FitAdd};
ghost use Rattle.adding.specs.Adds.{add_of};

use adding::adds::{NewAdd, With};

/// What a slice holds are bytes.
pub fn are_bytes(bytes: &[u8])
    ensures { Bytes bytes.now }
{}

/// What is added are bytes: the payloads and the data.
pub fn adds_bytes(new: &NewAdd)
    ensures { FitAdd (add_of new.now) }
{
    are_bytes(new.payload);
    match new.with {
        With::Nothing => {}
        With::Data(content) => are_bytes(content),
        With::List { payload, .. } => are_bytes(payload),
    }
}

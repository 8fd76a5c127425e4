//! The words of refusals, and how one is printed.
ghost use Rattle.std.specs.Prelude.{◌≡◌, Some};
ghost use Rattle.model.specs.Words.{word_of, fault_text};

use crate::types::Fault;
use std::fmt;

/// The word of the refusal with this number. Refusals past these want room.
#[tactic(auto, unfolding(crate::specs::Words::word_of))]
pub fn word(number: u32) -> &'static str
    ensures { result.now ≡ word_of number }
{
    match number {
        0 => "none",
        1 => "short",
        2 => "strange",
        3 => "newer",
        4 => "bare",
        5 => "outside",
        6 => "sum",
        7 => "backward",
        8 => "fragment",
        9 => "node",
        10 => "unlisted",
        11 => "overlap",
        12 => "twice",
        13 => "full",
        14 => "busy",
        15 => "shut",
        16 => "foreign",
        17 => "no list",
        18 => "size",
        19 => "kind",
        20 => "wide",
        21 => "empty",
        22 => "same",
        23 => "last",
        24 => "ceiling",
        25 => "future",
        26 => "no node",
        27 => "range",
        28 => "map",
        29 => "cover",
        _ => "room",
    }
}

impl fmt::Display for Fault {
    ghost output = { λ f. Some (fault_text f) };

    fn fmt<W: fmt::Write>(&self, f: &mut fmt::Formatter<W>) -> fmt::Result {
        let Fault {
            number,
            layer,
            place,
            list,
        } = *self;
        let word = word(number);
        write!(f, "{number} {word} layer {layer} place {place} list {list}")
    }
}

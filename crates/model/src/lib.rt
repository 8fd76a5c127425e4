//! The definitions of a section file, in specs/, with the values that code shares with them; and two statements about the smallest good file,
//! on the contracts of functions that do nothing.
#![tactic(auto)]

pub mod limits;
pub mod marks;
pub mod types;
pub mod words;
pub mod worked;

ghost use Rattle.std.specs.Prelude.{◌≡◌};
ghost use Rattle.model.specs.Faults.{done};
ghost use Rattle.model.specs.Opened.{opened};
ghost use Rattle.model.specs.Means.{Means};
ghost use Rattle.model.specs.Examples.{small, small_section};

// opening computes what the small file holds
#[tactic(auto, using(crate::specs::Examples::small_opens))]
pub fn small_opens()
    ensures { opened small ≡ done small_section }
{}

// and so the relation has it
#[tactic(auto, using(crate::proofs::SmallMeant::small_means))]
pub fn small_means()
    ensures { Means small small_section }
{}

//! What a plan says of the writes in it.
ghost use Rattle.std.specs.Prelude.{◌≡◌, List, ◌++◌};
ghost use Rattle.model.specs.Bytes.{Write};
ghost use Rattle.disc_store.specs.Events.{Event, planned, taken};

/// The writes of a plan are those that it was made of, in their order: each once, and no others.
#[tactic(auto, using(crate::specs::EventsLemmas::taken_planned))]
pub fn a_plan_has_the_very_writes()
    ensures { (ws : List Write) → taken (planned ws) ≡ ws }
{}

/// The writes that were done of a plan which an error stopped are a front part of those that it was made of.
#[tactic(auto, using(crate::specs::EventsLemmas::taken_front))]
pub fn what_was_done_is_a_front_part()
    ensures { (ws : List Write) (did left : List Event) → planned ws ≡ did ++ left → ws ≡ taken did ++ taken left }
{}

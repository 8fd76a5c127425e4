//! What the room that a file is opened in changes: nothing where it suffices. Each law stands on the contract of a function that does nothing, so that its proof is asked for.
ghost use Rattle.section.specs.OpenAnswers.{RoomSuffices, RoomWants, RoomAccepts, RoomRefuses};

/// With room for the log's counts, opening answers what the rules say of the bytes.
#[tactic(auto, using(crate::proofs::RoomLaws::room_suffices))]
pub fn enough_room_changes_nothing()
    ensures { RoomSuffices }
{}

/// With less room, a file that its header does not refuse is refused for want of room.
#[tactic(auto, using(crate::proofs::RoomLaws::room_wants))]
pub fn too_little_room_is_told()
    ensures { RoomWants }
{}

/// Whatever the room, what is accepted is what the rules accept.
#[tactic(auto, using(crate::proofs::RoomLaws::room_accepts))]
pub fn what_is_accepted_holds_in_any_room()
    ensures { RoomAccepts }
{}

/// Whatever the room, what is refused, but for want of room, the rules refuse alike.
#[tactic(auto, using(crate::proofs::RoomLaws::room_refuses))]
pub fn what_is_refused_breaks_a_rule()
    ensures { RoomRefuses }
{}

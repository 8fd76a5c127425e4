//! Writes that a store takes, made one after the other, and the ends of the lists where they go.
#![tactic(auto)]

ghost use Rattle.std.specs.Prelude.{◌≡◌, List, [], ◌∷◌, length};
ghost use Rattle.model.specs.Bytes.{Write, put};
ghost use Rattle.model.specs.Laws.{Taken};

use store::base::SavingStore;

pub mod tails;

/// Makes a write that the store takes: then that write was made and no other, and those that were to follow it are still taken.
#[tactic(auto, using(crate::proofs::Trail::still_taken))]
pub fn put_at<S: SavingStore>(store: &mut S, place: u64, new: &[u8])
    ensures trail { (later : List Write) → Taken (length (S.Store.bytes store.old)) (S.Store.most store.old) (put place new.now ∷ later) → S.SavingStore.wrote store.old (put place new.now ∷ []) store.new }
    ensures later { (later : List Write) → Taken (length (S.Store.bytes store.old)) (S.Store.most store.old) (put place new.now ∷ later) → Taken (length (S.Store.bytes store.new)) (S.Store.most store.new) later }
{
    // taken, so never refused
    let _ = store.write(place, new);
}

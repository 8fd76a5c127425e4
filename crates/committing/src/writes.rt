//! One write, as it joins those before and behind it.
ghost use Rattle.std.specs.Prelude.{List, [], ◌∷◌};
ghost use Rattle.model.specs.Bytes.{put};
ghost use Rattle.committing.specs.Made.{Made};

use store::base::SavingStore;
use writing::put_at;

/// Makes a write that the store takes. Behind the last of several stands that none follows: `none` says that of any store.
pub fn make_write<S: SavingStore>(store: &mut S, place: u64, new: &[u8])
    ensures made { Made S.SavingStore.wrote S.Store.bytes S.Store.most store.old store.new (put place new.now ∷ []) }
    ensures none { S.SavingStore.wrote store.new [] store.new }
{
    put_at(store, place, new);
}

//! Any store without its first blocks.
#![tactic(auto)]

ghost use Rattle.std.specs.Prelude.{◌≡◌, ◌*◌, ◌≤◌, length, drop, MatchResult};
ghost use Rattle.std.proofs.Math.Path.{refl};
ghost use Rattle.std.proofs.Common.{subst, ◌∙◌, rules};
ghost use Rattle.model.specs.Bytes.{put, applied};
ghost use Rattle.model.specs.Faults.{fault};
ghost use Rattle.store.specs.Refusals.{told};
ghost use Rattle.store.specs.Rows.{Reads, Writes, if_done};
ghost use Rattle.cover_store.specs.Covers.{cut_most, shifted};
ghost use Rattle.cover_store.specs.CoverRows.{cut_within, shifted_joined};
ghost use Rattle.store.specs.RowsLemmas.{byte_drop, applied_more};

use store::base::{NotMade, SavingStore, Store, StoreFault, has_room};

#[derive(Drop)]
pub struct Cover<S> {
    inner: S,
    blocks: u64,
    ghost few: { blocks ≤ 8 },
}

impl<S: Store> Cover<S> {
    /// The store without its first 512 × `blocks` bytes, made exactly when there are at most 8 such blocks and the store has them.
    pub fn new(inner: S, blocks: u64) -> Result<Cover<S>, NotMade<S>>
        ensures { MatchResult result (λ v. (blocks ≤ 8) × (512 * blocks ≤ length (S.Store.bytes inner)) × (v.inner ≡ inner) × (v.blocks ≡ blocks)) (λ e. (blocks ≤ 8 → 512 * blocks ≤ length (S.Store.bytes inner) → ⊥) × (e.parts ≡ inner) × (told e.fault ≡ fault 29 6 0 0)) }
    {
        if blocks > 8 || inner.len() < 512 * blocks {
            return Err(NotMade {
                parts: inner,
                fault: StoreFault::Cover,
            });
        }
        Ok(Cover { inner, blocks })
    }
}

// How many bytes are left behind the first `skip`.
fn len_cut<S: Store>(inner: &S, skip: u64) -> u64
    ensures { result ≡ length (drop skip (S.Store.bytes inner.now)) }
{
    inner.len().saturating_sub(skip)
}

// Reads from what is left behind the first `skip` bytes. A read of nothing is done here, since the store may end before them.
#[tactic(auto, using(crate::specs::CoverRows::read_cut, store::specs::RowsLemmas::read_none))]
fn read_cut<S: Store>(
    inner: &S,
    skip: u64,
    place: u64,
    n: usize,
    buffer: &mut [u8],
) -> Result<(), StoreFault>
    requires { place ≤ length (drop skip (S.Store.bytes inner.now)) }
    ensures { Reads (drop skip (S.Store.bytes inner.now)) place n buffer.old buffer.new result }
{
    if n == 0 {
        return Ok(());
    }
    inner.read(skip + place, n, buffer)
}

// Writes into what is left behind the first `skip` bytes.
#[tactic(auto, using(crate::specs::CoverRows::wrote_cut, crate::specs::CoverRows::cut_within, crate::specs::CoverRows::most_cut, store::specs::RowsLemmas::written_none, store::specs::RowsLemmas::row_made), unfolding(model::specs::Bytes::applied))]
fn write_cut<S: SavingStore>(
    inner: &mut S,
    skip: u64,
    place: u64,
    new: &[u8],
) -> Result<(), StoreFault>
    requires { place ≤ length (drop skip (S.Store.bytes inner.old)) }
    ensures row { Writes (drop skip (S.Store.bytes inner.old)) (cut_most (S.Store.bytes inner.old) (S.Store.most inner.old) skip) place new.now (drop skip (S.Store.bytes inner.new)) result }
    ensures ceiling { cut_most (S.Store.bytes inner.new) (S.Store.most inner.new) skip ≡ cut_most (S.Store.bytes inner.old) (S.Store.most inner.old) skip }
    ensures trail { S.SavingStore.wrote inner.old (shifted skip (if_done result (put place new.now))) inner.new }
    ensures after { drop skip (S.Store.bytes inner.new) ≡ applied (drop skip (S.Store.bytes inner.old)) (if_done result (put place new.now)) }
{
    if new.is_empty() {
        return Ok(());
    }
    inner.write(skip + place, new)
}

impl<S: Store> Store for Cover<S> {
    ghost bytes = { λ s. drop (512 * s.blocks) (S.Store.bytes s.inner) };

    ghost most = { λ s. cut_most (S.Store.bytes s.inner) (S.Store.most s.inner) (512 * s.blocks) };

    ghost within = { λ s. cut_within _ _ _ (S.Store.within s.inner) };

    ghost fits = { Prim.search rules };

    ghost byte = { λ s k. byte_drop _ _ k (S.Store.byte s.inner) };

    fn len(&self) -> u64 {
        len_cut(&self.inner, 512 * self.blocks)
    }

    fn ceiling(&self) -> u64 {
        if self.inner.len() < 512 * self.blocks {
            return 0;
        }
        self.inner.ceiling() - 512 * self.blocks
    }

    fn read(&self, place: u64, n: usize, buffer: &mut [u8]) -> Result<(), StoreFault> {
        let skip = 512 * self.blocks;
        if place > len_cut(&self.inner, skip) {
            return Err(StoreFault::Range);
        }
        read_cut(&self.inner, skip, place, n, buffer)
    }
}

impl<S: SavingStore> SavingStore for Cover<S> {
    ghost wrote = { λ s ws t. S.SavingStore.wrote s.inner (shifted (512 * s.blocks) ws) t.inner × (t.blocks ≡ s.blocks) × (drop (512 * t.blocks) (S.Store.bytes t.inner) ≡ applied (drop (512 * s.blocks) (S.Store.bytes s.inner)) ws) × (cut_most (S.Store.bytes t.inner) (S.Store.most t.inner) (512 * t.blocks) ≡ cut_most (S.Store.bytes s.inner) (S.Store.most s.inner) (512 * s.blocks)) };

    ghost none = { unfold applied in λ s. (S.SavingStore.none s.inner, refl, refl, refl) };

    ghost more = { λ s t u a b p q. (subst (λ ws. S.SavingStore.wrote s.inner ws u.inner) (shifted_joined _ _ a b p.1) (S.SavingStore.more _ _ _ _ _ p.0 q.0), q.1 ∙ p.1, applied_more _ _ _ a b p.2 q.2, q.3 ∙ p.3) };

    ghost stands = { λ s t a made. made.2 };

    ghost lasts = { λ s t a made. made.3 };

    fn write(&mut self, place: u64, new: &[u8]) -> Result<(), StoreFault> {
        if !has_room(self, place, new.len()) {
            return Err(StoreFault::Range);
        }
        write_cut(&mut self.inner, 512 * self.blocks, place, new)
    }
}

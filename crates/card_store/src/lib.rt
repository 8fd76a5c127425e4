//! 512-byte blocks of a buffer, in the order of a map.
#![tactic(auto)]

ghost use Rattle.std.specs.Prelude.{◌≡◌, ℕ, ◌+◌, ◌-◌, ◌*◌, ◌%◌, ◌<◌, ◌≤◌, min, ◌++◌, length, take, drop, vec_len, Decides, MatchResult, slice_index, refl};
ghost use Rattle.std.proofs.Common.{◌∙◌, ap, rules};
ghost use Rattle.model.specs.Bytes.{piece, written, applied};
ghost use Rattle.model.specs.Faults.{fault};
ghost use Rattle.store.specs.Refusals.{told};
ghost use Rattle.card_store.specs.Cards.{MapFits, Inside, Apart, card_row, spot};
ghost use Rattle.store.specs.RowsLemmas.{applied_more, byte_take};
ghost use Rattle.card_store.specs.CardLaws.{bytes_within, row_byte};

use store::base::{NotMade, SavingStore, Store, StoreFault, has_room};

// The buffer is lent whole: the blocks that the map leaves out, and the bytes behind the length, stay as they were lent.
#[derive(Drop)]
pub struct Card {
    buffer: Vec<u8>,
    blocks: Vec<u32>,
    len: usize,
    ghost some: { 1 ≤ length blocks.items },
    ghost few: { length blocks.items ≤ 128 },
    ghost inside: { Inside (vec_len buffer) blocks.items (length blocks.items) },
    ghost apart: { Apart blocks.items (length blocks.items) },
    ghost within: { len ≤ 512 * vec_len blocks },
    ghost byte: { (k : ℕ) → slice_index buffer.items k < 256 },
}

// Whether each block of a map is another one.
fn are_apart(blocks: &[u32]) -> bool
    ensures { Decides result (Apart blocks.now (length blocks.now)) }
{
    for (i, block) in blocks.iter().enumerate() {
        if blocks[..i].contains(block) {
            return false;
        }
    }
    true
}

// Whether a map is 1 to 128 different blocks of a buffer of this size.
fn map_fits(blocks: &[u32], size: usize) -> bool
    ensures { Decides result (MapFits size blocks.now) }
{
    !blocks.is_empty()
        && blocks.len() <= 128
        && blocks.iter().all(|block| (*block as usize) < size / 512)
        && are_apart(blocks)
}

// How many of `most` bytes at `k` of a row lie in its block.
fn in_block(k: usize, most: usize) -> usize
    ensures { result ≡ min (512 - k % 512) most }
{
    most.min(512 - k % 512)
}

impl Card {
    /// The first `len` bytes of the blocks in the order of the map, made exactly when the map fits the buffer and the length the map.
    pub fn new(
        buffer: Vec<u8>,
        blocks: Vec<u32>,
        len: u64,
    ) -> Result<Card, NotMade<(Vec<u8>, Vec<u32>)>>
        ensures { MatchResult result (λ d. MapFits (vec_len buffer) blocks.items × (len ≤ 512 * vec_len blocks) × (d.buffer ≡ buffer) × (d.blocks ≡ blocks) × (d.len ≡ len)) (λ e. (MapFits (vec_len buffer) blocks.items → len ≤ 512 * vec_len blocks → ⊥) × (e.parts.0 ≡ buffer) × (e.parts.1 ≡ blocks) × (told e.fault ≡ fault 28 6 0 0)) }
    {
        if !map_fits(blocks.as_slice(), buffer.len()) || len as usize > 512 * blocks.len() {
            return Err(NotMade {
                parts: (buffer, blocks),
                fault: StoreFault::Map,
            });
        }
        Ok(Card {
            buffer,
            blocks,
            len: len as usize,
        })
    }

    // Where byte `k` of the row lies in the buffer.
    fn spot_of(&self, k: usize) -> usize
        requires { k < 512 * vec_len self.now.blocks }
        ensures value { result ≡ spot self.now.blocks.items k }
        ensures bound { result < vec_len self.now.buffer }
    {
        512 * self.blocks[k / 512] as usize + k % 512
    }

    // The row's `n` bytes at `k`, which lie in one block.
    fn part(&self, k: usize, n: usize) -> &[u8]
        requires some { 0 < n }
        requires one { k % 512 + n ≤ 512 }
        requires within { k + n ≤ 512 * vec_len self.now.blocks }
        ensures bytes { result.now ≡ piece (card_row self.now.buffer.items self.now.blocks.items) k n }
        ensures len { length result.now ≡ n }
    {
        let at = self.spot_of(k);
        &self.buffer[at..at + n]
    }

    // Puts bytes at `k` of the row, all in one block.
    fn put_part(&mut self, k: usize, part: &[u8])
        requires some { 0 < length part.now }
        requires one { k % 512 + length part.now ≤ 512 }
        requires within { k + length part.now ≤ 512 * vec_len self.old.blocks }
        ensures row { card_row self.new.buffer.items self.new.blocks.items ≡ written (card_row self.old.buffer.items self.old.blocks.items) k part.now }
        ensures blocks { self.new.blocks ≡ self.old.blocks }
        ensures len { self.new.len ≡ self.old.len }
    {
        let at = self.spot_of(k);
        self.buffer[at..at + part.len()].copy_from_slice(part);
    }

    // How many bytes the row has: all that the length says.
    fn size(&self) -> usize
        ensures row { result ≡ length (take self.now.len (card_row self.now.buffer.items self.now.blocks.items)) }
        ensures stored { result ≡ self.now.len }
    {
        self.len
    }

    // Copies `n` bytes of the row at `p` to the front of `into`, block by block: the map is asked once a block.
    // The place is counted by hand, since the first and the last part may be shorter than a block.
    #[tactic(auto, unfolding(model::specs::Bytes::piece))]
    fn copy_out(&self, p: usize, n: usize, into: &mut [u8])
        requires row { p + n ≤ self.now.len }
        requires buffer { n ≤ length into.old }
        ensures { into.new ≡ piece (take self.now.len (card_row self.now.buffer.items self.now.blocks.items)) p n ++ drop n into.old }
    {
        // one byte is no part to be copied
        if n == 1 {
            into[0] = self.buffer[self.spot_of(p)];
            return;
        }
        let mut done = 0;
        while done < n {
            let k = p + done;
            let count = in_block(k, n - done);
            into[done..done + count].copy_from_slice(self.part(k, count));
            done += count;
        }
    }

    // Puts bytes at `p` of the row, block by block, and the end behind them where they pass it. Counted by hand, as in `copy_out`.
    #[tactic(auto, using(store::specs::RowsLemmas::written_none))]
    fn paste(&mut self, p: usize, new: &[u8])
        requires start { p ≤ self.old.len }
        requires end { p + length new.now ≤ 512 * vec_len self.old.blocks }
        ensures row { take self.new.len (card_row self.new.buffer.items self.new.blocks.items) ≡ written (take self.old.len (card_row self.old.buffer.items self.old.blocks.items)) p new.now }
        ensures blocks { self.new.blocks ≡ self.old.blocks }
    {
        let n = new.len();
        let mut done = 0;
        while done < n {
            let k = p + done;
            let count = in_block(k, n - done);
            self.put_part(k, &new[done..done + count]);
            done += count;
        }
        self.len = self.len.max(p + n);
    }
}

impl Store for Card {
    ghost bytes = { λ s. take s.len (card_row s.buffer.items s.blocks.items) };

    ghost most = { λ s. 512 * vec_len s.blocks };

    ghost within = { λ s. bytes_within s.buffer.items s.blocks.items s.len _ s.blocks.ok.0 };

    ghost fits = { Prim.search rules };

    ghost byte = { λ s k. byte_take _ _ k (λ i h. row_byte s.buffer.items s.blocks.items s.byte i) };

    fn len(&self) -> u64 {
        self.size() as u64
    }

    fn ceiling(&self) -> u64 {
        512 * self.blocks.len() as u64
    }

    fn read(&self, place: u64, n: usize, buffer: &mut [u8]) -> Result<(), StoreFault> {
        // As in `Flat`: a test over any store would call `len` through the trait inside its impl, which gets no proof.
        let p = place as usize;
        let len = self.size();
        if p > len || n > len - p || n > buffer.len() {
            return Err(StoreFault::Range);
        }
        self.copy_out(p, n, buffer);
        Ok(())
    }
}

impl SavingStore for Card {
    ghost wrote = { λ s ws t. (take t.len (card_row t.buffer.items t.blocks.items) ≡ applied (take s.len (card_row s.buffer.items s.blocks.items)) ws) × (t.blocks ≡ s.blocks) };

    ghost none = { unfold applied in λ s. (refl, refl) };

    ghost more = { λ s t u a b p q. (applied_more _ _ _ a b p.0 q.0, q.1 ∙ p.1) };

    ghost stands = { λ s t a made. made.0 };

    ghost lasts = { λ s t a made. ap (λ b. 512 * vec_len b) made.1 };

    #[tactic(auto, unfolding(model::specs::Bytes::applied))]
    fn write(&mut self, place: u64, new: &[u8]) -> Result<(), StoreFault> {
        if !has_room(self, place, new.len()) {
            return Err(StoreFault::Range);
        }
        self.paste(place as usize, new);
        Ok(())
    }
}

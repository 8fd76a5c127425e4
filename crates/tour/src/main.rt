//! A section laid out in three kinds of store, read back, opened and listed; and one refusal of each layer.
#![tactic(auto)]

use card_store::Card;
use cover_store::Cover;
use lines::listed;
use sample::{END, lay_out};
use section::files::File;
use section::space::Space;
use std::fmt;
use store::base::{SavingStore, Store};
use store::flat_store::Flat;

// Blocks of a card's buffer, in the order in which they are read.
const MAP: [u32; 10] = [7, 2, 13, 5, 11, 0, 15, 9, 4, 1];

// How many of its first bytes a listing is compared by.
const WHOLE: usize = END as usize;

// The first mark of the second list.
const BRANCH_MARK: u64 = 3072;

fn flat(rt: &HostRuntime, len: u64) -> anyhow::Result<Flat> {
    Ok(Flat::new(vec![in rt.alloc(); 0u8; 8192]?, len)?)
}

fn card(rt: &HostRuntime, len: u64) -> anyhow::Result<Card> {
    let blocks = MAP.to_vec(rt.alloc())?;
    Ok(Card::new(vec![in rt.alloc(); 0u8; 8192]?, blocks, len)?)
}

fn covered(rt: &HostRuntime) -> anyhow::Result<Cover<Card>> {
    Ok(Cover::new(card(rt, END + 512)?, 1)?)
}

// Lays the sample out, reads it back and lists it; answers the bytes and the listing.
fn shown<S: SavingStore + Drop>(
    rt: &HostRuntime,
    name: &str,
    mut store: S,
) -> anyhow::Result<(Vec<u8>, String)> {
    lay_out(&mut store)?;
    let mut bytes = vec![in rt.alloc(); 0u8; WHOLE]?;
    store.read(0, WHOLE, bytes.as_mut_slice())?;
    println!(rt; "{name}: laid out and read back, {WHOLE} bytes")?;
    let mut file = File::new(store, Space::new(rt.alloc(), 64)?);
    let text = listed(&mut file, 1).to_string(rt.alloc())?;
    println!(rt; "{name}: opened and listed")?;
    rt.print(text.as_str())?;
    tell(rt, "open again", file.open(2))?;
    Ok((bytes, text))
}

// Tells why an action was refused, if it was.
fn tell<T: Drop, E: fmt::Display + Drop>(
    rt: &HostRuntime,
    action: &str,
    done: Result<T, E>,
) -> anyhow::Result<()> {
    if let Err(refused) = done {
        println!(rt; "{action}: refused {refused}")?;
    }
    Ok(())
}

// Opens a flat store whose byte at `place` was changed, and tells the refusal.
fn damaged(rt: &HostRuntime, action: &str, place: u64) -> anyhow::Result<()> {
    let mut store = flat(rt, END)?;
    lay_out(&mut store)?;
    store.write(place, &[0xFF])?;
    let mut file = File::new(store, Space::new(rt.alloc(), 64)?);
    tell(rt, action, file.open(1))
}

// One refusal of each layer: header, log, lists, and stores.
fn refusals(rt: &HostRuntime) -> anyhow::Result<()> {
    damaged(rt, "open a file of another type", 0x00)?;
    damaged(rt, "open a file with a wrong sum", 2068)?;
    damaged(rt, "open a file with a wrong mark", BRANCH_MARK)?;
    let store = flat(rt, END)?;
    tell(rt, "read past the end", store.read(END, 1, &mut [0u8; 1]))?;
    let twice = Card::new(
        vec![in rt.alloc(); 0u8; 1024]?,
        vec![in rt.alloc(); 1u32, 1]?,
        0,
    );
    tell(rt, "a card with one block twice", twice)?;
    tell(rt, "a cover of nine blocks", Cover::new(store, 9))
}

fn run(rt: &HostRuntime) -> anyhow::Result<()> {
    let (first_bytes, first) = shown(rt, "flat", flat(rt, END)?)?;
    let (second_bytes, second) = shown(rt, "card", card(rt, END)?)?;
    let (third_bytes, third) = shown(rt, "cover", covered(rt)?)?;
    let equal_bytes = first_bytes == second_bytes && second_bytes == third_bytes;
    let equal = first == second && second == third;
    println!(rt; "the three rows of bytes are equal: {equal_bytes}")?;
    println!(rt; "the three listings are equal: {equal}")?;
    refusals(rt)
}

fn main(rt: HostRuntime) -> anyhow::Result<()> {
    run(&rt)
}

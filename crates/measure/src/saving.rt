//! Adds and commits: the nodes of one draft, and then drafts with one node each.

use crate::numbers::Numbers;
use crate::opening::opened;
use crate::times::Times;
use adding::adds::{NewAdd, With};
use refusals::calls::SaveFault;
use section::access::Figures;
use section::drafting::{Added, Draft, NotCommitted};
use section::files::File;
use std::fs;
use std::time::{Duration, Instant};
use store::base::Store;
use store::flat_store::Flat;

const ADDS: u64 = 400;

const COMMITS: u8 = 100;

// What saving may add.
const GROWTH: usize = 1 << 20;

// How long the adds took, and how long the commits.
#[derive(Clone, Copy)]
struct Took {
    adds: Duration,
    commits: Duration,
}

// So many bytes of the pattern.
fn front(pattern: &[u8], size: u64) -> &[u8] {
    pattern.get(..size as usize).unwrap_or(&[])
}

// The i-th add: a plain node, a node with data, or one with a new list.
fn add_of<'a>(i: u64, numbers: &mut Numbers, pattern: &'a [u8]) -> NewAdd<'a> {
    let list = 16 + numbers.below(8) as u32;
    let id = 0x100 + numbers.below(0x200) as u32;
    let payload = front(pattern, numbers.below(56));
    let part = i % 100;
    let with = if part == 50 {
        With::List { id: 5, payload }
    } else if part % 4 == 1 {
        With::Data(front(pattern, 1 + numbers.below(480)))
    } else {
        With::Nothing
    };
    NewAdd {
        list,
        id,
        payload,
        with,
    }
}

// Many adds in one draft.
fn add_many(
    file: &mut File<Flat>,
    draft: Draft,
    numbers: &mut Numbers,
    pattern: &[u8],
) -> (Draft, Result<(), SaveFault>) {
    let mut draft = draft;
    let mut all = Ok(());
    for i in 0..ADDS {
        let Added { draft: back, done } = file.add(draft, &add_of(i, numbers, pattern));
        draft = back;
        all = all.and(done.map(|_| ()));
    }
    (draft, all)
}

// Commits a draft; refused, it is abandoned.
fn commit(file: &mut File<Flat>, draft: Draft, version: u8) -> Result<(), SaveFault> {
    match file.commit(draft, &[version; 16]) {
        Ok(()) => Ok(()),
        Err(NotCommitted { draft, fault }) => {
            file.abandon(draft)?;
            Err(fault)
        }
    }
}

// A draft with one node, committed.
fn commit_one(file: &mut File<Flat>, new: &NewAdd, version: u8) -> Result<(), SaveFault> {
    let draft = file.begin()?;
    let Added { draft, done } = file.add(draft, new);
    let committed = commit(file, draft, version);
    done?;
    committed
}

// Many drafts with one node each, committed.
fn commit_many(
    file: &mut File<Flat>,
    numbers: &mut Numbers,
    pattern: &[u8],
) -> Result<(), SaveFault> {
    for i in 0..COMMITS {
        let new = add_of(4 * u64::from(i), numbers, pattern);
        commit_one(file, &new, 2 + i)?;
    }
    Ok(())
}

// A draft of which nothing is to be seen: its first add is too large and refused.
fn abandon(file: &mut File<Flat>, pattern: &[u8]) -> Result<(), SaveFault> {
    let draft = file.begin()?;
    let mut new = NewAdd {
        list: 16,
        id: 5,
        payload: pattern,
        with: With::Nothing,
    };
    let Added { draft, done: large } = file.add(draft, &new);
    new.payload = front(pattern, 9);
    let Added { draft, done } = file.add(draft, &new);
    file.abandon(draft)?;
    done?;
    match large {
        Ok(_) => Err(SaveFault::Size),
        Err(_) => Ok(()),
    }
}

// Saves to an opened file.
fn save(rt: &HostRuntime, file: &mut File<Flat>, pattern: &[u8]) -> anyhow::Result<Took> {
    let mut numbers = Numbers::new(7);
    let start = Instant::now(rt)?;
    let draft = file.begin()?;
    let (draft, all) = add_many(file, draft, &mut numbers, pattern);
    let adds = start.elapsed(rt);
    commit(file, draft, 1)?;
    all?;
    let start = Instant::now(rt)?;
    commit_many(file, &mut numbers, pattern)?;
    let commits = start.elapsed(rt)?;
    abandon(file, pattern)?;
    let adds = adds?;
    Ok(Took { adds, commits })
}

// The bytes of a store.
fn bytes_of(rt: &HostRuntime, store: &Flat) -> anyhow::Result<Vec<u8>> {
    let len = store.len() as usize;
    let mut bytes = vec![in rt.alloc(); 0u8; len]?;
    store.read(0, len, &mut bytes)?;
    Ok(bytes)
}

// Tells what bytes are once they are opened.
fn tell_saved(rt: &HostRuntime, bytes: &[u8]) -> anyhow::Result<()> {
    let Figures {
        count,
        end,
        fragments,
        ..
    } = opened(rt, bytes, 0)?.figures()?;
    println!(rt; "answer saved {count} {end} {fragments}")?;
    Ok(())
}

// Saves to a copy of the bytes that is opened anew.
fn save_once(rt: &HostRuntime, bytes: &[u8], pattern: &[u8]) -> anyhow::Result<Took> {
    let mut file = opened(rt, bytes, GROWTH)?;
    save(rt, &mut file, pattern)
}

// The bytes after that.
fn saved_bytes(rt: &HostRuntime, bytes: &[u8], pattern: &[u8]) -> anyhow::Result<Vec<u8>> {
    let mut file = opened(rt, bytes, GROWTH)?;
    save(rt, &mut file, pattern)?;
    bytes_of(rt, file.store())
}

// What is written: the front of it.
fn pattern_of(rt: &HostRuntime) -> anyhow::Result<Vec<u8>> {
    let mut pattern = Vec::new(rt.alloc());
    for i in 0..4096u32 {
        pattern.push(((7 * i + 3) % 256) as u8)?;
    }
    Ok(pattern)
}

/// Saving to a copy of the bytes that is opened anew each round; the bytes after one round are written to a file.
pub(crate) fn measure_saving(
    rt: &HostRuntime,
    bytes: &[u8],
    rounds: usize,
    saved: &str,
) -> anyhow::Result<()> {
    let pattern = pattern_of(rt)?;
    let after = saved_bytes(rt, bytes, &pattern)?;
    tell_saved(rt, &after)?;
    fs::write(rt, saved, after.as_slice())?;
    let mut adds = Times::new(rt.alloc());
    let mut commits = Times::new(rt.alloc());
    for _ in 0..rounds {
        let took = save_once(rt, bytes, &pattern)?;
        adds.push(took.adds)?;
        commits.push(took.commits)?;
    }
    adds.tell(rt, "adds", ADDS as usize)?;
    commits.tell(rt, "commits", usize::from(COMMITS))
}

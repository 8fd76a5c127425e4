//! The CRC of a file's bytes, and opening it.

use crate::times::Times;
use crc::crc32;
use section::access::Figures;
use section::files::File;
use section::space::Space;
use std::time::{Duration, Instant};
use store::base::NotMade;
use store::flat_store::Flat;

/// A store of all these bytes, with so much room behind them.
pub(crate) fn store_of(rt: &HostRuntime, bytes: &[u8], growth: usize) -> anyhow::Result<Flat> {
    let mut buffer = Vec::new(rt.alloc());
    buffer.extend_from_slice(bytes)?;
    buffer.resize(bytes.len().saturating_add(growth), 0)?;
    match Flat::new(buffer, bytes.len() as u64) {
        Ok(store) => Ok(store),
        Err(NotMade { parts: _, fault }) => Err(fault.into()),
    }
}

/// Space for a file of so many bytes: a log in it has at most one entry for every eight.
pub(crate) fn space_for(rt: &HostRuntime, len: usize) -> anyhow::Result<Space> {
    Ok(Space::new(rt.alloc(), len / 8)?)
}

/// The CRC of all bytes.
pub(crate) fn measure_crc(rt: &HostRuntime, bytes: &[u8], rounds: usize) -> anyhow::Result<()> {
    println!(rt; "answer crc {}", crc32(bytes))?;
    let mut times = Times::new(rt.alloc());
    let mut sum = 0u64;
    for _ in 0..rounds {
        let start = Instant::now(rt)?;
        let crc = crc32(bytes);
        times.push(start.elapsed(rt)?)?;
        sum = sum.wrapping_add(u64::from(crc));
    }
    println!(rt; "answer crc-timed {sum}")?;
    times.tell(rt, "crc", bytes.len())
}

/// Opening: in a space that is made for it each time, and in one that was made before.
pub(crate) fn measure_opening(rt: &HostRuntime, bytes: &[u8], rounds: usize) -> anyhow::Result<()> {
    let nodes = tell_opened(rt, bytes)?;
    let mut times = Times::new(rt.alloc());
    let mut again = Times::new(rt.alloc());
    for _ in 0..rounds {
        times.push(open_once(rt, bytes)?)?;
        again.push(open_again(rt, bytes)?)?;
    }
    times.tell(rt, "open", nodes)?;
    again.tell(rt, "reopen", nodes)
}

// How long it takes to make the space, to open a file in it, and to let the space go.
fn open_once(rt: &HostRuntime, bytes: &[u8]) -> anyhow::Result<Duration> {
    let store = store_of(rt, bytes, 0)?;
    let start = Instant::now(rt)?;
    let space = space_for(rt, bytes.len())?;
    let mut file = File::new(store, space);
    file.open(1)?;
    let (_store, space) = file.into_parts();
    drop(space);
    Ok(start.elapsed(rt)?)
}

// Opens a file over a store in a space.
fn open_in(store: Flat, space: Space) -> anyhow::Result<File<Flat>> {
    let mut file = File::new(store, space);
    file.open(1)?;
    Ok(file)
}

/// An opened file of these bytes, with so much room behind them.
pub(crate) fn opened(rt: &HostRuntime, bytes: &[u8], growth: usize) -> anyhow::Result<File<Flat>> {
    open_in(store_of(rt, bytes, growth)?, space_for(rt, bytes.len())?)
}

// How long it takes to open a file in a space in which one was opened before.
fn open_again(rt: &HostRuntime, bytes: &[u8]) -> anyhow::Result<Duration> {
    let (store, space) = opened(rt, bytes, 0)?.into_parts();
    let start = Instant::now(rt)?;
    let _file = open_in(store, space)?;
    Ok(start.elapsed(rt)?)
}

// Opens a file and tells its figures; answers how many nodes its lists have.
fn tell_opened(rt: &HostRuntime, bytes: &[u8]) -> anyhow::Result<usize> {
    let mut file = File::new(store_of(rt, bytes, 0)?, space_for(rt, bytes.len())?);
    let Figures {
        count,
        end,
        lists,
        fragments,
        percent,
    } = file.open(1)?;
    println!(rt; "answer open {count} {end} {lists} {fragments} {percent}")?;
    let mut nodes = 0usize;
    for row in file.lists() {
        nodes = nodes.saturating_add(row.nodes as usize);
    }
    Ok(nodes)
}

//! Looks at the nodes of an opened file, and at their data.

use crate::numbers::Numbers;
use crate::times::Times;
use format::nodes::Target;
use looks::seen::NodeSeen;
use refusals::calls::LookFault;
use section::files::File;
use std::time::Instant;
use store::flat_store::Flat;

const LOOKS: usize = 20_000;

// The payload of a node, and so much of its data, go into a buffer of this size.
const BUFFER: usize = 8192;

const MOST_PIECE: u64 = 4096;

/// A node to look at.
#[derive(Clone, Copy)]
pub(crate) struct Pick {
    list: u32,
    index: u64,
}

/// Data to look at.
#[derive(Clone, Copy)]
struct Piece {
    pick: Pick,
    size: u64,
}

/// One number of another and a value.
fn mix(sum: u64, value: u64) -> u64 {
    (sum ^ value).wrapping_mul(0x0000_0100_0000_01B3)
}

fn mix_bytes(sum: u64, bytes: &[u8]) -> u64 {
    let mut sum = sum;
    for byte in bytes {
        sum = mix(sum, u64::from(*byte));
    }
    sum
}

// All that a look answers, in one number.
fn all_of(sum: u64, seen: &NodeSeen, buffer: &[u8]) -> u64 {
    let sum = mix(mix(sum, u64::from(seen.id)), u64::from(seen.base));
    let sum = match seen.reference {
        None => mix(sum, 1),
        Some(span) => mix(mix(sum, span.start), span.size),
    };
    let sum = mix(sum, seen.payload as u64);
    mix_bytes(sum, buffer.get(..seen.payload).unwrap_or(&[]))
}

// Nodes of the lists as they were when `k` transactions were finished.
fn picks(rt: &HostRuntime, file: &File<Flat>, k: u64) -> anyhow::Result<Vec<Pick>> {
    let mut numbers = Numbers::new(k);
    let mut picks = Vec::new(rt.alloc());
    let lists = file.lists();
    for _ in 0..LOOKS {
        let at = numbers.below(lists.len() as u64) as usize;
        let list = lists.get(at).map_or(0, |row| row.id);
        let count = file.count_at(k, list)?;
        if count > 0 {
            let index = numbers.below(u64::from(count));
            picks.push(Pick { list, index })?;
        }
    }
    Ok(picks)
}

// All that the looks answer, in one number.
fn sum_of(file: &File<Flat>, k: u64, picks: &[Pick]) -> Result<u64, LookFault> {
    let mut buffer = [0u8; BUFFER];
    let mut sum = 0;
    for pick in picks {
        let seen = file.node(k, pick.list, pick.index, &mut buffer)?;
        sum = all_of(sum, &seen, &buffer);
    }
    Ok(sum)
}

// How many nodes are like the one behind them.
fn alike_of(file: &File<Flat>, k: u64, picks: &[Pick]) -> Result<u32, LookFault> {
    let mut alike = 0u32;
    for (one, other) in picks.iter().zip(picks.iter().skip(1)) {
        if file.alike(k, one.list, one.index, other.list, other.index)? {
            alike = alike.saturating_add(1);
        }
    }
    Ok(alike)
}

// The looks that are timed: little is done with what they answer.
fn look_at(
    file: &File<Flat>,
    k: u64,
    picks: &[Pick],
    buffer: &mut [u8; BUFFER],
) -> Result<u64, LookFault> {
    let mut sum = 0u64;
    for pick in picks {
        let seen = file.node(k, pick.list, pick.index, buffer)?;
        sum = sum
            .wrapping_add(u64::from(seen.id))
            .wrapping_add(seen.payload as u64)
            .wrapping_add(u64::from(buffer[0]));
    }
    Ok(sum)
}

/// Looks at nodes as they were when `k` transactions were finished.
pub(crate) fn measure_looks(
    rt: &HostRuntime,
    name: &str,
    file: &File<Flat>,
    rounds: usize,
    k: u64,
) -> anyhow::Result<()> {
    let picks = picks(rt, file, k)?;
    let looks = picks.len();
    let sum = sum_of(file, k, &picks)?;
    let alike = alike_of(file, k, &picks)?;
    println!(rt; "answer {name} {looks} {sum} {alike}")?;
    let mut buffer = [0u8; BUFFER];
    let mut times = Times::new(rt.alloc());
    let mut sum = 0u64;
    for _ in 0..rounds {
        let start = Instant::now(rt)?;
        let seen = look_at(file, k, &picks, &mut buffer)?;
        times.push(start.elapsed(rt)?)?;
        sum = sum.wrapping_add(seen);
    }
    println!(rt; "answer {name}-timed {sum}")?;
    times.tell(rt, name, looks)
}

// The nodes among these that have data, with the size of the piece that is looked at.
fn pieces(
    rt: &HostRuntime,
    file: &File<Flat>,
    k: u64,
    picks: &[Pick],
) -> anyhow::Result<Vec<Piece>> {
    let mut buffer = [0u8; BUFFER];
    let mut pieces = Vec::new(rt.alloc());
    for pick in picks {
        let seen = file.node(k, pick.list, pick.index, &mut buffer)?;
        match seen.reference {
            Some(span) if seen.base == Target::Data.base() => pieces.push(Piece {
                pick: *pick,
                size: span.size.min(MOST_PIECE),
            })?,
            _ => {}
        }
    }
    Ok(pieces)
}

// The bytes of all pieces, in one number.
fn data_of(file: &File<Flat>, k: u64, pieces: &[Piece]) -> Result<u64, LookFault> {
    let mut buffer = [0u8; BUFFER];
    let mut sum = 0;
    for Piece { pick, size } in pieces {
        file.data(k, pick.list, pick.index, 0, *size, &mut buffer)?;
        sum = mix_bytes(sum, buffer.get(..*size as usize).unwrap_or(&[]));
    }
    Ok(sum)
}

// The looks at data that are timed.
fn look_at_data(
    file: &File<Flat>,
    k: u64,
    pieces: &[Piece],
    buffer: &mut [u8; BUFFER],
) -> Result<u64, LookFault> {
    let mut sum = 0u64;
    for Piece { pick, size } in pieces {
        file.data(k, pick.list, pick.index, 0, *size, buffer)?;
        sum = sum.wrapping_add(u64::from(buffer[0]));
    }
    Ok(sum)
}

/// Looks at the data of nodes as they were when `k` transactions were finished.
pub(crate) fn measure_data(
    rt: &HostRuntime,
    file: &File<Flat>,
    rounds: usize,
    k: u64,
) -> anyhow::Result<()> {
    let pieces = pieces(rt, file, k, &picks(rt, file, k)?)?;
    let looks = pieces.len();
    let sum = data_of(file, k, &pieces)?;
    println!(rt; "answer data {looks} {sum}")?;
    let mut buffer = [0u8; BUFFER];
    let mut times = Times::new(rt.alloc());
    let mut sum = 0u64;
    for _ in 0..rounds {
        let start = Instant::now(rt)?;
        let seen = look_at_data(file, k, &pieces, &mut buffer)?;
        times.push(start.elapsed(rt)?)?;
        sum = sum.wrapping_add(seen);
    }
    println!(rt; "answer data-timed {sum}")?;
    times.tell(rt, "data", looks)
}

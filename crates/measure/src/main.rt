//! Measures what opening, looks and saving take on a section file, for `bench/run`, which compares it with a reader and writer in plain Rust.
//!
//! `measure FILE ROUNDS SAVED` prints what each task answers, and how many nanoseconds its rounds took; the bytes after the saves go to SAVED.
//! Without arguments it does nothing.
#![tactic(auto)]

use anyhow::bail;
use looking::{measure_data, measure_looks};
use opening::{measure_crc, measure_opening, opened};
use saving::measure_saving;
use std::{env, fs};

mod looking;
mod numbers;
mod opening;
mod saving;
mod times;

// All looks at one file.
fn look(rt: &HostRuntime, bytes: &[u8], rounds: usize) -> anyhow::Result<()> {
    let file = opened(rt, bytes, 0)?;
    let count = u64::from(file.figures()?.count);
    measure_looks(rt, "newest", &file, rounds, count)?;
    measure_looks(rt, "old", &file, rounds, count.div_ceil(2))?;
    measure_data(rt, &file, rounds, count)
}

// All tasks on one file.
fn measure(rt: &HostRuntime, path: &str, rounds: usize, saved: &str) -> anyhow::Result<()> {
    let bytes = fs::read(rt, path)?;
    measure_crc(rt, &bytes, rounds)?;
    measure_opening(rt, &bytes, rounds)?;
    look(rt, &bytes, rounds)?;
    measure_saving(rt, &bytes, rounds, saved)
}

fn main(rt: HostRuntime) -> anyhow::Result<()> {
    let mut words = env::args(&rt)?.skip(1);
    let Some(path) = words.next() else {
        return Ok(());
    };
    let (Some(rounds), Some(saved)) = (words.next(), words.next()) else {
        bail!("measure FILE ROUNDS SAVED");
    };
    measure(&rt, &path, rounds.parse()?, &saved)
}

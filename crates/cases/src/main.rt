//! Lists each sample file and compares the listing with the one that stands beside it.
#![tactic(auto)]

use lines::{file_of, listed};
use std::fs;

// The samples are numbered from 0 on.
const SAMPLES: u32 = 68;

// Whether a sample's listing is the one expected.
fn is_as_expected(rt: &HostRuntime, number: u32) -> anyhow::Result<bool> {
    let bytes = fs::read(rt, format!(in rt.alloc(); "{number:03}.one")?)?;
    let expected = fs::read_to_string(rt, format!(in rt.alloc(); "{number:03}.txt")?)?;
    let mut file = file_of(rt.alloc(), bytes)?;
    let text = listed(&mut file, 1).to_string(rt.alloc())?;
    Ok(text == expected)
}

fn run(rt: &HostRuntime) -> anyhow::Result<()> {
    let mut right = 0u32;
    for number in 0..SAMPLES {
        if is_as_expected(rt, number)? {
            right = right.saturating_add(1);
        } else {
            println!(rt; "{number:03}: another listing is expected")?;
        }
    }
    println!(rt; "{right} of {SAMPLES} listings are as expected")?;
    Ok(())
}

fn main(rt: HostRuntime) -> anyhow::Result<()> {
    run(&rt)
}

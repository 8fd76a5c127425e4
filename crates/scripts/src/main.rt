//! Carries out each script of the samples, and compares what it tells with what stands beside it.
#![tactic(auto)]

use sheets::carry_out;
use std::fs;

// The scripts are numbered from 0 on.
const SCRIPTS: u32 = 36;

// Whether a script tells what is expected.
fn is_as_expected(rt: &HostRuntime, number: u32) -> anyhow::Result<bool> {
    let script = fs::read(rt, format!(in rt.alloc(); "{number:03}.script")?)?;
    let expected = fs::read(rt, format!(in rt.alloc(); "{number:03}.expected")?)?;
    let mut told = Vec::new(rt.alloc());
    carry_out(rt.alloc(), &mut script.as_slice(), &mut told)?;
    Ok(told == expected)
}

fn run(rt: &HostRuntime) -> anyhow::Result<()> {
    let mut right = 0u32;
    for number in 0..SCRIPTS {
        if is_as_expected(rt, number)? {
            right = right.saturating_add(1);
        } else {
            println!(rt; "{number:03}: something else is expected")?;
        }
    }
    println!(rt; "{right} of {SCRIPTS} scripts tell what is expected")?;
    Ok(())
}

fn main(rt: HostRuntime) -> anyhow::Result<()> {
    run(&rt)
}

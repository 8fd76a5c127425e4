//! Carries out the commands that stand on the lines of standard input, one after the other, and prints what each tells.
#![tactic(auto)]

use std::io::Print;

// Carries out a command, and prints what it tells and how it ends.
fn carry_out(rt: &HostRuntime, line: &str) -> anyhow::Result<()> {
    let words: Vec<&str> = line.split(' ').collect(rt.alloc())?;
    let mut out = Vec::new(rt.alloc());
    let mut err = Vec::new(rt.alloc());
    let ended = commands::run(rt, words.as_slice(), &mut out, &mut err);
    println!(rt; "$ sheet {line}")?;
    rt.write_all(out.as_slice())?;
    rt.write_all(err.as_slice())?;
    println!(rt; "status {}", ended.status())?;
    Ok(())
}

fn run(rt: &HostRuntime) -> anyhow::Result<()> {
    for line in rt.lines(rt.alloc()) {
        carry_out(rt, line?.as_str())?;
    }
    Ok(())
}

fn main(rt: HostRuntime) -> anyhow::Result<()> {
    run(&rt)
}

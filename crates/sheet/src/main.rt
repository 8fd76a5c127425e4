//! Carries out the command that the arguments name, or with none the script on standard input.
#![tactic(auto)]

use sheets::carry_out;
use std::env;
use std::io::{self, BufReader, BufWriter, Write};
use std::process::ExitCode;

fn run_script(rt: &HostRuntime) -> anyhow::Result<()> {
    let mut script = BufReader::new(rt.alloc(), rt.stdin())?;
    let mut out = BufWriter::new(rt.alloc(), io::writer(rt))?;
    let done = carry_out(rt.alloc(), &mut script, &mut out);
    // what was done is told, also where the script ends early
    out.flush()?;
    done
}

fn run(rt: &HostRuntime) -> anyhow::Result<ExitCode> {
    let words: Vec<String> = env::args(rt)?.skip(1).collect(rt.alloc())?;
    if words.is_empty() {
        run_script(rt)?;
        return Ok(ExitCode::SUCCESS);
    }
    let arguments: Vec<&str> = words.iter().map(|word| word.as_str()).collect(rt.alloc())?;
    let mut out = BufWriter::new(rt.alloc(), io::writer(rt))?;
    let ended = commands::run(
        rt,
        arguments.as_slice(),
        &mut out,
        &mut io::writer(&rt.stderr()),
    );
    Ok(ExitCode::from(ended.status()))
}

fn main(rt: HostRuntime) -> anyhow::Result<ExitCode> {
    run(&rt)
}

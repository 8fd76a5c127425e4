//! Lists the section file that stands in the first 65,536 bytes of standard input, or tells why it is refused.
#![tactic(auto)]

use lines::{file_of, listed};
use std::io::Read;

// No more of the input is read.
const MOST: usize = 65_536;

// The first bytes of standard input. Each read takes all that is still wanted, and not a growing part of it:
// where the input comes in messages, what a read has no room for is lost.
fn input(rt: &HostRuntime) -> anyhow::Result<Vec<u8>> {
    let mut bytes = vec![in rt.alloc(); 0u8; MOST]?;
    let mut len = 0;
    let mut stdin = rt.stdin();
    for _ in 0..MOST {
        if len >= bytes.len() {
            break;
        }
        let n = stdin.read(&mut bytes[len..])?;
        if n == 0 {
            break;
        }
        len += n;
    }
    bytes.truncate(len);
    Ok(bytes)
}

fn run(rt: &HostRuntime) -> anyhow::Result<()> {
    let mut file = file_of(rt.alloc(), input(rt)?)?;
    rt.print(listed(&mut file, 1))?;
    Ok(())
}

fn main(rt: HostRuntime) -> anyhow::Result<()> {
    run(&rt)
}

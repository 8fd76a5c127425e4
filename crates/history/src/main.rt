//! Prints every finished state of the section file that stands in the first 65,536 bytes of standard input, or why it is refused.
//!
//! For each count from 1 to the file's there is a line `count K`, and under it each list that had nodes then, in the order of opening:
//!
//!       list 16: 2 nodes
//!            0  id    4  type 1  size   10  ref   4187+224     8e89afea4dbcb59f6ebf
//!                                           data 224           b50ef033ffc38417b7de47f363551b5a..
//!            1  id  750  type 0  size    0  ref   none         -
//!
//! A node has its index, its ID, its BaseType, how many bytes of payload it has, its reference as start and size, or `none`, and the first
//! 16 bytes of the payload in hexadecimal: `..` behind them where there are more, `-` where there are none.
//! Where it refers to data, the line below it has the data's size and first 16 bytes.
#![tactic(auto)]

use lines::{Listing, file_of};
use states::States;
use std::io::Read;

// No more of the input is read.
const MOST: u64 = 65_536;

fn run(rt: &HostRuntime) -> anyhow::Result<()> {
    let mut bytes = Vec::new(rt.alloc());
    rt.stdin().take(MOST).read_to_end(&mut bytes)?;
    let mut file = file_of(rt.alloc(), bytes)?;
    match file.open(1) {
        Ok(figures) => rt.print(States {
            file: &file,
            count: figures.count,
        })?,
        Err(fault) => rt.print(Listing::Refused(fault.into()))?,
    }
    Ok(())
}

fn main(rt: HostRuntime) -> anyhow::Result<()> {
    run(&rt)
}

//! The finished states of an opened file as text: at each count, the nodes that its lists had then, or those that the last transaction added.
//! All of it comes through looks, so nothing that is not finished is shown.
#![tactic(auto)]

use columns::{DataLine, NodeLine};
use format::nodes::Target;
use hexadecimal::{Front, SHOWN};
use section::files::File;
use std::fmt;
use std::ops::Range;
use store::base::Store;

pub mod additions;
mod columns;
mod hexadecimal;

// A node's size has 13 bits, so that each payload is shorter.
const MOST_PAYLOAD: usize = 8192;

/// An opened file's states, from the first count to this one.
#[derive(Drop)]
pub struct States<'a, S> {
    pub file: &'a File<S>,
    pub count: u32,
}

impl<S: Store> fmt::Display for States<'_, S> {
    fn fmt<W: fmt::Write>(&self, f: &mut fmt::Formatter<W>) -> fmt::Result {
        for k in 1..=u64::from(self.count) {
            f.write(State { file: self.file, k })?;
        }
        Ok(())
    }
}

/// The file as it was when `k` transactions were finished. A look that is refused ends the text with an error.
#[derive(Drop)]
pub struct State<'a, S> {
    pub file: &'a File<S>,
    pub k: u64,
}

impl<S: Store> fmt::Display for State<'_, S> {
    fn fmt<W: fmt::Write>(&self, f: &mut fmt::Formatter<W>) -> fmt::Result {
        let mut buffer = [0u8; MOST_PAYLOAD];
        writeln!(f, "count {}", self.k)?;
        self.put_lists(f, &mut buffer)
    }
}

impl<S: Store> State<'_, S> {
    // The lists that had nodes, in the order of opening.
    fn put_lists<W: fmt::Write>(
        &self,
        f: &mut fmt::Formatter<W>,
        buffer: &mut [u8],
    ) -> fmt::Result {
        for list in self.file.lists() {
            let nodes = self.file.count_at(self.k, list.id).map_err(|_| fmt::Error)?;
            if nodes > 0 {
                writeln!(f, "  list {}: {nodes} nodes", list.id)?;
                self.put_nodes(f, list.id, 0..nodes, buffer)?;
            }
        }
        Ok(())
    }

    // The nodes of a list with these indices, and the data that they refer to.
    fn put_nodes<W: fmt::Write>(
        &self,
        f: &mut fmt::Formatter<W>,
        list: u32,
        nodes: Range<u32>,
        buffer: &mut [u8],
    ) -> fmt::Result {
        for index in u64::from(nodes.start)..u64::from(nodes.end) {
            let node = self
                .file
                .node(self.k, list, index, buffer)
                .map_err(|_| fmt::Error)?;
            f.write(NodeLine {
                index,
                node,
                payload: Front::of(buffer, node.payload as u64),
            })?;
            match node.reference {
                Some(data) if node.base == Target::Data.base() => {
                    self.put_data(f, list, index, data.size)?;
                }
                _ => {}
            }
        }
        Ok(())
    }

    // The front of a node's data, of which there are `size` bytes.
    fn put_data<W: fmt::Write>(
        &self,
        f: &mut fmt::Formatter<W>,
        list: u32,
        index: u64,
        size: u64,
    ) -> fmt::Result {
        let mut bytes = [0u8; SHOWN];
        let shown = size.min(SHOWN as u64);
        self.file
            .data(self.k, list, index, 0, shown, &mut bytes)
            .map_err(|_| fmt::Error)?;
        f.write(DataLine {
            size,
            data: Front::of(&bytes, size),
        })
    }
}

//! What each transaction added.
use crate::{MOST_PAYLOAD, State};
use section::files::File;
use std::fmt;
use store::base::Store;

/// What each transaction of an opened file added, from the first to this one.
#[derive(Drop)]
pub struct Additions<'a, S> {
    pub file: &'a File<S>,
    pub count: u32,
}

impl<S: Store> fmt::Display for Additions<'_, S> {
    fn fmt<W: fmt::Write>(&self, f: &mut fmt::Formatter<W>) -> fmt::Result {
        let mut buffer = [0u8; MOST_PAYLOAD];
        for k in 1..=u64::from(self.count) {
            writeln!(f, "transaction {k}")?;
            State { file: self.file, k }.put_grown(f, &mut buffer)?;
        }
        Ok(())
    }
}

impl<S: Store> State<'_, S> {
    // The lists that grew by the last transaction, in the order of opening.
    fn put_grown<W: fmt::Write>(
        &self,
        f: &mut fmt::Formatter<W>,
        buffer: &mut [u8],
    ) -> fmt::Result {
        let mut grew = false;
        for list in self.file.lists() {
            let before = self.count_before(list.id)?;
            let nodes = self.file.count_at(self.k, list.id).map_err(|_| fmt::Error)?;
            if nodes > before {
                grew = true;
                let added = nodes - before;
                writeln!(f, "  list {}: {nodes} nodes, {added} added", list.id)?;
                self.put_nodes(f, list.id, before..nodes, buffer)?;
            }
        }
        if !grew {
            f.write_str("  nothing added\n")?;
        }
        Ok(())
    }

    // How many nodes a list had before the last transaction.
    fn count_before(&self, list: u32) -> Result<u32, fmt::Error> {
        if self.k < 2 {
            return Ok(0);
        }
        self.file.count_at(self.k - 1, list).map_err(|_| fmt::Error)
    }
}

//! How long the rounds of a task took.

use std::alloc::{AllocError, Global};
use std::time::Duration;

/// The times of the rounds, in nanoseconds.
#[derive(Drop)]
pub(crate) struct Times {
    nanos: Vec<u64>,
}

impl Times {
    pub(crate) fn new(heap: Global) -> Times {
        Times {
            nanos: Vec::new(heap),
        }
    }

    /// One round more.
    pub(crate) fn push(&mut self, took: Duration) -> Result<(), AllocError> {
        self.nanos
            .push(u64::try_from(took.as_nanos()).unwrap_or(u64::MAX))?;
        Ok(())
    }

    /// Prints the best time and the median, and how many units of work each round had.
    pub(crate) fn tell(mut self, rt: &HostRuntime, name: &str, units: usize) -> anyhow::Result<()> {
        self.nanos.sort_unstable();
        let best = self.nanos.first().copied().unwrap_or(0);
        let median = self.nanos.get(self.nanos.len() / 2).copied().unwrap_or(0);
        println!(rt; "time {name} {best} {median} {units}")?;
        Ok(())
    }
}

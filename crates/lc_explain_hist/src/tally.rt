//! How many of something each client has.
use indexmap::IndexMap;
use lc_base::OutOfMemory;
use lc_history::Done;
use std::alloc::Global;

/// A count for each client.
pub(crate) struct Tally {
    counts: IndexMap<u32, usize>,
}

impl Drop for Tally {
    fn drop(self) {
        let Tally { counts: _ } = self;
    }
}

impl Tally {
    pub(crate) fn new(alloc: Global) -> Tally {
        Tally {
            counts: IndexMap::new(alloc),
        }
    }

    /// The entries of each client.
    pub(crate) fn of_entries<C, H, R>(
        alloc: Global,
        order: &[Done<C, H, R>],
    ) -> Result<Tally, OutOfMemory> {
        let mut tally = Tally::new(alloc);
        for done in order {
            tally.add(done.client)?;
        }
        Ok(tally)
    }

    /// The count of a client.
    pub(crate) fn of(&self, client: u32) -> usize {
        self.counts.get(&client).copied().unwrap_or(0)
    }

    /// Counts one more for a client, and returns how many there were.
    pub(crate) fn add(&mut self, client: u32) -> Result<usize, OutOfMemory> {
        let count = self.of(client);
        self.counts.insert(client, count.saturating_add(1))?;
        Ok(count)
    }
}

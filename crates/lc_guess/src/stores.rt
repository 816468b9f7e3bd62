//! What is stored at an edge so far.
use crate::formula::cell_at;
use lc_base::OutOfMemory;
use std::alloc::Global;

/// A number that is stored in a cell, as text.
#[derive(Drop)]
pub(crate) struct Stored<'a> {
    pub(crate) column: &'a str,
    pub(crate) index: String,
    pub(crate) value: String,
}

/// What a cell holds.
#[derive(Clone, Copy)]
pub(crate) enum Held<'b> {
    /// What it held before.
    Before,
    Stored(&'b str),
    /// It is not known whether something was stored in it.
    Unknown,
}

/// What is stored in cells, no two of which are said in the same words.
#[derive(Drop)]
pub(crate) struct Stores<'a> {
    all: Vec<Stored<'a>>,
}

impl<'a> Stores<'a> {
    /// Nothing.
    pub(crate) fn new(alloc: Global) -> Stores<'a> {
        Stores {
            all: Vec::new(alloc),
        }
    }

    /// A copy.
    pub(crate) fn copy(&self, alloc: Global) -> Result<Stores<'a>, OutOfMemory> {
        let mut all = Vec::new(alloc);
        for stored in &self.all {
            all.push(Stored {
                column: stored.column,
                index: stored.index.clone()?,
                value: stored.value.clone()?,
            })?;
        }
        Ok(Stores { all })
    }

    /// Stores a number, over what was stored in the cell.
    pub(crate) fn put(&mut self, stored: Stored<'a>) -> Result<(), OutOfMemory> {
        self.all.retain(|other| {
            other.column != stored.column || other.index.as_str() != stored.index.as_str()
        });
        self.all.push(stored)?;
        Ok(())
    }

    /// What the cell of a column at an index holds, as far as the texts of indexes tell.
    pub(crate) fn held(&self, column: &str, index: &str) -> Held<'_> {
        let mut held = Held::Before;
        for stored in &self.all {
            if stored.column == column {
                held = if stored.index.as_str() == index {
                    Held::Stored(&stored.value)
                } else {
                    Held::Unknown
                };
            }
        }
        held
    }

    /// Whether a number is what its cell held before, in a column in which nothing else is stored.
    fn is_idle(&self, alloc: Global, stored: &Stored<'_>) -> Result<bool, OutOfMemory> {
        let cell = cell_at(alloc, stored.column, &stored.index)?;
        if stored.value.as_str() != cell.as_str() {
            return Ok(false);
        }
        let mut count = 0usize;
        for other in &self.all {
            if other.column == stored.column {
                count = count.saturating_add(1);
            }
        }
        Ok(count == 1)
    }

    /// Writes `(COLUMN INDEX VALUE)` for each cell that changes.
    pub(crate) fn write(&self, alloc: Global, out: &mut String) -> Result<(), OutOfMemory> {
        for stored in &self.all {
            if self.is_idle(alloc, stored)? {
                continue;
            }
            out.push_str(" (")?;
            out.push_str(stored.column)?;
            out.push_str(" ")?;
            out.push_str(&stored.index)?;
            out.push_str(" ")?;
            out.push_str(&stored.value)?;
            out.push_str(")")?;
        }
        Ok(())
    }
}

//! Lists by numbers.
ghost use Rattle.std.specs.Prelude.{◌≡◌, ◌++◌, IfOk};
ghost use Rattle.lc_hints.specs.HintView.{items_of};

use indexmap::IndexMap;
use lc_base::OutOfMemory;
use std::alloc::Global;

/// A list for each number, which is empty for nearly all.
pub(crate) struct ByNumber<T> {
    lists: IndexMap<u64, Vec<T>>,
}

impl<T: Drop> Drop for ByNumber<T> {
    fn drop(self) {
        let ByNumber { lists: _ } = self;
    }
}

/// The first ones, if there are any, followed by these.
fn joined<T: Drop>(first: Option<Vec<T>>, more: Vec<T>) -> Result<Vec<T>, OutOfMemory>
    ensures { IfOk result (λ all. all.items ≡ items_of first ++ more.items) }
{
    let Some(mut all) = first else {
        return Ok(more);
    };
    let mut more = more;
    all.append(&mut more)?;
    Ok(all)
}

impl<T: Drop> ByNumber<T> {
    ghost use Rattle.std.specs.Prelude.{◌≡◌, ◌++◌, ◌==◌, ℕ, [], OnOk, if◌then◌else◌};
    ghost use Rattle.lc_hints.specs.HintView.{items_at};

    /// Nothing but empty lists.
    pub(crate) fn new(alloc: Global) -> ByNumber<T>
        ensures { (k : ℕ) → items_at result k ≡ [] }
    {
        ByNumber {
            lists: IndexMap::new(alloc),
        }
    }

    /// The list of this number.
    pub(crate) fn at(&self, number: u64) -> &[T]
        ensures { result.now ≡ items_at self.now number }
    {
        match self.lists.get(&number) {
            Some(items) => items,
            None => &[],
        }
    }

    /// Appends these to those of this number.
    pub(crate) fn add(&mut self, number: u64, items: Vec<T>) -> Result<(), OutOfMemory>
        ensures { OnOk result ((k : ℕ) → items_at self.new k ≡ items_at self.old k ++ (if number == k then items.items else [])) }
    {
        let first = self.lists.swap_remove(&number);
        let items = joined(first, items)?;
        self.lists.insert(number, items)?;
        Ok(())
    }
}

//! The operations of a specification.
use crate::text::{each_item, first_text, items_within, later, nth_text, within_first};
use lc_base::OutOfMemory;
use lc_reading::{NameTable, Part, behind_word};
use lc_sexp::{Cursor, Item};
use std::alloc::Global;

/// An operation.
#[derive(Clone, Copy)]
pub(crate) struct Operation<'a> {
    pub(crate) name: &'a str,
    pub(crate) arguments: Cursor<'a>,
    pub(crate) branches: Cursor<'a>,
}

/// A branch of an operation.
#[derive(Clone, Copy)]
pub(crate) struct Branch<'a> {
    /// The name of a choice; none if branches are taken by their order.
    pub(crate) name: &'a str,
    pub(crate) parameters: Cursor<'a>,
    pub(crate) updates: Cursor<'a>,
    pub(crate) replies: Cursor<'a>,
}

/// The operations of a specification.
pub(crate) struct Operations<'a> {
    names: NameTable<'a>,
    all: Vec<Operation<'a>>,
}

impl Drop for Operations<'_> {
    fn drop(self) {
        let Operations { names: _, all: _ } = self;
    }
}

impl<'a> Operations<'a> {
    /// Those of a specification with these parts.
    pub(crate) fn new(alloc: Global, parts: Cursor<'a>) -> Result<Operations<'a>, OutOfMemory> {
        let mut names = NameTable::new(alloc);
        let mut all = Vec::new(alloc);
        for part in each_item(parts) {
            if let Ok(op) = behind_word(part, "op") {
                names = names.enter(first_text(op))?;
                all.push(Operation {
                    name: first_text(op),
                    arguments: within_first(later(op)),
                    branches: later(later(later(op))),
                })?;
            }
        }
        Ok(Operations { names, all })
    }

    /// Whether each update of a column of the specification adds a positive number to it.
    pub(crate) fn grows(&self, column: &str) -> bool {
        let mut is_updated = false;
        for operation in &self.all {
            for branch in each_item(operation.branches) {
                for update in each_item(branch_in(branch).updates) {
                    let parts = items_within(update);
                    if first_text(parts) == column {
                        is_updated = true;
                        if !is_raised(later(parts), column) {
                            return false;
                        }
                    }
                }
            }
        }
        is_updated
    }

    /// The operation of a name.
    pub(crate) fn named(&self, name: &str) -> Option<Operation<'a>> {
        match self.all.get(self.names.place(name)?) {
            Some(operation) => Some(*operation),
            None => None,
        }
    }
}

/// Whether an update with this index and value adds 1 to what a column has there: `0 (+ (rd COLUMN 0) 1)`.
fn is_raised(parts: Cursor<'_>, column: &str) -> bool {
    let sum = within_first(later(parts));
    let cell = within_first(later(sum));
    first_text(parts) == "0"
        && first_text(sum) == "+"
        && first_text(cell) == "rd"
        && nth_text(cell, 1) == column
        && nth_text(cell, 2) == "0"
        && nth_text(sum, 2) == "1"
}

/// A branch of this name, whose parts after its parameters these are.
fn branch_with<'a>(name: &'a str, parameters: Cursor<'a>, parts: Cursor<'a>) -> Branch<'a> {
    let behind = later(parts);
    Branch {
        name,
        parameters,
        updates: within_first(behind),
        replies: within_first(later(behind)),
    }
}

/// The branch that an item is.
fn branch_in(part: Part<'_>) -> Branch<'_> {
    let parts = items_within(part);
    let behind = later(parts);
    if first_text(parts) == "choice" {
        let parameters = within_first(later(behind));
        branch_with(first_text(behind), parameters, later(later(behind)))
    } else {
        branch_with("", Cursor::empty(), behind)
    }
}

/// The number that an item is, if it is one.
fn number_in(part: Part<'_>) -> Option<i64> {
    match part.item() {
        Item::Atom(atom) => atom.integer().ok(),
        Item::List(_) => None,
    }
}

/// Whether these replies may be what is returned: no two numbers differ.
fn may_be(replies: Cursor<'_>, returned: Cursor<'_>) -> bool {
    for (reply, term) in each_item(replies).zip(each_item(returned)) {
        if let (Some(reply), Some(number)) = (number_in(reply), number_in(term)) {
            if reply != number {
                return false;
            }
        }
    }
    true
}

impl<'a> Operation<'a> {
    /// The branch of a choice of this name.
    pub(crate) fn choice(self, name: &str) -> Option<Branch<'a>> {
        for part in each_item(self.branches) {
            let branch = branch_in(part);
            if branch.name == name {
                return Some(branch);
            }
        }
        None
    }

    /// The only branch that may be what these terms return, if there is no other.
    pub(crate) fn only_branch(self, returned: Cursor<'_>) -> Option<Branch<'a>> {
        let mut only = None;
        for part in each_item(self.branches) {
            let branch = branch_in(part);
            if may_be(branch.replies, returned) {
                if only.is_some() {
                    return None;
                }
                only = Some(branch);
            }
        }
        only
    }

    /// The first branch that may be what these terms return and stores something, or stores nothing.
    pub(crate) fn likely_branch(self, returned: Cursor<'_>, stores: bool) -> Option<Branch<'a>> {
        for part in each_item(self.branches) {
            let branch = branch_in(part);
            if may_be(branch.replies, returned) && branch.updates.is_empty() != stores {
                return Some(branch);
            }
        }
        None
    }
}

//! What is put in for columns and variables at once, and what of a table is known to have it in.
ghost use Rattle.std.specs.Prelude.{◌≡◌, IfSome, OnOk, Some};
ghost use Rattle.std.specs.Map.{lookup};
ghost use Rattle.lc_table.specs.NodeTables.{Table};
ghost use Rattle.lc_put.specs.Put.{occurrence_eq, Remembers, Notes};
ghost use Rattle.lc_term.specs.Replacement.{Replacement};

use lc_base::{ColId, OutOfMemory};
use lc_table::NearMap;
use lc_term::{ColExpr, Term};
use std::alloc::Global;
use std::hash::BuildHasherDefault;

/// What is put in for each column.
#[derive(Clone, Copy)]
pub enum PutColumns<'a> {
    /// The first entry of a column; a column without an entry stays.
    Stored(&'a [(ColId, ColExpr)]),
    /// By the columns' numbers; 0 in each cell of a column after the last.
    All(&'a [ColExpr]),
}

/// What is put in for each free variable.
#[derive(Clone, Copy)]
pub enum PutVariables<'a> {
    /// Each variable stays.
    Own,
    /// By the variables' numbers; 0 for a variable after the last.
    Terms(&'a [Term]),
}

/// What is put in for columns and free variables, at once. Below quantifiers its bound variables are shifted, so that none
/// is captured.
#[derive(Clone, Copy)]
pub struct Put<'a> {
    pub columns: PutColumns<'a>,
    pub variables: PutVariables<'a>,
}

// A number of a table, at a place with `depth` quantifiers around it.
#[derive(Clone, Copy, PartialEq, Eq, Hash)]
pub(crate) struct Occurrence {
    pub(crate) number: u32,
    pub(crate) depth: u32,
}

/// What of a table is replaced already: it serves one `Put` and one table, which may grow, so that what formulas share is
/// replaced once. After an error it has to be dropped.
pub struct ReplacedNodes {
    pub(crate) parts: NearMap<Occurrence, u32>,
    pub(crate) formulas: NearMap<Occurrence, u32>,
    forgotten: u32,
}

// How many are not remembered at first: a small formula is replaced sooner than a map of its parts is made, and what is
// met again has then cost no more than these.
const FORGOTTEN: u32 = 64;

impl Drop for ReplacedNodes {
    fn drop(self) {
        let ReplacedNodes {
            parts: _,
            formulas: _,
            forgotten: _,
        } = self;
    }
}

impl ReplacedNodes {
    // What a part is replaced by, if that is remembered. A small one is not: it is replaced as soon as it would be looked up.
    pub(crate) fn part(&self, occurrence: Occurrence, is_small: bool) -> Option<u32>
        ensures { IfSome result (λ number. lookup (occurrence_eq occurrence) self.now.parts.entries ≡ Some number) }
    {
        if is_small || self.parts.is_empty() {
            return None;
        }
        self.parts.get(&occurrence).copied()
    }

    // What a formula is replaced by, if that is remembered. Of one that compares terms it is not: it is replaced as soon as it
    // would be looked up.
    pub(crate) fn formula(&self, occurrence: Occurrence) -> Option<u32>
        ensures { IfSome result (λ number. lookup (occurrence_eq occurrence) self.now.formulas.entries ≡ Some number) }
    {
        if self.formulas.is_empty() {
            return None;
        }
        self.formulas.get(&occurrence).copied()
    }

    // Remembers what a part is replaced by, unless it is small or among the first.
    pub(crate) fn note_part(
        &mut self,
        occurrence: Occurrence,
        number: u32,
        is_small: bool,
    ) -> Result<(), OutOfMemory>
        ensures parts { OnOk result (Notes occurrence number self.old.parts.entries self.new.parts.entries) }
        ensures formulas { self.new.formulas ≡ self.old.formulas }
    {
        if is_small {
            return Ok(());
        }
        if self.forgotten < FORGOTTEN {
            self.forgotten += 1;
        } else {
            self.parts.insert(occurrence, number)?;
        }
        Ok(())
    }

    // Remembers what a formula is replaced by, unless it is among the first.
    pub(crate) fn note_formula(
        &mut self,
        occurrence: Occurrence,
        number: u32,
    ) -> Result<(), OutOfMemory>
        ensures formulas { OnOk result (Notes occurrence number self.old.formulas.entries self.new.formulas.entries) }
        ensures parts { self.new.parts ≡ self.old.parts }
    {
        if self.forgotten < FORGOTTEN {
            self.forgotten += 1;
        } else {
            self.formulas.insert(occurrence, number)?;
        }
        Ok(())
    }
}

/// Nothing is replaced yet.
pub fn nothing_replaced(alloc: Global) -> ReplacedNodes
    ensures { (r : Replacement) (ts : Table) → Remembers r ts result }
{
    ReplacedNodes {
        parts: NearMap::with_hasher(alloc, BuildHasherDefault::new()),
        formulas: NearMap::with_hasher(alloc, BuildHasherDefault::new()),
        forgotten: 0,
    }
}

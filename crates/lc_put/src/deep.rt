//! The terms below a part of a table. A walk that remembers what it has seen goes down only some levels at once; if it gets
//! deeper, it takes these terms first, the lowest before the others. So it takes little of the stack, however deep a term is.
ghost use Rattle.std.specs.Prelude.{◌≡◌, ◌≤◌, ◌<◌, ℕ, IfOk, OnOk};
ghost use Rattle.std.specs.List.{All};
ghost use Rattle.lc_put.specs.Deep.{IsPart, IsTermBelow, AreFound};
ghost use Rattle.lc_table.specs.NodeTables.{Table};
ghost use Rattle.lc_table.specs.Tables.{IsTerm, IsColumn};

use lc_base::OutOfMemory;
use lc_table::{ColExprId, KnownParts, NearSet, TermId, TermNode, Terms};
use std::alloc::Global;
use std::hash::BuildHasherDefault;

/// How many levels a walk goes down at once.
pub(crate) const LEVELS: u32 = 128;

// What is found below a part: terms and column expressions by their numbers, and the terms among them.
struct Found {
    met: NearSet<u32>,
    parts: Vec<u32>,
    terms: Vec<TermId>,
}

impl Drop for Found {
    fn drop(self) {
        let Found {
            met: _,
            parts: _,
            terms: _,
        } = self;
    }
}

impl Found {
    fn into_terms(self) -> Vec<TermId>
        ensures { result.items ≡ self.terms.items }
    {
        let Found {
            met: _,
            parts: _,
            terms,
        } = self;
        terms
    }
}

fn nothing_found(alloc: Global) -> Found
    ensures { (ts : Table) (n : ℕ) → AreFound ts n result }
{
    Found {
        met: NearSet::with_hasher(alloc, BuildHasherDefault::new()),
        parts: Vec::new(alloc),
        terms: Vec::new(alloc),
    }
}

// Puts a term into the lists, unless it was met before or is known.
fn find_term<K: KnownParts>(
    table: &Terms,
    found: &mut Found,
    done: &K,
    term: TermId,
) -> Result<(), OutOfMemory>
    requires { IsTerm table.now term }
    ensures { (n : ℕ) → term.0 < n → AreFound table.now n found.old → OnOk result (AreFound table.now n found.new) }
{
    if done.known(term.0).is_none() && found.met.insert(term.0)? {
        found.parts.push(term.0)?;
        found.terms.push(term)?;
    }
    Ok(())
}

// Adds a column expression to what is found, in the same way.
fn find_column<K: KnownParts>(
    table: &Terms,
    found: &mut Found,
    done: &K,
    column: ColExprId,
) -> Result<(), OutOfMemory>
    requires { IsColumn table.now column }
    ensures { (n : ℕ) → column.0 < n → AreFound table.now n found.old → OnOk result (AreFound table.now n found.new) }
{
    if done.known(column.0).is_none() && found.met.insert(column.0)? {
        found.parts.push(column.0)?;
    }
    Ok(())
}

// Puts the parts of a part into the lists.
fn find_parts<K: KnownParts>(
    table: &Terms,
    found: &mut Found,
    done: &K,
    part: u32,
) -> Result<(), OutOfMemory>
    requires { IsPart table.now part }
    ensures { (n : ℕ) → part ≤ n → AreFound table.now n found.old → OnOk result (AreFound table.now n found.new) }
{
    match table.part_node(part) {
        TermNode::Add(left, right) | TermNode::Subtract(left, right) => {
            find_term(table, found, done, left)?;
            find_term(table, found, done, right)
        }
        TermNode::Multiply(_, term) => find_term(table, found, done, term),
        TermNode::Read(column, index) => {
            find_column(table, found, done, column)?;
            find_term(table, found, done, index)
        }
        TermNode::Store(below, index, value) => {
            find_column(table, found, done, below)?;
            find_term(table, found, done, index)?;
            find_term(table, found, done, value)
        }
        _ => Ok(()),
    }
}

/// The terms below a part for which it is not known yet what they become, the lowest first.
pub(crate) fn terms_below<K: KnownParts>(
    table: &Terms,
    alloc: Global,
    part: u32,
    done: &K,
) -> Result<Vec<TermId>, OutOfMemory>
    requires { IsPart table.now part }
    ensures there { IfOk result (λ terms. All (IsTerm table.now) terms.items) }
    ensures below { IfOk result (λ terms. All (IsTermBelow part) terms.items) }
{
    let mut found = nothing_found(alloc);
    find_parts(table, &mut found, done, part)?;
    for place in 0..usize::MAX {
        let Some(below) = found.parts.get(place).copied() else {
            break;
        };
        find_parts(table, &mut found, done, below)?;
    }
    let mut terms = found.into_terms();
    terms.sort_by_key(|term| term.0)?;
    Ok(terms)
}

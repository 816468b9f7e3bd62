//! What may be said at a point.
ghost use Rattle.std.specs.Prelude.{length};
ghost use Rattle.std.specs.Iterator.{at_most};

use crate::formula::has_word;
use lc_base::OutOfMemory;
use std::alloc::Global;

/// Why other clients do not make a fact false.
#[derive(Clone, Copy, PartialEq, Eq)]
pub(crate) enum Basis {
    /// It speaks of locals, or of cells that only grow.
    Stays,
    /// It says what is noted of the client's own call.
    Noted,
    /// It says what holds of the client's own call that another one has done.
    Posted,
    /// It says that a cell holds a number of the client's own.
    Owner,
    /// It speaks of cells at an index at which a cell holds a number of the client's own.
    Owned,
}

/// A fact.
pub(crate) struct Fact {
    pub(crate) basis: Basis,
    /// The index at which a cell holds a number of the client's own; empty where it rests on none.
    pub(crate) index: String,
    /// Where it is claimed; empty if everywhere.
    pub(crate) premise: String,
    pub(crate) claim: String,
}

impl Drop for Fact {
    fn drop(self) {
        let Fact {
            basis: _,
            index: _,
            premise: _,
            claim: _,
        } = self;
    }
}

impl Fact {
    /// That something is claimed.
    pub(crate) fn plain(alloc: Global, claim: String) -> Fact {
        Fact::under(alloc, String::new(alloc), claim, Basis::Stays)
    }

    /// That something is claimed where a premise holds.
    pub(crate) fn under(alloc: Global, premise: String, claim: String, basis: Basis) -> Fact {
        Fact {
            basis,
            index: String::new(alloc),
            premise,
            claim,
        }
    }

    /// That something is claimed that has to do with cells of the client's own at an index.
    pub(crate) fn own(
        alloc: Global,
        index: &str,
        claim: String,
        basis: Basis,
    ) -> Result<Fact, OutOfMemory> {
        Ok(Fact {
            basis,
            index: String::from_str(alloc, index)?,
            premise: String::new(alloc),
            claim,
        })
    }

    /// The formula.
    pub(crate) fn text(&self, alloc: Global) -> Result<String, OutOfMemory> {
        if self.premise.is_empty() {
            Ok(self.claim.clone()?)
        } else {
            let premise = &self.premise;
            let claim = &self.claim;
            Ok(format!(in alloc; "(=> {premise} {claim})")?)
        }
    }

    /// Whether another one says the same.
    pub(crate) fn is_same(&self, other: &Fact) -> bool {
        self.premise.as_str() == other.premise.as_str()
            && self.claim.as_str() == other.claim.as_str()
    }

    /// Whether one of these names is in it.
    pub(crate) fn speaks_of(&self, names: &[&str]) -> bool {
        has_word(&self.premise, names) || has_word(&self.claim, names)
    }

    /// A copy.
    pub(crate) fn copy(&self) -> Result<Fact, OutOfMemory> {
        Ok(Fact {
            basis: self.basis,
            index: self.index.clone()?,
            premise: self.premise.clone()?,
            claim: self.claim.clone()?,
        })
    }
}

/// The facts of some numbers, one after another.
#[derive(Clone, Copy)]
pub(crate) struct KnownFacts<'b> {
    facts: &'b [Fact],
    numbers: &'b [usize],
}

/// Those of these facts that have these numbers.
pub(crate) fn each_known<'b>(facts: &'b [Fact], numbers: &'b [usize]) -> KnownFacts<'b> {
    KnownFacts { facts, numbers }
}

impl<'b> Iterator for KnownFacts<'b> {
    type Item = &'b Fact;

    ghost remaining = { λ s. at_most (length s.numbers.now) };

    fn next(&mut self) -> Option<&'b Fact> {
        let (first, others) = self.numbers.split_first()?;
        self.numbers = others;
        self.facts.get(*first)
    }
}

/// Whether a cell of an index is known to hold a number of the client's own.
pub(crate) fn is_owned(known: KnownFacts<'_>, index: &str) -> bool {
    for fact in known {
        if fact.basis == Basis::Owner && fact.index.as_str() == index {
            return true;
        }
    }
    false
}

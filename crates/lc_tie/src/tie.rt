//! The type of what ties an object to its specification: the invariant, and what the columns hold at first.
ghost use Rattle.std.specs.Prelude.{◌≡◌, map, IfOk};
ghost use Rattle.lc_term.specs.View.{column_of};
ghost use Rattle.lc_tie.specs.Tie.{affine_of};

use lc_base::{Name, OutOfMemory};
use lc_term::{ColExpr, Formula};
use std::alloc::Global;

/// A named part of the invariant.
pub struct Conjunct {
    pub name: Name,
    pub formula: Formula,
}

// Written out, so that dropping a conjunct is one call.
impl Drop for Conjunct {
    fn drop(self) {
        let Conjunct {
            name: _,
            formula: _,
        } = self;
    }
}

/// The invariant, as a list of conjuncts, and what the columns hold at first.
pub struct Tie {
    conjuncts: Vec<Conjunct>,
    initial: Vec<(i64, i64)>,
}

impl Drop for Tie {
    fn drop(self) {
        let Tie {
            conjuncts: _,
            initial: _,
        } = self;
    }
}

impl Tie {
    ghost use Rattle.std.specs.Prelude.{◌≡◌, ℕ, pos, map, slice_index_or, IfOk};
    ghost use Rattle.lc_term.specs.Syntax.{Affine};
    ghost use Rattle.lc_term.specs.View.{column_of};
    ghost use Rattle.lc_tie.specs.Tie.{affine_of, start_column};
    ghost use Rattle.lc_tie.specs.TieView.{conjunct_of, conjuncts_in, numbers_in};

    /// The tie of these conjuncts, where the column with the numbers (a, b) has `a * i + b` in cell i at first.
    pub fn new(conjuncts: Vec<Conjunct>, initial: Vec<(i64, i64)>) -> Tie
        ensures conjuncts { conjuncts_in result ≡ map conjunct_of conjuncts.items }
        ensures initial { numbers_in result ≡ initial.items }
    {
        Tie { conjuncts, initial }
    }

    /// The conjuncts of the invariant, in their order.
    pub fn conjuncts(&self) -> &[Conjunct]
        ensures { map conjunct_of result.now ≡ conjuncts_in self.now }
    {
        &self.conjuncts
    }

    /// What each column holds at first, by the columns' numbers. A column after the last has 0 in each cell.
    #[tactic(auto, using(crate::proofs::Starts::listed_start))]
    pub fn initial_columns(&self, alloc: Global) -> Result<Vec<ColExpr>, OutOfMemory>
        ensures listed { IfOk result (λ columns. map column_of columns.items ≡ map affine_of (numbers_in self.now)) }
        ensures each { IfOk result (λ columns. (c : ℕ) → slice_index_or (map column_of columns.items) c (Affine (pos 0) (pos 0)) ≡ start_column (numbers_in self.now) c) }
    {
        start_columns(alloc, &self.initial)
    }
}

// The columns of these numbers.
fn start_columns(alloc: Global, numbers: &[(i64, i64)]) -> Result<Vec<ColExpr>, OutOfMemory>
    ensures { IfOk result (λ columns. map column_of columns.items ≡ map affine_of numbers.now) }
{
    let mut columns = Vec::with_capacity(alloc, numbers.len())?;
    for &(slope, start) in numbers {
        columns.push(ColExpr::Affine(slope, start))?;
    }
    Ok(columns)
}

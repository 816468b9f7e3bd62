//! How formulas in a list after a word are read.
ghost use Rattle.std.specs.Prelude.{map};
ghost use Rattle.lc_reading.specs.Parts.{tree_of, place_of};
ghost use Rattle.lc_reading.specs.Results.{IsReading};
ghost use Rattle.lc_term.specs.View.{formula_of};
ghost use Rattle.lc_outline_text.specs.Points.{formulas_in_reading};

use lc_reading::{Part, ReadFault, Reads, behind_word, read_each};
use lc_term::Formula;
use lc_text::{Scope, read_formula};
use std::alloc::Global;

/// Reads formulas with the names of a scope.
#[derive(Drop)]
pub(crate) struct FormulasOf<'s, S>(&'s S);

impl<S: Scope> Reads for FormulasOf<'_, S> {
    ghost use Rattle.std.specs.Prelude.{[]};
    ghost use Rattle.lc_term.specs.Syntax.{Formula};
    ghost use Rattle.lc_term.specs.View.{formula_of};
    ghost use Rattle.lc_text.specs.Formulas.{formula_reading};

    type Value = Formula;

    ghost Meaning = { Formula };

    ghost meaning = { formula_of };

    ghost reading = { λ reader. formula_reading (S.names reader.0.now) [] };

    fn read(&self, alloc: Global, part: Part<'_>) -> Result<Formula, ReadFault> {
        read_formula(alloc, self.0, part)
    }
}

/// `(WORD F ..)`
pub(crate) fn read_formulas_in<S: Scope>(
    alloc: Global,
    scope: &S,
    word: &str,
    part: Part<'_>,
) -> Result<Vec<Formula>, ReadFault>
    ensures { IsReading (λ formulas. map formula_of formulas.items) (formulas_in_reading word.now (S.names scope.now) (place_of part.entry) (tree_of part.entry)) result }
{
    let list = behind_word(part, word)?;
    read_each(alloc, &FormulasOf(scope), list)
}

//! Tables of terms and formulas.
ghost use Rattle.std.specs.Prelude.{IfOk, IsTrue};
ghost use Rattle.lc_put.specs.Put.{Remembers, replacement_of};
ghost use Rattle.lc_table.specs.Tables.{HasFormula, HasTerm, IsFormula, IsTerm, formula_in, term_in};
ghost use Rattle.lc_term.specs.Places.{shift_fits, term_passes};
ghost use Rattle.lc_term.specs.Replacement.{replace};
ghost use Rattle.lc_term.specs.Substitution.{shifted_term};
ghost use Rattle.lc_term.specs.Syntax.{Variable};
ghost use Rattle.lc_term.specs.View.{formula_of, term_of};

use lc_base::OutOfMemory;
use lc_copy::copy_from;
use lc_put::{Put, ReplacedNodes, replace, shift};
use lc_table::{FormulaId, TermId, Terms};
use lc_term::{Formula, Term};
use std::alloc::Global;

/// A term that is entered gets the number of exactly that term.
pub fn entering_a_term(terms: &mut Terms, term: &Term) -> Result<TermId, OutOfMemory>
    ensures { IfOk result (λ k. HasTerm terms.new k (term_of term.now)) }
{
    terms.enter_term(term)
}

/// A variable that is made gets the number of exactly that variable.
pub fn making_a_variable(terms: &mut Terms, number: u32) -> Result<TermId, OutOfMemory>
    ensures { IfOk result (λ k. HasTerm terms.new k (Variable number)) }
{
    terms.variable(number)
}

/// A formula that is entered gets the number of exactly that formula.
pub fn entering_a_formula(
    terms: &mut Terms,
    alloc: Global,
    formula: &Formula,
) -> Result<FormulaId, OutOfMemory>
    ensures { IfOk result (λ k. HasFormula terms.new k (formula_of formula.now)) }
{
    terms.enter_formula(alloc, formula)
}

/// The number of a formula of another table is that of the same formula here.
pub fn copying(
    terms: &mut Terms,
    alloc: Global,
    other: &Terms,
    formula: FormulaId,
) -> Result<FormulaId, OutOfMemory>
    requires { IsFormula other.now formula }
    ensures { IfOk result (λ k. HasFormula terms.new k (formula_in other.now formula)) }
{
    copy_from(terms, alloc, other, formula)
}

/// Columns and variables of a formula are replaced at once; below quantifiers what is put in is shifted.
pub fn replacing(
    terms: &mut Terms,
    alloc: Global,
    put: &Put<'_>,
    done: &mut ReplacedNodes,
    formula: FormulaId,
) -> Result<FormulaId, OutOfMemory>
    requires formula { IsFormula terms.old formula }
    requires done { Remembers (replacement_of put.now) terms.old done.old }
    ensures { IfOk result (λ k. HasFormula terms.new k (replace (replacement_of put.now) (formula_in terms.old formula))) }
{
    replace(terms, alloc, put, done, formula)
}

/// A term is shifted if each of its bound variables has a place.
pub fn shifting(
    terms: &mut Terms,
    alloc: Global,
    term: TermId,
    added: u32,
    cutoff: u32,
) -> Result<TermId, OutOfMemory>
    requires term { IsTerm terms.old term }
    requires fits { IsTrue (term_passes (shift_fits added cutoff 0) (term_in terms.old term)) }
    ensures { IfOk result (λ k. HasTerm terms.new k (shifted_term added cutoff (term_in terms.old term))) }
{
    shift(terms, alloc, term, added, cutoff)
}

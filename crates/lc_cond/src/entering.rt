//! Formulas of a development entered in a table.
ghost use Rattle.std.specs.Prelude.{◌≡◌, ◌++◌, List, map, IfOk, OnOk};
ghost use Rattle.lc_term.specs.Replacement.{replace};
ghost use Rattle.lc_term.specs.Syntax as S;
ghost use Rattle.lc_table.specs.Tables.{formulas_in, AreFormulas, Keeps};
ghost use Rattle.lc_term.specs.View.{formulas_of};
ghost use Rattle.lc_tie.specs.Tie as T;
ghost use Rattle.lc_tie.specs.TieView.{conjuncts_in, conjunct_of};
ghost use Rattle.lc_cond.specs.Adding.{HasFormulas};
ghost use Rattle.lc_put.specs.Put.{Remembers, replacement_of};
ghost use Rattle.lc_put.specs.PutNumbers.{AreColumns, AreTerms, replacement_at};
ghost use Rattle.lc_cond.specs.Heads.{Tells};

use lc_base::OutOfMemory;
use lc_put::{Put, PutNumbers, ReplacedNodes, put_in_formula, replace};
use lc_table::{FormulaId, Terms};
use lc_term::Formula;
use lc_tie::{Conjunct, Tie};
use std::alloc::Global;

/// Formulas, entered.
pub(crate) fn entered(
    alloc: Global,
    terms: &mut Terms,
    formulas: &[Formula],
) -> Result<Vec<FormulaId>, OutOfMemory>
    ensures list { IfOk result (λ ks. HasFormulas terms.new ks.items (formulas_of formulas.now)) }
    ensures kept { Keeps terms.old terms.new }
{
    terms.enter_formulas(alloc, formulas)
}

fn entered_conjuncts(
    alloc: Global,
    terms: &mut Terms,
    conjuncts: &[Conjunct],
) -> Result<Vec<FormulaId>, OutOfMemory>
    ensures list { IfOk result (λ ks. HasFormulas terms.new ks.items (T.formulas_of (map conjunct_of conjuncts.now))) }
    ensures kept { Keeps terms.old terms.new }
{
    let mut numbers = Vec::with_capacity(alloc, conjuncts.len())?;
    for conjunct in conjuncts {
        numbers.push(terms.enter_formula(alloc, &conjunct.formula)?)?;
    }
    Ok(numbers)
}

/// The conjuncts of the invariant, entered.
pub(crate) fn entered_invariant(
    alloc: Global,
    terms: &mut Terms,
    tie: &Tie,
) -> Result<Vec<FormulaId>, OutOfMemory>
    ensures list { IfOk result (λ ks. HasFormulas terms.new ks.items (T.formulas_of (conjuncts_in tie.now))) }
    ensures kept { Keeps terms.old terms.new }
{
    entered_conjuncts(alloc, terms, tie.conjuncts())
}

/// Some formulas, followed by others.
pub(crate) fn joined(
    alloc: Global,
    first: &[FormulaId],
    second: &[FormulaId],
) -> Result<Vec<FormulaId>, OutOfMemory>
    ensures { IfOk result (λ ks. ks.items ≡ first.now ++ second.now) }
{
    let mut all = Vec::with_capacity(alloc, first.len() + second.len())?;
    all.extend_from_slice(first)?;
    all.extend_from_slice(second)?;
    Ok(all)
}

/// Some formulas, followed by others, which are entered.
pub(crate) fn entered_behind(
    alloc: Global,
    terms: &mut Terms,
    first: &[FormulaId],
    formulas: &[Formula],
) -> Result<Vec<FormulaId>, OutOfMemory>
    ensures list { IfOk result (λ ks. (fs : List S.Formula) → HasFormulas terms.old first.now fs → HasFormulas terms.new ks.items (fs ++ formulas_of formulas.now)) }
    ensures kept { Keeps terms.old terms.new }
{
    let second = entered(alloc, terms, formulas)?;
    joined(alloc, first, &second)
}

/// Each of the formulas with what is put in.
pub(crate) fn told(
    alloc: Global,
    terms: &mut Terms,
    put: &Put<'_>,
    done: &mut ReplacedNodes,
    formulas: &[FormulaId],
) -> Result<Vec<FormulaId>, OutOfMemory>
    requires formulas { AreFormulas terms.old formulas.now }
    requires done { Remembers (replacement_of put.now) terms.old done.old }
    ensures list { IfOk result (λ ks. HasFormulas terms.new ks.items (map (replace (replacement_of put.now)) (formulas_in terms.old formulas.now))) }
    ensures kept { Keeps terms.old terms.new }
    ensures done { OnOk result (Remembers (replacement_of put.now) terms.new done.new) }
{
    let mut numbers = Vec::with_capacity(alloc, formulas.len())?;
    for formula in formulas {
        numbers.push(replace(terms, alloc, put, done, *formula)?)?;
    }
    Ok(numbers)
}

/// Each of the formulas with columns and variables put in by their numbers.
pub(crate) fn told_by_number(
    alloc: Global,
    terms: &mut Terms,
    put: PutNumbers<'_>,
    done: &mut ReplacedNodes,
    formulas: &[FormulaId],
) -> Result<Vec<FormulaId>, OutOfMemory>
    requires columns { AreColumns terms.old put.columns.now }
    requires variables { AreTerms terms.old put.variables.now }
    requires formulas { AreFormulas terms.old formulas.now }
    requires done { Remembers (replacement_at terms.old put.columns.now put.variables.now) terms.old done.old }
    ensures list { IfOk result (λ ks. Tells terms.old terms.new put.entry.columns.now put.entry.variables.now formulas.now ks.items) }
    ensures kept { Keeps terms.old terms.new }
    ensures done { OnOk result (Remembers (replacement_at terms.new put.entry.columns.now put.entry.variables.now) terms.new done.new) }
{
    let mut numbers = Vec::with_capacity(alloc, formulas.len())?;
    for formula in formulas {
        numbers.push(put_in_formula(terms, alloc, put, done, *formula)?)?;
    }
    Ok(numbers)
}

//! Terms put in for variables of a formula of a table.
ghost use Rattle.std.specs.Prelude.{IfOk, IsTrue};
ghost use Rattle.lc_put.specs.Filling.{IsFilled};
ghost use Rattle.lc_term.specs.Places.{passes, shift_fits, put_fits, open_fits};
ghost use Rattle.lc_term.specs.Replacement.{replace};
ghost use Rattle.lc_term.specs.Substitution.{substituted, instantiated, shifted};
ghost use Rattle.lc_table.specs.Tables.{term_in, formula_in, IsTerm, IsFormula, HasFormula, Keeps};

use crate::filling::{Filled, Filling};
use crate::put::nothing_replaced;
use crate::replacing::replaced_formula;
use lc_base::OutOfMemory;
use lc_table::{FormulaId, TermId, Terms};
use std::alloc::Global;
use std::marker::Brand;

// The formula with what is put in. No other shares what is remembered of it.
fn filled<R: Filled>(
    table: &mut Terms,
    alloc: Global,
    put: &Filling<'_>,
    formula: FormulaId,
) -> Result<FormulaId, OutOfMemory>
    requires formula { IsFormula table.old formula }
    requires put { IsFilled put.now table.old R.replacement }
    ensures id { IfOk result (λ k. HasFormula table.new k (replace R.replacement (formula_in table.old formula))) }
    ensures kept { Keeps table.old table.new }
{
    let mut done = nothing_replaced(alloc);
    replaced_formula::<R>(table, alloc, put, &mut done, formula, 0)
}

/// The formula with a term for a free variable. Below quantifiers the term's bound variables are shifted, so none
/// is captured.
pub fn substitute(
    table: &mut Terms,
    alloc: Global,
    formula: FormulaId,
    variable: u32,
    term: TermId,
) -> Result<FormulaId, OutOfMemory>
    requires formula { IsFormula table.old formula }
    requires term { IsTerm table.old term }
    requires fits { IsTrue (passes (put_fits variable (term_in table.old term)) 0 (formula_in table.old formula)) }
    ensures id { IfOk result (λ k. HasFormula table.new k (substituted variable (term_in table.old term) (formula_in table.old formula))) }
    ensures kept { Keeps table.old table.new }
{
    filled::<Brand>(table, alloc, &Filling::Variable(variable, term), formula)
}

/// The body of a quantifier with a term for the quantifier's variable. Below further quantifiers the term's bound
/// variables are shifted, so none is captured.
pub fn instantiate(
    table: &mut Terms,
    alloc: Global,
    body: FormulaId,
    term: TermId,
) -> Result<FormulaId, OutOfMemory>
    requires body { IsFormula table.old body }
    requires term { IsTerm table.old term }
    requires fits { IsTrue (passes (open_fits (term_in table.old term)) 0 (formula_in table.old body)) }
    ensures id { IfOk result (λ k. HasFormula table.new k (instantiated (term_in table.old term) (formula_in table.old body))) }
    ensures kept { Keeps table.old table.new }
{
    filled::<Brand>(table, alloc, &Filling::Opening(term), body)
}

/// The formula below `added` further quantifiers, as `shift` of a term.
pub fn shift_formula(
    table: &mut Terms,
    alloc: Global,
    formula: FormulaId,
    added: u32,
    cutoff: u32,
) -> Result<FormulaId, OutOfMemory>
    requires formula { IsFormula table.old formula }
    requires fits { IsTrue (passes (shift_fits added cutoff) 0 (formula_in table.old formula)) }
    ensures id { IfOk result (λ k. HasFormula table.new k (shifted added cutoff (formula_in table.old formula))) }
    ensures kept { Keeps table.old table.new }
{
    filled::<Brand>(table, alloc, &Filling::Shift(added, cutoff), formula)
}

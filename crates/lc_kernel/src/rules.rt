//! The rules, one function a step, each under the line of the table that it follows. Its tests come in the order of
//! the reasons.
ghost use Rattle.lc_kernel.specs.Answers.{StepMeets};
ghost use Rattle.lc_kernel.specs.Settings.{IsSetting};
ghost use Rattle.lc_kernel.specs.Table.{less};
ghost use Rattle.lc_kernel.specs.Proofs as S;
ghost use Rattle.std.specs.Prelude.{◌≡◌, ◌+◌, ◌<◌, ◌^◌, [], ◌∷◌, IfOk, IsTrue};
ghost use Rattle.lc_array.specs.Axioms.{written as written_formula, same_index, affine_cell};
ghost use Rattle.lc_term.specs.Equal.{formula_eq};
ghost use Rattle.lc_term.specs.Places.{is_closed};
ghost use Rattle.lc_term.specs.Substitution.{instantiated};
ghost use Rattle.lc_term.specs.Syntax as T;
ghost use Rattle.lc_table.specs.NodeTables.{Table};
ghost use Rattle.lc_table.specs.Tables.{term_in, formula_in, formulas_in, IsTerm, IsFormula, AreFormulas, HasTerm, HasColumn, HasFormula, Keeps};
ghost use Rattle.lc_term.specs.View.{term_of, column_of, formula_of};

use crate::below::{column_below, formula_below, term_below};
use crate::fault::StepFault;
use crate::forms::{alternatives, apart, conjuncts, find, for_all, for_some, less, pair, pushed};
use crate::opened::{Branches, Opened, appending, count_branches};
use crate::reason::{Flaw, Reason};
use crate::setting::Setting;
use lc_array::{affine_axiom, same_index_axiom, written_axiom};
use lc_base::OutOfMemory;
use lc_put::instantiate;
use lc_table::{ColExprId, FormulaId, FormulaNode, TermId, Terms};
use lc_term::{ColExpr, Formula, Term, is_closed};
use std::alloc::Global;

/// `(split h P)`: of `(and F ..)` one branch, with each F.
pub(crate) fn split(
    alloc: Global,
    terms: &Terms,
    setting: Setting<'_>,
    hypothesis: i64,
) -> Result<Opened, StepFault>
    requires { IsSetting terms.now setting }
    ensures { StepMeets terms.now terms.now setting.entry (S.Split hypothesis) result }
{
    let formula = find(terms, setting, hypothesis)?;
    let parts = conjuncts(alloc, terms, formula)?;
    count_branches(setting.proofs, 1)?;
    Ok(Opened {
        variables: setting.variables,
        branches: Branches::One(parts),
    })
}

/// `(cases h P ..)`: of `(or F ..)` a branch for each F; of `(=> A B)` one with `(not A)` and one with `B`; of
/// `(not (and F ..))` a branch with `(not F)` for each F.
#[tactic(auto, using(lc_table::proofs::Later::keeps_itself))]
pub(crate) fn cases(
    alloc: Global,
    terms: &mut Terms,
    setting: Setting<'_>,
    hypothesis: i64,
) -> Result<Opened, StepFault>
    requires { IsSetting terms.old setting }
    ensures kept { Keeps terms.old terms.new }
    ensures step { StepMeets terms.old terms.new setting.entry (S.Cases hypothesis) result }
{
    let formula = find(terms, setting, hypothesis)?;
    let parts = alternatives(alloc, terms, formula)?;
    count_branches(setting.proofs, parts.len())?;
    Ok(Opened {
        variables: setting.variables,
        branches: Branches::Each(parts),
    })
}

/// `(push h P)`: of `(not F)` one branch, with the negation pushed into F.
#[tactic(auto, using(lc_table::proofs::Later::keeps_itself))]
pub(crate) fn push(
    alloc: Global,
    terms: &mut Terms,
    setting: Setting<'_>,
    hypothesis: i64,
) -> Result<Opened, StepFault>
    requires { IsSetting terms.old setting }
    ensures kept { Keeps terms.old terms.new }
    ensures step { StepMeets terms.old terms.new setting.entry (S.Push hypothesis) result }
{
    let formula = find(terms, setting, hypothesis)?;
    let formula = pushed(alloc, terms, formula)?;
    count_branches(setting.proofs, 1)?;
    Ok(appending(alloc, terms, setting.variables, formula)?)
}

/// The body of a quantifier, with a term for its variable.
#[tactic(auto, using(lc_table::proofs::Later::term_is, lc_table::proofs::Later::is_term_later, lc_table::proofs::Later::formula_still, lc_table::proofs::Later::is_formula_still, lc_table::proofs::Later::kept_on, lc_table::proofs::Later::keeps_itself))]
fn with_term(
    alloc: Global,
    terms: &mut Terms,
    body: FormulaId,
    term: &Term,
) -> Result<FormulaId, OutOfMemory>
    requires body { IsFormula terms.old body }
    requires closed { IsTrue (is_closed (term_of term.now)) }
    ensures id { IfOk result (λ k. HasFormula terms.new k (instantiated (term_of term.now) (formula_in terms.old body))) }
    ensures kept { Keeps terms.old terms.new }
{
    let put = terms.enter_term(term)?;
    instantiate(terms, alloc, body, put)
}

/// `(inst h T P)`: of `(forall x F)` one branch, with F where x is T. No quantifier is around T, so a bound
/// variable in it is none that is in use.
#[tactic(auto, using(lc_table::proofs::Later::formula_is, lc_table::proofs::Later::is_formula_later, lc_table::proofs::Later::keeps_itself))]
pub(crate) fn instantiated(
    alloc: Global,
    terms: &mut Terms,
    setting: Setting<'_>,
    hypothesis: i64,
    term: &Term,
) -> Result<Opened, StepFault>
    requires { IsSetting terms.old setting }
    ensures kept { Keeps terms.old terms.new }
    ensures step { StepMeets terms.old terms.new setting.entry (S.Instantiate hypothesis (term_of term.now)) result }
{
    let body = for_all(terms, find(terms, setting, hypothesis)?)?;
    count_branches(setting.proofs, 1)?;
    if !(term_below(setting.variables, term) && is_closed(term)) {
        return Err(StepFault::Flawed(Flaw::Bad(Reason::VariableNotInUse)));
    }
    let formula = with_term(alloc, terms, body, term)?;
    Ok(appending(alloc, terms, setting.variables, formula)?)
}

/// `(fresh h P)`: of `(exists x F)` one branch, with F where x is a new variable. Its number is the count of
/// variables, which rises by 1.
#[tactic(auto, using(lc_table::proofs::Later::formula_is, lc_table::proofs::Later::is_formula_later, lc_table::proofs::Later::keeps_itself))]
pub(crate) fn fresh(
    alloc: Global,
    terms: &mut Terms,
    setting: Setting<'_>,
    hypothesis: i64,
) -> Result<Opened, StepFault>
    requires numbers { IsSetting terms.old setting }
    requires variables { setting.variables + 1 < 2 ^ 32 }
    ensures kept { Keeps terms.old terms.new }
    ensures step { StepMeets terms.old terms.new setting.entry (S.Fresh hypothesis) result }
{
    let body = for_some(terms, find(terms, setting, hypothesis)?)?;
    count_branches(setting.proofs, 1)?;
    let witness = Term::Variable(setting.variables);
    let formula = with_term(alloc, terms, body, &witness)?;
    Ok(appending(alloc, terms, setting.variables + 1, formula)?)
}

/// `(not F)` and `F`.
#[tactic(auto, using(lc_table::proofs::Later::formula_is, lc_table::proofs::Later::formula_later, lc_table::proofs::Later::is_formula_later, lc_table::proofs::Later::kept_on, lc_table::proofs::Later::keeps_itself))]
fn both_ways(
    alloc: Global,
    terms: &mut Terms,
    formula: &Formula,
) -> Result<Vec<FormulaId>, OutOfMemory>
    ensures are { IfOk result (λ ks. AreFormulas terms.new ks.items) }
    ensures trees { IfOk result (λ ks. formulas_in terms.new ks.items ≡ T.Not (formula_of formula.now) ∷ formula_of formula.now ∷ []) }
    ensures kept { Keeps terms.old terms.new }
{
    let entered = terms.enter_formula(alloc, formula)?;
    let negated = terms.not(entered)?;
    pair(alloc, negated, entered)
}

/// `(cut F P Q)`: a branch with `(not F)` and one with `F`.
#[tactic(auto, using(lc_table::proofs::Later::keeps_itself))]
pub(crate) fn cut(
    alloc: Global,
    terms: &mut Terms,
    setting: Setting<'_>,
    formula: &Formula,
) -> Result<Opened, StepFault>
    ensures kept { Keeps terms.old terms.new }
    ensures step { StepMeets terms.old terms.new setting.entry (S.Cut (formula_of formula.now)) result }
{
    count_branches(setting.proofs, 2)?;
    if !formula_below(setting.variables, formula) {
        return Err(StepFault::Flawed(Flaw::Bad(Reason::VariableNotInUse)));
    }
    let both = both_ways(alloc, terms, formula)?;
    Ok(Opened {
        variables: setting.variables,
        branches: Branches::Each(both),
    })
}

/// A column expression and an index, entered.
#[tactic(auto, using(lc_table::proofs::Later::column_later, lc_table::proofs::Later::kept_on, lc_table::proofs::Later::keeps_itself))]
pub fn entered_cell(
    terms: &mut Terms,
    column: &ColExpr,
    index: &Term,
) -> Result<(ColExprId, TermId), OutOfMemory>
    ensures column { IfOk result (λ p. HasColumn terms.new p.0 (column_of column.now)) }
    ensures index { IfOk result (λ p. HasTerm terms.new p.1 (term_of index.now)) }
    ensures kept { Keeps terms.old terms.new }
{
    let column = terms.enter_column(column)?;
    let index = terms.enter_term(index)?;
    Ok((column, index))
}

/// Two terms, entered.
#[tactic(auto, using(lc_table::proofs::Later::term_later, lc_table::proofs::Later::kept_on, lc_table::proofs::Later::keeps_itself))]
pub fn entered_pair(
    terms: &mut Terms,
    first: &Term,
    second: &Term,
) -> Result<(TermId, TermId), OutOfMemory>
    ensures first { IfOk result (λ p. HasTerm terms.new p.0 (term_of first.now)) }
    ensures second { IfOk result (λ p. HasTerm terms.new p.1 (term_of second.now)) }
    ensures kept { Keeps terms.old terms.new }
{
    let first = terms.enter_term(first)?;
    let second = terms.enter_term(second)?;
    Ok((first, second))
}

#[tactic(auto, using(lc_table::proofs::Later::term_is, lc_table::proofs::Later::term_later, lc_table::proofs::Later::column_is, lc_table::proofs::Later::column_later, lc_table::proofs::Later::is_term_later, lc_table::proofs::Later::is_column_later, lc_table::proofs::Later::kept_on, lc_table::proofs::Later::keeps_itself))]
fn written_formula(
    alloc: Global,
    terms: &mut Terms,
    column: &ColExpr,
    index: &Term,
    value: &Term,
    other: &Term,
) -> Result<FormulaId, OutOfMemory>
    ensures id { IfOk result (λ k. HasFormula terms.new k (written_formula (column_of column.now) (term_of index.now) (term_of value.now) (term_of other.now))) }
    ensures kept { Keeps terms.old terms.new }
{
    let (column, index) = entered_cell(terms, column, index)?;
    let (value, other) = entered_pair(terms, value, other)?;
    written_axiom(terms, alloc, column, index, value, other)
}

#[tactic(auto, using(lc_table::proofs::Later::term_is, lc_table::proofs::Later::term_later, lc_table::proofs::Later::column_is, lc_table::proofs::Later::column_later, lc_table::proofs::Later::is_term_later, lc_table::proofs::Later::is_column_later, lc_table::proofs::Later::kept_on, lc_table::proofs::Later::keeps_itself))]
fn same_formula(
    alloc: Global,
    terms: &mut Terms,
    column: &ColExpr,
    index: &Term,
    other: &Term,
) -> Result<FormulaId, OutOfMemory>
    ensures id { IfOk result (λ k. HasFormula terms.new k (same_index (column_of column.now) (term_of index.now) (term_of other.now))) }
    ensures kept { Keeps terms.old terms.new }
{
    let (column, index) = entered_cell(terms, column, index)?;
    let other = terms.enter_term(other)?;
    same_index_axiom(terms, alloc, column, index, other)
}

#[tactic(auto, using(lc_table::proofs::Later::term_is, lc_table::proofs::Later::is_term_later, lc_table::proofs::Later::kept_on, lc_table::proofs::Later::keeps_itself))]
fn affine_formula(
    terms: &mut Terms,
    slope: i64,
    start: i64,
    index: &Term,
) -> Result<FormulaId, OutOfMemory>
    ensures id { IfOk result (λ k. HasFormula terms.new k (affine_cell slope start (term_of index.now))) }
    ensures kept { Keeps terms.old terms.new }
{
    let index = terms.enter_term(index)?;
    affine_axiom(terms, slope, start, index)
}

/// `(written C i v j P)`: one branch, with the axiom of a stored value.
#[tactic(auto, using(lc_table::proofs::Later::formula_is, lc_table::proofs::Later::is_formula_later, lc_table::proofs::Later::keeps_itself))]
pub(crate) fn written(
    alloc: Global,
    terms: &mut Terms,
    setting: Setting<'_>,
    column: &ColExpr,
    index: &Term,
    value: &Term,
    other: &Term,
) -> Result<Opened, StepFault>
    ensures kept { Keeps terms.old terms.new }
    ensures step { StepMeets terms.old terms.new setting.entry (S.Written (column_of column.now) (term_of index.now) (term_of value.now) (term_of other.now)) result }
{
    count_branches(setting.proofs, 1)?;
    if !(column_below(setting.variables, column)
        && term_below(setting.variables, index)
        && term_below(setting.variables, value)
        && term_below(setting.variables, other))
    {
        return Err(StepFault::Flawed(Flaw::Bad(Reason::VariableNotInUse)));
    }
    let formula = written_formula(alloc, terms, column, index, value, other)?;
    Ok(appending(alloc, terms, setting.variables, formula)?)
}

/// `(same C i j P)`: one branch, with the axiom of equal indexes.
#[tactic(auto, using(lc_table::proofs::Later::formula_is, lc_table::proofs::Later::is_formula_later, lc_table::proofs::Later::keeps_itself))]
pub(crate) fn same(
    alloc: Global,
    terms: &mut Terms,
    setting: Setting<'_>,
    column: &ColExpr,
    index: &Term,
    other: &Term,
) -> Result<Opened, StepFault>
    ensures kept { Keeps terms.old terms.new }
    ensures step { StepMeets terms.old terms.new setting.entry (S.Same (column_of column.now) (term_of index.now) (term_of other.now)) result }
{
    count_branches(setting.proofs, 1)?;
    if !(column_below(setting.variables, column)
        && term_below(setting.variables, index)
        && term_below(setting.variables, other))
    {
        return Err(StepFault::Flawed(Flaw::Bad(Reason::VariableNotInUse)));
    }
    let formula = same_formula(alloc, terms, column, index, other)?;
    Ok(appending(alloc, terms, setting.variables, formula)?)
}

/// `(affine a b i P)`: one branch, with the axiom of the column that has `a * i + b` at i.
#[tactic(auto, using(lc_table::proofs::Later::formula_is, lc_table::proofs::Later::is_formula_later, lc_table::proofs::Later::keeps_itself))]
pub(crate) fn affine(
    alloc: Global,
    terms: &mut Terms,
    setting: Setting<'_>,
    slope: i64,
    start: i64,
    index: &Term,
) -> Result<Opened, StepFault>
    ensures kept { Keeps terms.old terms.new }
    ensures step { StepMeets terms.old terms.new setting.entry (S.Affine slope start (term_of index.now)) result }
{
    count_branches(setting.proofs, 1)?;
    if !term_below(setting.variables, index) {
        return Err(StepFault::Flawed(Flaw::Bad(Reason::VariableNotInUse)));
    }
    let formula = affine_formula(terms, slope, start, index)?;
    Ok(appending(alloc, terms, setting.variables, formula)?)
}

/// Both orders of two terms: the first is less, the second is less.
#[tactic(auto, using(lc_table::proofs::Later::formula_is, lc_table::proofs::Later::formula_later, lc_table::proofs::Later::is_formula_later, lc_table::proofs::Later::is_term_still, lc_table::proofs::Later::term_still, lc_table::proofs::Later::kept_on, lc_table::proofs::Later::keeps_itself))]
fn both_orders(
    alloc: Global,
    terms: &mut Terms,
    left: TermId,
    right: TermId,
) -> Result<Vec<FormulaId>, OutOfMemory>
    requires left { IsTerm terms.old left }
    requires right { IsTerm terms.old right }
    ensures are { IfOk result (λ ks. AreFormulas terms.new ks.items) }
    ensures trees { IfOk result (λ ks. formulas_in terms.new ks.items ≡ less (term_in terms.old left) (term_in terms.old right) ∷ less (term_in terms.old right) (term_in terms.old left) ∷ []) }
    ensures kept { Keeps terms.old terms.new }
{
    let first = less(terms, left, right)?;
    let second = less(terms, right, left)?;
    pair(alloc, first, second)
}

/// `(trich h P Q)`: of `(not (= a b))` a branch with `a < b` and one with `b < a`.
#[tactic(auto, using(lc_table::proofs::Later::keeps_itself))]
pub(crate) fn trichotomy(
    alloc: Global,
    terms: &mut Terms,
    setting: Setting<'_>,
    hypothesis: i64,
) -> Result<Opened, StepFault>
    requires { IsSetting terms.old setting }
    ensures kept { Keeps terms.old terms.new }
    ensures step { StepMeets terms.old terms.new setting.entry (S.Trichotomy hypothesis) result }
{
    let (left, right) = apart(terms, find(terms, setting, hypothesis)?)?;
    count_branches(setting.proofs, 2)?;
    let both = both_orders(alloc, terms, left, right)?;
    Ok(Opened {
        variables: setting.variables,
        branches: Branches::Each(both),
    })
}

/// `(opposite h g)`: no branch; g is the negation of h. Only after this are the branches counted.
pub(crate) fn opposite(
    terms: &Terms,
    setting: Setting<'_>,
    hypothesis: i64,
    negation: i64,
) -> Result<Opened, StepFault>
    requires { IsSetting terms.now setting }
    ensures { StepMeets terms.now terms.now setting.entry (S.Opposite hypothesis negation) result }
{
    let formula = find(terms, setting, hypothesis)?;
    let negated = find(terms, setting, negation)?;
    if !is_negation(terms, negated, formula) {
        return Err(StepFault::Flawed(Flaw::Bad(Reason::NotOpposite)));
    }
    count_branches(setting.proofs, 0)?;
    Ok(Opened {
        variables: setting.variables,
        branches: Branches::Nothing,
    })
}

/// `(open)`: never holds. That is reported only if no proof is below it.
pub(crate) fn left_open(setting: Setting<'_>) -> Result<Opened, StepFault>
    ensures { (ts : Table) → StepMeets ts ts setting.entry S.Open result }
{
    count_branches(setting.proofs, 0)?;
    Err(StepFault::Flawed(Flaw::Bad(Reason::IsOpen)))
}

fn is_negation(terms: &Terms, negation: FormulaId, formula: FormulaId) -> bool
    requires negation { IsFormula terms.now negation }
    requires formula { IsFormula terms.now formula }
    ensures { result ≡ formula_eq (formula_in terms.now negation) (T.Not (formula_in terms.now formula)) }
{
    match terms.formula_node(negation) {
        FormulaNode::Not(inner) => terms.is_same_formula(*inner, formula),
        _ => false,
    }
}

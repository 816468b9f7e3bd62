//! Goals that say more apart.
ghost use Rattle.std.specs.Prelude.{◌<◌, length, IfOk};
ghost use Rattle.lc_table.specs.Tables.{AreFormulas, IsFormula};

use lc_base::OutOfMemory;
use lc_kernel::{Goal, Hypotheses};
use lc_table::{FormulaId, FormulaNode, Terms};
use std::alloc::Global;

/// The conjuncts of a formula: its parts if it is an `and`, else itself.
pub(crate) fn conjuncts(
    alloc: Global,
    terms: &Terms,
    formula: FormulaId,
) -> Result<Vec<FormulaId>, OutOfMemory>
    requires { IsFormula terms.now formula }
    ensures { IfOk result (λ parts. AreFormulas terms.now parts.items) }
{
    match terms.formula_node(formula) {
        FormulaNode::And(parts) => Ok(Vec::from_slice(alloc, parts)?),
        _ => Ok(Vec::from_slice(alloc, &[formula])?),
    }
}

/// Hypotheses with these in place of the one at a place.
pub(crate) fn replaced(
    alloc: Global,
    terms: &Terms,
    hypotheses: &[FormulaId],
    parts: &[FormulaId],
    place: usize,
) -> Result<Vec<FormulaId>, OutOfMemory>
    requires hypotheses { AreFormulas terms.now hypotheses.now }
    requires parts { AreFormulas terms.now parts.now }
    requires within { place < length hypotheses.now }
    ensures { IfOk result (λ all. AreFormulas terms.now all.items) }
{
    let _ = terms;
    let mut all = Vec::from_slice(alloc, &hypotheses[..place])?;
    all.extend_from_slice(parts)?;
    all.extend_from_slice(&hypotheses[place + 1..])?;
    Ok(all)
}

/// The formula at a place.
pub(crate) fn formula_at(terms: &Terms, formulas: &[FormulaId], place: usize) -> FormulaId
    requires formulas { AreFormulas terms.now formulas.now }
    requires within { place < length formulas.now }
    ensures { IsFormula terms.now result }
{
    let _ = terms;
    formulas[place]
}

/// A goal with the conjuncts of one of its hypotheses in place of it, and how many they are; none if it has no hypothesis there.
pub(crate) fn opened(
    alloc: Global,
    terms: &Terms,
    goal: &Goal,
    place: usize,
) -> Result<(Goal, usize), OutOfMemory>
    requires hypotheses { AreFormulas terms.now goal.now.hypotheses }
    requires goal { IsFormula terms.now goal.now.goal }
    ensures hypotheses { IfOk result (λ opened. AreFormulas terms.now opened.0.hypotheses) }
    ensures goal { IfOk result (λ opened. IsFormula terms.now opened.0.goal) }
{
    let all = goal.hypotheses.as_slice();
    if all.len() <= place {
        return Ok((asking(terms, goal, goal.goal)?, 0));
    }
    let hypothesis = formula_at(terms, all, place);
    let parts = conjuncts(alloc, terms, hypothesis)?;
    let hypotheses = replaced(alloc, terms, all, &parts, place)?;
    let opened = Goal {
        vars: goal.vars,
        hypotheses: Hypotheses::new(hypotheses)?,
        goal: goal.goal,
    };
    Ok((opened, parts.len()))
}

/// A goal that asks for another formula, under the same hypotheses.
pub(crate) fn asking(terms: &Terms, goal: &Goal, formula: FormulaId) -> Result<Goal, OutOfMemory>
    requires hypotheses { AreFormulas terms.now goal.now.hypotheses }
    requires goal { IsFormula terms.now formula }
    ensures hypotheses { IfOk result (λ asking. AreFormulas terms.now asking.hypotheses) }
    ensures goal { IfOk result (λ asking. IsFormula terms.now asking.goal) }
{
    let _ = terms;
    Ok(Goal {
        vars: goal.vars,
        hypotheses: goal.hypotheses.share()?,
        goal: formula,
    })
}

//! Formulas of a table that compare two terms, replaced. One whose terms stay keeps its number.
ghost use Rattle.std.specs.Prelude.{◌≡◌, IfOk, OnOk};
ghost use Rattle.lc_put.specs.Filling.{Stands};
ghost use Rattle.lc_term.specs.Replacement.{replace, replace_term, under_many};
ghost use Rattle.lc_term.specs.Syntax as S;
ghost use Rattle.lc_table.specs.Tables.{term_in, formula_in, IsTerm, IsFormula, HasTerm, HasFormula, Keeps};

use crate::deep::LEVELS;
use crate::filling::{Filled, Filling};
use crate::put::ReplacedNodes;
use crate::replacing::replaced_term;
use lc_base::OutOfMemory;
use lc_table::{FormulaId, TermId, TermNode, Terms};
use std::alloc::Global;

// A side of a comparison, replaced. A number, as one of them often is, stays.
#[inline(always)]
#[tactic(auto, using(lc_table::proofs::Later::keeps_itself, crate::proofs::NodeReplacement::term_at, lc_table::proofs::Later::term_stands))]
fn replaced_side<R: Filled>(
    table: &mut Terms,
    alloc: Global,
    put: &Filling<'_>,
    done: &mut ReplacedNodes,
    term: TermId,
    depth: u32,
) -> Result<TermId, OutOfMemory>
    requires there { IsTerm table.old term }
    requires done { Stands R.replacement table.old put.now done.old }
    ensures id { IfOk result (λ k. HasTerm table.new k (replace_term (under_many depth R.replacement) (term_in table.old term))) }
    ensures kept { Keeps table.old table.new }
    ensures done { OnOk result (Stands R.replacement table.new put.now done.new) }
{
    if let TermNode::Number(_) = table.part_node(term.0) {
        return Ok(term);
    }
    Ok(replaced_term::<R>(table, alloc, put, done, term, depth, LEVELS)?)
}

// The two terms of a comparison, replaced.
#[inline(always)]
#[tactic(auto, using(lc_table::proofs::Later::kept_on, lc_table::proofs::Later::term_later, lc_table::proofs::Later::term_still, lc_table::proofs::Later::is_term_still))]
fn replaced_sides<R: Filled>(
    table: &mut Terms,
    alloc: Global,
    put: &Filling<'_>,
    done: &mut ReplacedNodes,
    sides: (TermId, TermId),
    depth: u32,
) -> Result<(TermId, TermId), OutOfMemory>
    requires left { IsTerm table.old sides.0 }
    requires right { IsTerm table.old sides.1 }
    requires done { Stands R.replacement table.old put.now done.old }
    ensures left { IfOk result (λ k. HasTerm table.new k.0 (replace_term (under_many depth R.replacement) (term_in table.old sides.0))) }
    ensures right { IfOk result (λ k. HasTerm table.new k.1 (replace_term (under_many depth R.replacement) (term_in table.old sides.1))) }
    ensures kept { Keeps table.old table.new }
    ensures done { OnOk result (Stands R.replacement table.new put.now done.new) }
{
    let left = replaced_side::<R>(table, alloc, put, done, sides.0, depth)?;
    let right = replaced_side::<R>(table, alloc, put, done, sides.1, depth)?;
    Ok((left, right))
}

// That one term is at most another, replaced: the formula itself if its terms stay.
#[tactic(auto, using(lc_table::proofs::Later::kept_on, crate::proofs::NodeReplacement::le_stays, crate::proofs::NodeReplacement::le_made))]
pub(crate) fn replaced_le<R: Filled>(
    table: &mut Terms,
    alloc: Global,
    put: &Filling<'_>,
    done: &mut ReplacedNodes,
    formula: FormulaId,
    sides: (TermId, TermId),
    depth: u32,
) -> Result<FormulaId, OutOfMemory>
    requires there { IsFormula table.old formula }
    requires left { IsTerm table.old sides.0 }
    requires right { IsTerm table.old sides.1 }
    requires tree { formula_in table.old formula ≡ S.Le (term_in table.old sides.0) (term_in table.old sides.1) }
    requires done { Stands R.replacement table.old put.now done.old }
    ensures id { IfOk result (λ k. HasFormula table.new k (replace (under_many depth R.replacement) (formula_in table.old formula))) }
    ensures kept { Keeps table.old table.new }
    ensures done { OnOk result (Stands R.replacement table.new put.now done.new) }
{
    let (left, right) = replaced_sides::<R>(table, alloc, put, done, sides, depth)?;
    if left == sides.0 && right == sides.1 {
        return Ok(formula);
    }
    Ok(table.le(left, right)?)
}

// That two terms are equal, replaced: the formula itself if its terms stay.
#[tactic(auto, using(lc_table::proofs::Later::kept_on, crate::proofs::NodeReplacement::eq_stays, crate::proofs::NodeReplacement::eq_made))]
pub(crate) fn replaced_eq<R: Filled>(
    table: &mut Terms,
    alloc: Global,
    put: &Filling<'_>,
    done: &mut ReplacedNodes,
    formula: FormulaId,
    sides: (TermId, TermId),
    depth: u32,
) -> Result<FormulaId, OutOfMemory>
    requires there { IsFormula table.old formula }
    requires left { IsTerm table.old sides.0 }
    requires right { IsTerm table.old sides.1 }
    requires tree { formula_in table.old formula ≡ S.Eq (term_in table.old sides.0) (term_in table.old sides.1) }
    requires done { Stands R.replacement table.old put.now done.old }
    ensures id { IfOk result (λ k. HasFormula table.new k (replace (under_many depth R.replacement) (formula_in table.old formula))) }
    ensures kept { Keeps table.old table.new }
    ensures done { OnOk result (Stands R.replacement table.new put.now done.new) }
{
    let (left, right) = replaced_sides::<R>(table, alloc, put, done, sides, depth)?;
    if left == sides.0 && right == sides.1 {
        return Ok(formula);
    }
    Ok(table.eq(left, right)?)
}

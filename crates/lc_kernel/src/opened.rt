//! What a step opens: branches, and the formulas that each of them gains.
ghost use Rattle.std.specs.Prelude.{◌≡◌, ◌==◌, ◌<◌, ◌++◌, OnOk, IfOk};
ghost use Rattle.lc_kernel.specs.Answers.{Tests};
ghost use Rattle.lc_kernel.specs.Branches.{branches_in, AreBranches, branch_count, branch_at};
ghost use Rattle.lc_kernel.specs.Table.{opens, Appends};
ghost use Rattle.lc_table.specs.Tables.{formula_in, IsFormula};
ghost use Rattle.lc_kernel.specs.declared.reason.Reason.TheVariants.{WrongForm};

use crate::reason::{Flaw, Reason};
use lc_base::OutOfMemory;
use lc_table::{FormulaId, Terms};
use std::alloc::Global;

/// The branches that a step opens, by the formulas that are appended to the hypotheses in each.
#[derive(Drop)]
pub(crate) enum Branches {
    /// No branch.
    Nothing,
    /// One branch, with all these formulas.
    One(Vec<FormulaId>),
    /// A branch for each formula.
    Each(Vec<FormulaId>),
}

/// What a step opens.
#[derive(Drop)]
pub(crate) struct Opened {
    /// How many variables are in use in the branches.
    pub(crate) variables: u32,
    pub(crate) branches: Branches,
}

/// Tests that there are as many proofs below a step as it opens branches.
pub(crate) fn count_branches(proofs: usize, branches: usize) -> Result<(), Flaw>
    ensures { Tests (proofs == branches) WrongForm result }
{
    if proofs == branches {
        Ok(())
    } else {
        Err(Flaw::Bad(Reason::WrongForm))
    }
}

/// Appends the formulas of a branch.
pub(crate) fn append_branch(
    appended: &mut Vec<FormulaId>,
    branches: &Branches,
    index: usize,
) -> Result<(), OutOfMemory>
    requires { index < branch_count branches.now }
    ensures { OnOk result (appended.new.items ≡ appended.old.items ++ branch_at branches.now index) }
{
    match branches {
        Branches::Nothing => {}
        Branches::One(formulas) => appended.extend_from_slice(formulas)?,
        Branches::Each(formulas) => appended.push(formulas[index])?,
    }
    Ok(())
}

/// One branch, with one formula.
pub(crate) fn appending(
    alloc: Global,
    terms: &Terms,
    variables: u32,
    formula: FormulaId,
) -> Result<Opened, OutOfMemory>
    requires { IsFormula terms.now formula }
    ensures are { IfOk result (λ opened. AreBranches terms.now opened.branches) }
    ensures appends { IfOk result (λ opened. Appends variables (formula_in terms.now formula) (opens opened.variables (branches_in terms.now opened.branches))) }
{
    let _ = terms;
    Ok(Opened {
        variables,
        branches: Branches::One(Vec::from_array(alloc, [formula])?),
    })
}

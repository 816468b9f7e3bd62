//! The type of goals: hypotheses and a formula, by numbers of one table.
ghost use Rattle.std.specs.Prelude.{◌≡◌, ◌&&◌, IfOk};
ghost use Rattle.lc_kernel.specs.Below.{all_below, formula_below};
ghost use Rattle.lc_table.specs.Tables.{formula_in, formulas_in, IsFormula, AreFormulas};

use crate::hypotheses::Hypotheses;
use crate::uses::{InUse, are_formulas_below, is_formula_below, nothing_known};
use lc_base::OutOfMemory;
use lc_table::{FormulaId, Terms};
use std::alloc::Global;

/// What a proof is to show: that a formula follows from hypotheses, which are all in one table.
#[derive(Drop)]
pub struct Goal {
    /// How many free variables there are: those with numbers below this.
    pub vars: u32,
    pub hypotheses: Hypotheses,
    pub goal: FormulaId,
}

impl Goal {
    /// Whether each free variable of the hypotheses and of the goal is one of those that there are, as `prove` asks.
    /// It looks at each hypothesis.
    pub fn uses_its_variables(&self, alloc: Global, terms: &Terms) -> Result<bool, OutOfMemory>
        requires hypotheses { AreFormulas terms.now self.now.hypotheses }
        requires goal { IsFormula terms.now self.now.goal }
        ensures { IfOk result (λ yes'. yes' ≡ (all_below self.now.vars (formulas_in terms.now self.now.hypotheses) && formula_below self.now.vars (formula_in terms.now self.now.goal))) }
    {
        let in_use = InUse {
            terms,
            count: self.vars,
        };
        let mut known = nothing_known(alloc);
        if !are_formulas_below(in_use, self.hypotheses.as_slice(), &mut known)? {
            return Ok(false);
        }
        is_formula_below(in_use, self.goal, &mut known)
    }
}

//! What formulas are made of, as the rules of derivations take them.

use super::Nodes;
use lc_farkas::Stop;
use lc_table::{FormulaId, FormulaNode, TermId};

impl Nodes {
    /// The parts of `(and F ..)`; none of other formulas.
    pub fn conjuncts(&self, formula: FormulaId) -> Result<Option<Vec<FormulaId>>, Stop> {
        match self.formula_node(formula) {
            Some(FormulaNode::And(parts)) => Ok(Some(Vec::from_slice(self.alloc, parts)?)),
            _ => Ok(None),
        }
    }

    /// The sides of an equation.
    pub fn equated(&self, formula: FormulaId) -> Option<(TermId, TermId)> {
        match self.formula_node(formula) {
            Some(FormulaNode::Eq(left, right)) => Some((*left, *right)),
            _ => None,
        }
    }

    /// What `(not F)` denies.
    pub fn denied(&self, formula: FormulaId) -> Option<FormulaId> {
        match self.formula_node(formula) {
            Some(FormulaNode::Not(inner)) => Some(*inner),
            _ => None,
        }
    }

    /// The parts of `(or F ..)`, or of a formula that `pushed` takes for one: a copy, so that the table can grow.
    fn disjuncts(&self, formula: FormulaId) -> Result<Option<Vec<FormulaId>>, Stop> {
        match self.formula_node(formula) {
            Some(FormulaNode::Or(parts)) => Ok(Some(Vec::from_slice(self.alloc, parts)?)),
            _ => Ok(None),
        }
    }

    /// The sides of an implication.
    fn implied(&self, formula: FormulaId) -> Option<(FormulaId, FormulaId)> {
        match self.formula_node(formula) {
            Some(FormulaNode::Implies(left, right)) => Some((*left, *right)),
            _ => None,
        }
    }

    /// The sides of `(<= t u)`.
    fn ordered(&self, formula: FormulaId) -> Option<(TermId, TermId)> {
        match self.formula_node(formula) {
            Some(FormulaNode::Le(left, right)) => Some((*left, *right)),
            _ => None,
        }
    }

    /// The body of a quantifier, and whether it is `forall`.
    pub fn quantified(&self, formula: FormulaId) -> Option<(FormulaId, bool)> {
        match self.formula_node(formula) {
            Some(FormulaNode::Forall(body)) => Some((*body, true)),
            Some(FormulaNode::Exists(body)) => Some((*body, false)),
            _ => None,
        }
    }

    /// `(not F)` with the negation pushed inward; none of an equation, of a conjunction and of what is no negation.
    pub fn pushed(&mut self, formula: FormulaId) -> Result<Option<FormulaId>, Stop> {
        let Some(inner) = self.denied(formula) else {
            return Ok(None);
        };
        if let Some(twice) = self.denied(inner) {
            return Ok(Some(twice));
        }
        if let Some((left, right)) = self.ordered(inner) {
            return Ok(Some(self.less(right, left)?));
        }
        if let Some((left, right)) = self.implied(inner) {
            let negated = self.not(right)?;
            let parts = self.pair(left, negated)?;
            return Ok(Some(self.and(parts)?));
        }
        if let Some((body, is_forall)) = self.quantified(inner) {
            return Ok(Some(self.dual(body, is_forall)?));
        }
        self.none_of(inner)
    }

    /// The other quantifier over the negated body.
    fn dual(&mut self, body: FormulaId, is_forall: bool) -> Result<FormulaId, Stop> {
        let negated = self.not(body)?;
        if is_forall {
            self.exists(negated)
        } else {
            self.forall(negated)
        }
    }

    /// Of `(or F ..)` the formula `(and (not F) ..)`.
    fn none_of(&mut self, formula: FormulaId) -> Result<Option<FormulaId>, Stop> {
        let Some(parts) = self.disjuncts(formula)? else {
            return Ok(None);
        };
        let negated = self.not_each(&parts)?;
        Ok(Some(self.and(negated)?))
    }

    /// The branches that a formula has: the parts of `(or F ..)`; `(not A)` and `B` of `(=> A B)`; each `(not F)` of
    /// `(not (and F ..))`; both orders of `(not (= a b))`.
    fn branches_of(&mut self, formula: FormulaId) -> Result<Option<Vec<FormulaId>>, Stop> {
        if let Some((left, right)) = self.implied(formula) {
            let negated = self.not(left)?;
            return Ok(Some(self.pair(negated, right)?));
        }
        let Some(inner) = self.denied(formula) else {
            return self.disjuncts(formula);
        };
        if let Some((left, right)) = self.equated(inner) {
            let first = self.less(left, right)?;
            let second = self.less(right, left)?;
            return Ok(Some(self.pair(first, second)?));
        }
        match self.conjuncts(inner)? {
            Some(parts) => Ok(Some(self.not_each(&parts)?)),
            None => Ok(None),
        }
    }

    /// Learns the branches of a formula.
    pub fn learn_parts(&mut self, formula: FormulaId) -> Result<(), Stop> {
        if self.alternatives.contains_key(&formula) {
            return Ok(());
        }
        if let Some(parts) = self.branches_of(formula)? {
            self.alternatives.insert(formula, parts)?;
        }
        Ok(())
    }

    /// The branches of a formula, as they were learnt; none if it has no choice of branches.
    pub fn parts(&self, formula: FormulaId) -> Option<&[FormulaId]> {
        match self.alternatives.get(&formula) {
            Some(parts) => Some(parts.as_slice()),
            None => None,
        }
    }
}

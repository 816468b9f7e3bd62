//! Linear forms of terms and of comparisons, and terms of linear forms.

use super::Nodes;
use crate::form::Form;
use lc_farkas::Stop;
use lc_table::{FormulaId, FormulaNode, TermId, TermNode};

/// This many times, in 64 bits.
pub fn narrow(number: i128) -> Result<i64, Stop> {
    i64::try_from(number).map_err(|_| Stop::Large)
}

impl Nodes {
    /// The form of a term.
    pub(super) fn form_of(&self, term: TermId) -> Result<Form, Stop> {
        let mut form = Form::constant(self.alloc, 0);
        self.add_term(&mut form, term, 1)?;
        Ok(form)
    }

    /// Adds `count` times a term. What is still to be added waits in a list, so that a deep term takes nothing of the stack.
    fn add_term(&self, form: &mut Form, term: TermId, count: i128) -> Result<(), Stop> {
        let mut due = Vec::new(self.alloc);
        self.add_node(form, term, count, &mut due)?;
        for _ in 0..u64::MAX {
            match due.pop() {
                Some((term, count)) => self.add_node(form, term, count, &mut due)?,
                None => return Ok(()),
            }
        }
        Err(Stop::Spent)
    }

    /// Adds `count` times a term that is no sum; the parts of a sum are put into `due`.
    fn add_node(
        &self,
        form: &mut Form,
        term: TermId,
        count: i128,
        due: &mut Vec<(TermId, i128)>,
    ) -> Result<(), Stop> {
        let Some(node) = self.term_node(term) else {
            return Ok(());
        };
        match node {
            TermNode::Number(number) => {
                form.add_number(count.checked_mul(i128::from(number)).ok_or(Stop::Large)?)?;
            }
            TermNode::Variable(_) | TermNode::Bound(_) | TermNode::Read(_, _) => {
                form.add_atom(term, count)?;
            }
            TermNode::Add(left, right) => {
                due.push((right, count))?;
                due.push((left, count))?;
            }
            TermNode::Subtract(left, right) => {
                due.push((right, count.checked_neg().ok_or(Stop::Large)?))?;
                due.push((left, count))?;
            }
            TermNode::Multiply(factor, term) => {
                due.push((
                    term,
                    count.checked_mul(i128::from(factor)).ok_or(Stop::Large)?,
                ))?;
            }
            TermNode::Base(_) | TermNode::Store(_, _, _) | TermNode::Affine(_, _) => {}
        }
        Ok(())
    }

    /// The form of a term, as it was learnt.
    pub fn form(&self, term: TermId) -> Option<&Form> {
        self.forms.get(&term)
    }

    /// The sides of a comparison.
    pub fn sides(&self, formula: FormulaId) -> Option<(TermId, TermId)> {
        match self.formula_node(formula) {
            Some(FormulaNode::Le(left, right)) | Some(FormulaNode::Eq(left, right)) => {
                Some((*left, *right))
            }
            _ => None,
        }
    }

    /// Learns the form of the difference of a comparison's sides.
    pub fn learn_gap(&mut self, formula: FormulaId) -> Result<(), Stop> {
        if self.gaps.contains_key(&formula) {
            return Ok(());
        }
        let Some((left, right)) = self.sides(formula) else {
            return Ok(());
        };
        let mut gap = Form::constant(self.alloc, 0);
        self.add_term(&mut gap, left, 1)?;
        self.add_term(&mut gap, right, -1)?;
        self.gaps.insert(formula, gap)?;
        Ok(())
    }

    /// The form of the difference of a comparison's sides, as it was learnt.
    pub fn gap(&self, formula: FormulaId) -> Option<&Form> {
        self.gaps.get(&formula)
    }

    /// A sum with a multiple of a term added.
    fn with_product(
        &mut self,
        sum: Option<TermId>,
        term: TermId,
        number: i64,
    ) -> Result<TermId, Stop> {
        let product = if number == 1 {
            term
        } else {
            self.multiply(number, term)?
        };
        match sum {
            Some(sum) => self.add(sum, product),
            None => Ok(product),
        }
    }

    /// A term that is a sum of atoms; 0 if there are none.
    fn sum_of(&mut self, summands: &[(TermId, i128)]) -> Result<TermId, Stop> {
        let mut sum = None;
        for (atom, number) in summands {
            sum = Some(self.with_product(sum, *atom, narrow(*number)?)?);
        }
        match sum {
            Some(sum) => Ok(sum),
            None => self.number(0),
        }
    }

    /// A `<=` whose form is that of another one, divided by a divisor of its numbers and rounded up.
    pub fn quotient(&mut self, form: &Form, divisor: i128) -> Result<FormulaId, Stop> {
        let mut summands = Vec::with_capacity(self.alloc, form.summands.len())?;
        for (atom, number) in &form.summands {
            summands.push((*atom, number.checked_div(divisor).ok_or(Stop::Large)?))?;
        }
        // The constant goes to the other side: rounded up here is rounded down there.
        let opposite = form.constant.checked_neg().ok_or(Stop::Large)?;
        let right = narrow(opposite.checked_div_euclid(divisor).ok_or(Stop::Large)?)?;
        let left = self.sum_of(&summands)?;
        let right = self.number(right)?;
        self.le(left, right)
    }
}

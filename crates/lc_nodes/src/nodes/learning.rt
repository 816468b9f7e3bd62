//! What occurs in terms and formulas: looked for once.

use super::{Learnt, Nodes};
use indexmap::IndexSet;
use lc_farkas::Stop;
use lc_table::{ColExprId, FormulaId, FormulaNode, TermId, TermNode};

/// What is still to be looked at. It waits in a list, the next one last, so that a deep formula takes nothing of the stack.
#[derive(Clone, Copy)]
enum Due {
    Formula(FormulaId),
    /// A side of a comparison.
    Side(TermId),
    Term(TermId),
    /// A read whose parts were looked at.
    Read(TermId),
}

impl Nodes {
    /// Nothing learnt yet.
    fn nothing_learnt(&self) -> Learnt {
        Learnt {
            reads: IndexSet::new(self.alloc),
            compared: IndexSet::new(self.alloc),
            variables: IndexSet::new(self.alloc),
        }
    }

    /// Learns what occurs in a formula.
    pub fn learn(&mut self, formula: FormulaId) -> Result<(), Stop> {
        if self.learnt.contains_key(&formula) {
            return Ok(());
        }
        let learnt = self.gathered(formula)?;
        self.learnt.insert(formula, learnt)?;
        Ok(())
    }

    /// Learns what occurs in a term, and its form.
    pub fn learn_term(&mut self, term: TermId) -> Result<(), Stop> {
        if self.learnt_terms.contains_key(&term) {
            return Ok(());
        }
        let learnt = self.gathered_variables(term)?;
        let form = self.form_of(term)?;
        self.forms.insert(term, form)?;
        self.learnt_terms.insert(term, learnt)?;
        Ok(())
    }

    /// The closed reads of a formula, inner ones first, as they were learnt.
    pub fn reads(&self, formula: FormulaId) -> &[TermId] {
        match self.learnt.get(&formula) {
            Some(learnt) => learnt.reads.as_slice(),
            None => &[],
        }
    }

    /// The closed sides of a formula's comparisons, as they were learnt.
    pub fn compared(&self, formula: FormulaId) -> &[TermId] {
        match self.learnt.get(&formula) {
            Some(learnt) => learnt.compared.as_slice(),
            None => &[],
        }
    }

    /// The free variables of a formula, as they were learnt.
    pub fn variables(&self, formula: FormulaId) -> &[u32] {
        match self.learnt.get(&formula) {
            Some(learnt) => learnt.variables.as_slice(),
            None => &[],
        }
    }

    /// The free variables of a term, as they were learnt.
    pub fn term_variables(&self, term: TermId) -> &[u32] {
        match self.learnt_terms.get(&term) {
            Some(learnt) => learnt.variables.as_slice(),
            None => &[],
        }
    }

    /// A read of a formula by its place.
    pub fn read_at(&self, formula: FormulaId, place: usize) -> Option<TermId> {
        self.reads(formula).get(place).copied()
    }

    /// What occurs in a formula, the parts of each node before it and in their order.
    fn gathered(&self, formula: FormulaId) -> Result<Learnt, Stop> {
        let mut learnt = self.nothing_learnt();
        let mut due = Vec::new(self.alloc);
        due.push(Due::Formula(formula))?;
        for _ in 0..u64::MAX {
            match due.pop() {
                Some(next) => self.gather(next, &mut learnt, &mut due)?,
                None => return Ok(learnt),
            }
        }
        Err(Stop::Spent)
    }

    /// The free variables of a term alone, in the order in which they come. A part whose variables were learnt is not walked again.
    fn gathered_variables(&self, term: TermId) -> Result<Learnt, Stop> {
        let mut learnt = self.nothing_learnt();
        let mut due = Vec::new(self.alloc);
        due.push(Due::Term(term))?;
        for _ in 0..u64::MAX {
            match due.pop() {
                Some(Due::Term(part)) if self.learnt_terms.contains_key(&part) => {
                    for variable in self.term_variables(part) {
                        learnt.variables.insert(*variable)?;
                    }
                }
                Some(next) => self.gather(next, &mut learnt, &mut due)?,
                None => return self.variables_alone(&learnt),
            }
        }
        Err(Stop::Spent)
    }

    /// The variables of what was learnt, alone.
    fn variables_alone(&self, learnt: &Learnt) -> Result<Learnt, Stop> {
        let mut alone = self.nothing_learnt();
        for variable in learnt.variables.as_slice() {
            alone.variables.insert(*variable)?;
        }
        Ok(alone)
    }

    /// Notes the next node; its parts are put into `due`, to come before what is there already.
    fn gather(&self, next: Due, learnt: &mut Learnt, due: &mut Vec<Due>) -> Result<(), Stop> {
        match next {
            Due::Formula(formula) => self.gather_formula(formula, due),
            Due::Side(side) => self.gather_side(side, learnt, due),
            Due::Term(term) => self.gather_term(term, learnt, due),
            Due::Read(read) => self.note_read(read, learnt),
        }
    }

    /// Notes a term without parts; the parts of another one are put into `due`.
    fn gather_term(
        &self,
        term: TermId,
        learnt: &mut Learnt,
        due: &mut Vec<Due>,
    ) -> Result<(), Stop> {
        if learnt.reads.contains(&term) {
            return Ok(());
        }
        match self.term_node(term) {
            Some(TermNode::Variable(number)) => {
                learnt.variables.insert(number)?;
            }
            Some(TermNode::Add(left, right)) | Some(TermNode::Subtract(left, right)) => {
                due.push(Due::Term(right))?;
                due.push(Due::Term(left))?;
            }
            Some(TermNode::Multiply(_, term)) => due.push(Due::Term(term))?,
            Some(TermNode::Read(column, index)) => {
                due.push(Due::Read(term))?;
                due.push(Due::Term(index))?;
                self.gather_column(column, due)?;
            }
            Some(TermNode::Number(_))
            | Some(TermNode::Bound(_))
            | Some(TermNode::Base(_))
            | Some(TermNode::Store(_, _, _))
            | Some(TermNode::Affine(_, _))
            | None => {}
        }
        Ok(())
    }

    /// Puts into `due` what occurs in the stores of a column expression, the innermost first.
    fn gather_column(&self, column: ColExprId, due: &mut Vec<Due>) -> Result<(), Stop> {
        let mut rest = column;
        for _ in 0..self.parts.len() {
            let Some(TermNode::Store(below, index, value)) = self.column_node(rest) else {
                break;
            };
            due.push(Due::Term(value))?;
            due.push(Due::Term(index))?;
            rest = below;
        }
        Ok(())
    }

    /// Notes a read if it is closed.
    fn note_read(&self, read: TermId, learnt: &mut Learnt) -> Result<(), Stop> {
        if self.term_loose(read) == 0 {
            learnt.reads.insert(read)?;
        }
        Ok(())
    }

    /// Notes a side of a comparison, and puts what occurs in it into `due`.
    fn gather_side(
        &self,
        side: TermId,
        learnt: &mut Learnt,
        due: &mut Vec<Due>,
    ) -> Result<(), Stop> {
        if self.term_loose(side) == 0 {
            learnt.compared.insert(side)?;
        }
        due.push(Due::Term(side))?;
        Ok(())
    }

    /// Puts the parts of a formula into `due`.
    fn gather_formula(&self, formula: FormulaId, due: &mut Vec<Due>) -> Result<(), Stop> {
        match self.formula_node(formula) {
            Some(FormulaNode::Le(left, right)) | Some(FormulaNode::Eq(left, right)) => {
                due.push(Due::Side(*right))?;
                due.push(Due::Side(*left))?;
            }
            Some(FormulaNode::And(parts)) | Some(FormulaNode::Or(parts)) => {
                for part in parts.iter().rev() {
                    due.push(Due::Formula(*part))?;
                }
            }
            Some(FormulaNode::Implies(left, right)) => {
                due.push(Due::Formula(*right))?;
                due.push(Due::Formula(*left))?;
            }
            Some(FormulaNode::Not(inner))
            | Some(FormulaNode::Forall(inner))
            | Some(FormulaNode::Exists(inner)) => due.push(Due::Formula(*inner))?,
            None => {}
        }
        Ok(())
    }
}

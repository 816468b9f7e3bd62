//! Blocks of quantifiers, and the places of their variables in indexes.

use crate::scanning::{Comparison, Place, found_in};
use crate::work::Work;
use indexmap::IndexMap;
use lc_base::ColId;
use lc_farkas::Stop;
use lc_nodes::{Form, Nodes};
use lc_search_model::DEEPEST;
use lc_table::{FormulaId, FormulaNode, TermId, TermNode};
use std::alloc::Global;

/// A place where a variable of a block is an index under a base column: the index is a multiple of the variable, and a rest
/// without bound variables.
#[derive(Clone, Copy)]
pub(crate) struct Slot {
    /// The variable, by the number of quantifiers of the block that are inside its own.
    pub(crate) variable: u32,
    pub(crate) column: ColId,
    /// How many times the variable; not 0.
    pub(crate) factor: i128,
    /// None for 0.
    pub(crate) rest: Option<TermId>,
}

/// What a variable of a block is if both sides of a comparison in its body are equal.
#[derive(Clone, Copy)]
pub(crate) struct Solution {
    pub(crate) variable: u32,
    pub(crate) term: TermId,
}

/// Quantifiers that stand directly inside each other.
#[derive(Drop)]
pub(crate) struct Block {
    pub(crate) body: FormulaId,
    pub(crate) count: u32,
    pub(crate) slots: Vec<Slot>,
    pub(crate) solutions: Vec<Solution>,
}

/// What is remembered of blocks, and of terms of one form.
pub(crate) struct Blocks {
    pub(crate) alloc: Global,
    blocks: IndexMap<FormulaId, Block>,
    /// Of a term, the one of its form that stands for all of them.
    standard: IndexMap<TermId, TermId>,
    /// Terms of the hints.
    pub(crate) uses: Vec<TermId>,
    /// How many variables the goal has.
    pub(crate) variables: u32,
    /// What was counted of the work.
    pub(crate) work: Work,
}

impl Drop for Blocks {
    fn drop(self) {
        let Blocks {
            alloc: _,
            blocks: _,
            standard: _,
            uses: _,
            variables: _,
            work: _,
        } = self;
    }
}

impl Blocks {
    /// Nothing is remembered.
    pub(crate) fn new(alloc: Global, variables: u32) -> Blocks {
        Blocks {
            alloc,
            blocks: IndexMap::new(alloc),
            standard: IndexMap::new(alloc),
            uses: Vec::new(alloc),
            variables,
            work: Work::new(),
        }
    }

    /// The block that begins with a formula, if it was learnt and is one.
    pub(crate) fn block(&self, formula: FormulaId) -> Option<&Block> {
        self.blocks.get(&formula)
    }

    /// Learns the block that begins with a formula.
    pub(crate) fn learn(&mut self, nodes: &mut Nodes, formula: FormulaId) -> Result<(), Stop> {
        if self.blocks.contains_key(&formula) {
            return Ok(());
        }
        let (body, count) = inside(nodes, formula);
        let found = found_in(self.alloc, nodes, body)?;
        let mut slots = Vec::new(self.alloc);
        for place in &found.indexes {
            if let Some(slot) = slot_of(nodes, self.alloc, *place)? {
                slots.push(slot)?;
            }
        }
        let mut solutions = Vec::new(self.alloc);
        for comparison in &found.comparisons {
            if let Some(solution) = solution_of(nodes, self.alloc, *comparison)? {
                solutions.push(solution)?;
            }
        }
        let block = Block {
            body,
            count,
            slots,
            solutions,
        };
        self.blocks.insert(formula, block)?;
        Ok(())
    }

    /// The term that stands for all of the form of this one.
    pub(crate) fn standard_of(&mut self, nodes: &mut Nodes, term: TermId) -> Result<TermId, Stop> {
        if let Some(standard) = self.standard.get(&term) {
            return Ok(*standard);
        }
        let form = form_of(nodes, self.alloc, term)?;
        let standard = term_of_form(nodes, &form)?;
        self.standard.insert(term, standard)?;
        Ok(standard)
    }
}

/// The formula inside of all quantifiers that a formula begins with, and how many these are.
fn inside(nodes: &Nodes, formula: FormulaId) -> (FormulaId, u32) {
    let mut body = formula;
    let mut count: u32 = 0;
    for _ in 0..DEEPEST {
        let Some(FormulaNode::Forall(inner)) = nodes.formula_node(body) else {
            break;
        };
        body = *inner;
        count = count.saturating_add(1);
    }
    (body, count)
}

/// The form of a term.
pub(crate) fn form_of(nodes: &mut Nodes, alloc: Global, term: TermId) -> Result<Form, Stop> {
    nodes.learn_term(term)?;
    match nodes.form(term) {
        Some(form) => form.try_clone(alloc),
        None => Ok(Form::constant(alloc, 0)),
    }
}

/// Of a form, the bound variable that it is made of beside closed atoms, and how often it has it; none if it has others.
fn only_bound(nodes: &Nodes, form: &Form) -> Option<(TermId, u32, i128)> {
    let mut only = None;
    for (atom, number) in &form.summands {
        if nodes.term_loose(*atom) > 0 {
            let Some(TermNode::Bound(variable)) = nodes.term_node(*atom) else {
                return None;
            };
            if only.is_some() {
                return None;
            }
            only = Some((*atom, variable, *number));
        }
    }
    only
}

/// A form without one of its atoms, which it has `number` times.
fn without(
    nodes: &mut Nodes,
    alloc: Global,
    form: Form,
    atom: TermId,
    number: i128,
) -> Result<Form, Stop> {
    let mut form = form;
    let alone = form_of(nodes, alloc, atom)?;
    form.add(number.checked_neg().ok_or(Stop::Large)?, &alone)?;
    Ok(form)
}

/// A slot for a variable of the block, if the index has the form of one.
fn slot_of(nodes: &mut Nodes, alloc: Global, place: Place) -> Result<Option<Slot>, Stop> {
    let form = form_of(nodes, alloc, place.index)?;
    let Some((atom, bound, factor)) = only_bound(nodes, &form) else {
        return Ok(None);
    };
    if bound < place.level {
        return Ok(None);
    }
    let form = without(nodes, alloc, form, atom, factor)?;
    let rest = if form.is_constant() && form.constant == 0 {
        None
    } else {
        Some(term_of_form(nodes, &form)?)
    };
    Ok(Some(Slot {
        variable: bound.saturating_sub(place.level),
        column: place.column,
        factor,
        rest,
    }))
}

/// What a variable of the block has to be so that both sides of a comparison are equal; none if the factor of the variable does
/// not divide the rest.
fn solution_of(
    nodes: &mut Nodes,
    alloc: Global,
    comparison: Comparison,
) -> Result<Option<Solution>, Stop> {
    let mut form = form_of(nodes, alloc, comparison.left)?;
    let right = form_of(nodes, alloc, comparison.right)?;
    form.add(-1, &right)?;
    let Some((atom, bound, number)) = only_bound(nodes, &form) else {
        return Ok(None);
    };
    if bound < comparison.level {
        return Ok(None);
    }
    let rest = without(nodes, alloc, form, atom, number)?;
    let Some(term) = term_divided(nodes, rest, number.checked_neg().ok_or(Stop::Large)?)? else {
        return Ok(None);
    };
    Ok(Some(Solution {
        variable: bound.saturating_sub(comparison.level),
        term,
    }))
}

/// The quotient, if a number divides another.
fn exact_quotient(number: i128, divisor: i128) -> Option<i128> {
    if number.checked_rem(divisor)? == 0 {
        number.checked_div(divisor)
    } else {
        None
    }
}

/// A term of a form that is divided by a number, if it divides each number of the form.
fn term_divided(nodes: &mut Nodes, form: Form, divisor: i128) -> Result<Option<TermId>, Stop> {
    let mut form = form;
    let Some(constant) = exact_quotient(form.constant, divisor) else {
        return Ok(None);
    };
    form.constant = constant;
    for summand in form.summands.iter_mut() {
        let Some(number) = exact_quotient(summand.1, divisor) else {
            return Ok(None);
        };
        summand.1 = number;
    }
    term_of_form(nodes, &form).map(Some)
}

/// So many times an atom, added to a sum.
fn sum_with(
    nodes: &mut Nodes,
    sum: Option<TermId>,
    atom: TermId,
    number: i128,
) -> Result<TermId, Stop> {
    if number == 1 {
        return match sum {
            Some(sum) => nodes.add(sum, atom),
            None => Ok(atom),
        };
    }
    if number == -1
        && let Some(sum) = sum
    {
        return nodes.subtract(sum, atom);
    }
    let factor = i64::try_from(number).map_err(|_| Stop::Large)?;
    let product = nodes.multiply(factor, atom)?;
    match sum {
        Some(sum) => nodes.add(sum, product),
        None => Ok(product),
    }
}

/// A sum and a constant.
fn sum_with_constant(
    nodes: &mut Nodes,
    sum: Option<TermId>,
    constant: i128,
) -> Result<TermId, Stop> {
    let Some(sum) = sum else {
        let number = i64::try_from(constant).map_err(|_| Stop::Large)?;
        return nodes.number(number);
    };
    if constant == 0 {
        return Ok(sum);
    }
    let size = i64::try_from(constant.checked_abs().ok_or(Stop::Large)?).map_err(|_| Stop::Large)?;
    let size = nodes.number(size)?;
    if constant > 0 {
        nodes.add(sum, size)
    } else {
        nodes.subtract(sum, size)
    }
}

/// A term of this form.
pub(crate) fn term_of_form(nodes: &mut Nodes, form: &Form) -> Result<TermId, Stop> {
    let mut sum = None;
    for (atom, number) in &form.summands {
        if *number > 0 {
            sum = Some(sum_with(nodes, sum, *atom, *number)?);
        }
    }
    for (atom, number) in &form.summands {
        if *number < 0 {
            sum = Some(sum_with(nodes, sum, *atom, *number)?);
        }
    }
    sum_with_constant(nodes, sum, form.constant)
}

/// What a variable has to be so that the index of its slot is this term, if there is such a term.
pub(crate) fn solved(
    nodes: &mut Nodes,
    alloc: Global,
    slot: Slot,
    index: TermId,
) -> Result<Option<TermId>, Stop> {
    if slot.rest.is_none() && slot.factor == 1 {
        return Ok(Some(index));
    }
    let mut form = form_of(nodes, alloc, index)?;
    if let Some(rest) = slot.rest {
        let rest = form_of(nodes, alloc, rest)?;
        form.add(-1, &rest)?;
    }
    term_divided(nodes, form, slot.factor)
}

//! The state that the numbers of the tableau describe: a column has in a cell what an active read of that cell has, and else a
//! number that others seldom have.

use indexmap::IndexMap;
use lc_base::ColId;
use lc_facts::{Known, Rule};
use lc_farkas::{Rational, Stop};
use lc_table::{ColExprId, FormulaId, TermId, TermNode};
use std::alloc::Global;

/// How deep formulas are looked into.
pub const DEEPEST: u32 = 4000;

/// The number of a term, in the state of this stamp.
#[derive(Clone, Copy)]
struct Told {
    stamp: u64,
    number: Rational,
}

/// Whether a formula holds, in the state of this stamp; none if a quantifier leaves it undecided.
#[derive(Clone, Copy)]
struct Truth {
    stamp: u64,
    holds: Option<bool>,
}

/// A cell of a base column.
#[derive(Clone, Copy, PartialEq, Eq, Hash)]
struct Cell {
    column: ColId,
    index: Rational,
}

/// The first active read of a cell, and its number.
#[derive(Clone, Copy)]
struct Content {
    read: TermId,
    number: Rational,
}

/// The content of a cell about which no active read says anything.
fn usual_content(cell: Cell) -> Rational {
    let first = i128::from(cell.column.0)
        .saturating_mul(10_007)
        .saturating_add(5_003);
    let number = match cell.index.times(Rational::whole(101)) {
        Ok(number) => number.plus(Rational::whole(first)),
        Err(stop) => Err(stop),
    };
    match number {
        Ok(number) => number,
        Err(_) => Rational::whole(first),
    }
}

/// Two reads of one cell that have different numbers.
#[derive(Clone, Copy)]
pub struct Clash {
    pub first: TermId,
    pub second: TermId,
}

/// What is still to be done for the number of a term.
#[derive(Clone, Copy)]
enum Due {
    /// The number of this term.
    Term(TermId),
    /// What is made of the last numbers.
    Add,
    Subtract,
    Multiply(i64),
    /// What a column has at the index that is the last number.
    Content(ColExprId),
    /// The same at the number before the last; the last one is the index of the column's outermost store.
    Compared(ColExprId),
    /// The last number is that of this closed term.
    Tell(TermId),
}

/// What closed terms and formulas mean in the state at hand.
pub struct Model {
    alloc: Global,
    stamp: u64,
    values: Vec<Told>,
    truths: Vec<Truth>,
    cells: IndexMap<Cell, Content>,
    /// What has to be done for a number, the next one last, and the numbers that were found for it: a deep term takes nothing of the stack.
    due: Vec<Due>,
    numbers: Vec<Rational>,
    /// How many nodes were evaluated since their work was counted.
    evaluated: usize,
}

impl Drop for Model {
    fn drop(self) {
        let Model {
            alloc: _,
            stamp: _,
            values: _,
            truths: _,
            cells: _,
            due: _,
            numbers: _,
            evaluated: _,
        } = self;
    }
}

impl Model {
    /// No state.
    pub fn new(alloc: Global) -> Model {
        Model {
            alloc,
            stamp: 0,
            values: Vec::new(alloc),
            truths: Vec::new(alloc),
            cells: IndexMap::new(alloc),
            due: Vec::new(alloc),
            numbers: Vec::new(alloc),
            evaluated: 0,
        }
    }

    /// Notes that a node is evaluated.
    pub(crate) fn note_node(&mut self) {
        self.evaluated = self.evaluated.saturating_add(1);
    }

    /// Forgets the state.
    fn restart(&mut self) {
        self.stamp = self.stamp.saturating_add(1);
        self.cells = IndexMap::new(self.alloc);
    }

    /// The number of a term, if it is known in the present state.
    fn told_value(&self, term: TermId) -> Option<Rational> {
        match self.values.get(term.0 as usize) {
            Some(value) if value.stamp == self.stamp => Some(value.number),
            _ => None,
        }
    }

    fn tell_value(&mut self, term: TermId, number: Rational) -> Result<(), Stop> {
        let place = term.0 as usize;
        for _ in self.values.len()..place.saturating_add(1) {
            self.values.push(Told {
                stamp: 0,
                number: Rational::ZERO,
            })?;
        }
        let stamp = self.stamp;
        if let Some(value) = self.values.get_mut(place) {
            *value = Told { stamp, number };
        }
        Ok(())
    }

    /// Whether a formula holds, if that is known in the present state.
    pub(crate) fn told_truth(&self, formula: FormulaId) -> Option<Option<bool>> {
        match self.truths.get(formula.0 as usize) {
            Some(truth) if truth.stamp == self.stamp => Some(truth.holds),
            _ => None,
        }
    }

    pub(crate) fn tell_truth(
        &mut self,
        formula: FormulaId,
        holds: Option<bool>,
    ) -> Result<(), Stop> {
        let place = formula.0 as usize;
        for _ in self.truths.len()..place.saturating_add(1) {
            self.truths.push(Truth {
                stamp: 0,
                holds: None,
            })?;
        }
        let stamp = self.stamp;
        if let Some(truth) = self.truths.get_mut(place) {
            *truth = Truth { stamp, holds };
        }
        Ok(())
    }

    /// The last number that was found.
    fn number(&mut self) -> Result<Rational, Stop> {
        self.numbers.pop().ok_or(Stop::Spent)
    }

    fn put_number(&mut self, number: Rational) -> Result<(), Stop> {
        self.numbers.push(number)?;
        Ok(())
    }

    /// Puts off a term, and then what is made of its number.
    fn await_term(&mut self, whole: Due, term: TermId) -> Result<(), Stop> {
        self.due.push(whole)?;
        self.due.push(Due::Term(term))?;
        Ok(())
    }

    /// Puts off two terms, and then what is made of their numbers.
    fn await_terms(&mut self, whole: Due, left: TermId, right: TermId) -> Result<(), Stop> {
        self.due.push(whole)?;
        self.due.push(Due::Term(right))?;
        self.due.push(Due::Term(left))?;
        Ok(())
    }

    /// What a cell of a base column has.
    fn content(&self, column: ColId, index: Rational) -> Rational {
        let cell = Cell { column, index };
        match self.cells.get(&cell) {
            Some(content) => content.number,
            None => usual_content(cell),
        }
    }

    /// Puts the number of a read into a cell. Another read that has put another number there is returned.
    fn fill(&mut self, cell: Cell, content: Content) -> Result<Option<TermId>, Stop> {
        if let Some(before) = self.cells.get(&cell) {
            let before = *before;
            if before.number == content.number {
                return Ok(None);
            }
            return Ok(Some(before.read));
        }
        self.cells.insert(cell, content)?;
        Ok(None)
    }
}

/// The active read at a place.
pub fn active_read(known: &Known, place: usize) -> Option<TermId> {
    match known.active.get_index(place) {
        Some((read, _)) => Some(*read),
        None => None,
    }
}

/// How many places `live_variable` has, if the goal has `variables` variables.
pub fn live_places(known: &Known, variables: u32) -> usize {
    (variables as usize).saturating_add(known.steps.len())
}

/// The variable at a place: those of the goal, and after them those that live steps made. (A variable that was made on a branch
/// that is left is none.)
pub fn live_variable(known: &Known, variables: u32, place: usize) -> Option<u32> {
    let Some(step) = place.checked_sub(variables as usize) else {
        return u32::try_from(place).ok();
    };
    match known.steps.get(step) {
        Some(step) => match step.rule {
            Rule::Fresh(_, variable) => Some(variable),
            _ => None,
        },
        None => None,
    }
}

/// The base column and the index of a read of a base column.
pub fn base_read(known: &Known, read: TermId) -> Option<(ColId, TermId)> {
    let Some(TermNode::Read(column, index)) = known.nodes.term_node(read) else {
        return None;
    };
    match known.nodes.column_node(column) {
        Some(TermNode::Base(column)) => Some((column, index)),
        _ => None,
    }
}

/// Makes the state of the numbers that the tableau has now, and returns the reads that contradict each other.
pub fn fill_model(known: &mut Known, model: &mut Model) -> Result<Vec<Clash>, Stop> {
    model.restart();
    let mut clashes = Vec::new(known.alloc);
    for place in 0..known.active.len() {
        if let Some(second) = active_read(known, place)
            && let Some(first) = fill_read(known, model, second)?
        {
            clashes.push(Clash { first, second })?;
        }
    }
    Ok(clashes)
}

/// Puts the number of a read of a base column into its cell.
fn fill_read(known: &mut Known, model: &mut Model, read: TermId) -> Result<Option<TermId>, Stop> {
    let Some((column, index)) = base_read(known, read) else {
        return Ok(None);
    };
    let index = known.value_of(index)?;
    let number = known.value_of(read)?;
    model.fill(Cell { column, index }, Content { read, number })
}

/// The number of a bound variable: that of the innermost is last.
fn bound_value(bound: &[Rational], number: u32) -> Rational {
    let place = bound.len().checked_sub((number as usize).saturating_add(1));
    match place.and_then(|place| bound.get(place)) {
        Some(value) => *value,
        None => Rational::ZERO,
    }
}

/// The number of a term in the state, if these are the numbers of its bound variables.
pub fn value(
    known: &Known,
    model: &mut Model,
    term: TermId,
    bound: &[Rational],
) -> Result<Rational, Stop> {
    model.due.truncate(0);
    model.numbers.truncate(0);
    number_term(known, model, term, bound)?;
    for _ in 0..u64::MAX {
        match model.due.pop() {
            Some(due) => go_on(known, model, due, bound)?,
            None => return model.number(),
        }
    }
    Err(Stop::Spent)
}

/// Does the next step.
fn go_on(known: &Known, model: &mut Model, due: Due, bound: &[Rational]) -> Result<(), Stop> {
    match due {
        Due::Term(term) => number_term(known, model, term, bound),
        Due::Add => {
            let right = model.number()?;
            let sum = model.number()?.plus(right)?;
            model.put_number(sum)
        }
        Due::Subtract => {
            let right = model.number()?;
            let difference = model.number()?.minus(right)?;
            model.put_number(difference)
        }
        Due::Multiply(factor) => {
            let product = Rational::whole(i128::from(factor)).times(model.number()?)?;
            model.put_number(product)
        }
        Due::Content(column) => number_content(known, model, column),
        Due::Compared(column) => compare_index(known, model, column),
        Due::Tell(term) => {
            let number = model.number()?;
            model.tell_value(term, number)?;
            model.put_number(number)
        }
    }
}

/// The number of a term that is known, or that has no parts; the parts of another one are put off.
fn number_term(
    known: &Known,
    model: &mut Model,
    term: TermId,
    bound: &[Rational],
) -> Result<(), Stop> {
    model.note_node();
    if let Some(number) = model.told_value(term) {
        return model.put_number(number);
    }
    if known.nodes.term_loose(term) == 0 {
        model.due.push(Due::Tell(term))?;
    }
    match known.nodes.term_node(term) {
        Some(TermNode::Add(left, right)) => model.await_terms(Due::Add, left, right),
        Some(TermNode::Subtract(left, right)) => model.await_terms(Due::Subtract, left, right),
        Some(TermNode::Multiply(factor, term)) => model.await_term(Due::Multiply(factor), term),
        Some(TermNode::Read(column, index)) => model.await_term(Due::Content(column), index),
        Some(TermNode::Number(number)) => model.put_number(Rational::whole(i128::from(number))),
        Some(TermNode::Variable(_)) => model.put_number(known.tableau.value_of(term)),
        Some(TermNode::Bound(place)) => model.put_number(bound_value(bound, place)),
        _ => model.put_number(Rational::ZERO),
    }
}

/// What a column has at the index that is the last number: what its outermost store at that index stores there.
fn number_content(known: &Known, model: &mut Model, column: ColExprId) -> Result<(), Stop> {
    if let Some(TermNode::Store(_, place, _)) = known.nodes.column_node(column) {
        return model.await_term(Due::Compared(column), place);
    }
    let index = model.number()?;
    let content = content_of_base(known, model, column, index)?;
    model.put_number(content)
}

/// Compares the index of a column's outermost store, the last number, with the one before it: next is what is stored there, or what
/// the column below has.
fn compare_index(known: &Known, model: &mut Model, column: ColExprId) -> Result<(), Stop> {
    let place = model.number()?;
    let index = model.number()?;
    match known.nodes.column_node(column) {
        Some(TermNode::Store(_, _, stored)) if place == index => {
            model.due.push(Due::Term(stored))?;
            Ok(())
        }
        Some(TermNode::Store(below, _, _)) => {
            model.due.push(Due::Content(below))?;
            model.put_number(index)
        }
        _ => model.put_number(Rational::ZERO),
    }
}

/// What a column that is no store has at an index.
fn content_of_base(
    known: &Known,
    model: &Model,
    base: ColExprId,
    index: Rational,
) -> Result<Rational, Stop> {
    match known.nodes.column_node(base) {
        Some(TermNode::Base(column)) => Ok(model.content(column, index)),
        Some(TermNode::Affine(slope, start)) => {
            let product = Rational::whole(i128::from(slope)).times(index)?;
            product.plus(Rational::whole(i128::from(start)))
        }
        _ => Ok(Rational::ZERO),
    }
}

/// The work of evaluating a node.
const EVALUATED: usize = 2;

/// Counts the work of the nodes that were evaluated since the last time.
pub fn count_evaluated(known: &mut Known, model: &mut Model) -> Result<(), Stop> {
    let nodes = model.evaluated;
    model.evaluated = 0;
    known.tableau.spend(nodes.saturating_mul(EVALUATED))
}

/// The number of a closed term in the state.
pub fn closed_value(known: &Known, model: &mut Model, term: TermId) -> Result<Rational, Stop> {
    value(known, model, term, &[])
}

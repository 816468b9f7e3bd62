//! What is reported of a search that found nothing.

use crate::ranks::GOAL;
use crate::solving::Search;
use lc_facts::Rule;
use lc_farkas::Stop;
use lc_search_model::{active_read, live_places, live_variable};
use lc_table::TermId;
use lc_term::Term;

/// A term and its number, as a quotient.
#[derive(Drop)]
pub struct Counted {
    pub term: Term,
    pub numerator: i128,
    pub denominator: i128,
}

/// What the search could not break: a number for each variable and for each read that was looked at, if it nests no deeper than a
/// text may. The witnesses are the variables
/// that it took for those of quantifiers of the negated goal, in turn.
#[derive(Drop)]
pub struct CounterModel {
    pub numbers: Vec<Counted>,
    pub witnesses: Vec<u32>,
}

/// The numbers of the tableau as they are.
pub(crate) fn counter_model(search: &mut Search) -> Result<CounterModel, Stop> {
    let mut numbers = Vec::new(search.known.alloc);
    for place in 0..live_places(&search.known, search.blocks.variables) {
        if let Some(number) = live_variable(&search.known, search.blocks.variables, place) {
            let variable = search.known.nodes.variable(number)?;
            push_number(search, variable, &mut numbers)?;
        }
    }
    for place in 0..search.known.active.len() {
        if let Some(read) = active_read(&search.known, place) {
            push_number(search, read, &mut numbers)?;
        }
    }
    let witnesses = goal_witnesses(search)?;
    Ok(CounterModel { numbers, witnesses })
}

/// The variables by which what is of the goal was opened.
fn goal_witnesses(search: &Search) -> Result<Vec<u32>, Stop> {
    let mut witnesses = Vec::new(search.known.alloc);
    for step in &search.known.steps {
        if let Rule::Fresh(fact, variable) = step.rule
            && search.known.fact(fact).place.rank == GOAL
        {
            witnesses.push(variable)?;
        }
    }
    Ok(witnesses)
}

/// Appends a term and its number to others; none that nests deeper than a text may.
fn push_number(search: &Search, term: TermId, numbers: &mut Vec<Counted>) -> Result<(), Stop> {
    let number = search.known.tableau.value_of(term);
    let term = match search.known.nodes.term_tree(&[], term) {
        Ok(term) => term,
        Err(Stop::Spent) => return Ok(()),
        Err(stop) => return Err(stop),
    };
    numbers.push(Counted {
        term,
        numerator: number.numerator(),
        denominator: number.denominator(),
    })?;
    Ok(())
}

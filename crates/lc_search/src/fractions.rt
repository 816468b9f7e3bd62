//! Cuts at fractions: each number of a state is whole.

use crate::blocks::{form_of, term_of_form};
use crate::turn::Turn;
use lc_facts::{Known, Place};
use lc_farkas::{Rational, Stop};
use lc_nodes::Form;
use lc_search_model::{active_read, live_places, live_variable};
use lc_table::TermId;

/// A term whose number is a fraction, and how many bounds its row lacks.
#[derive(Clone, Copy)]
struct Loose {
    term: TermId,
    looseness: u32,
}

/// The tighter one of a fraction and another term: the first that was found, if they are alike.
fn tighter(known: &Known, found: Option<Loose>, term: TermId) -> Option<Loose> {
    if known.tableau.value_of(term).is_whole() {
        return found;
    }
    let looseness = known.tableau.looseness(term);
    match found {
        Some(before) if before.looseness <= looseness => found,
        _ => Some(Loose { term, looseness }),
    }
}

/// The variable or active read whose number is a fraction and whose row lacks the fewest bounds: by it the fewest cuts are needed.
pub(crate) fn tightest_fraction(known: &mut Known, variables: u32) -> Result<Option<TermId>, Stop> {
    let mut found = None;
    for place in 0..live_places(known, variables) {
        if let Some(number) = live_variable(known, variables, place) {
            let variable = known.nodes.variable(number)?;
            found = tighter(known, found, variable);
        }
    }
    for place in 0..known.active.len() {
        if let Some(read) = active_read(known, place) {
            found = tighter(known, found, read);
        }
    }
    Ok(found.map(|loose| loose.term))
}

/// A sum with the fraction of a term's number, its number; the term itself if no sum serves.
fn with_fraction(known: &mut Known, term: TermId) -> Result<(TermId, Rational), Stop> {
    let alone = (term, known.tableau.value_of(term));
    let part = match known.tableau.fractional_part(term) {
        Ok(part) => part,
        Err(Stop::Large) => return Ok(alone),
        Err(stop) => return Err(stop),
    };
    if part.len() <= 1 {
        return Ok(alone);
    }
    let alloc = known.alloc;
    let mut sum = Form::constant(alloc, 0);
    let mut value = Rational::ZERO;
    for (atom, number) in &part {
        let form = form_of(&mut known.nodes, alloc, *atom)?;
        sum.add(*number, &form)?;
        value = value.plus(Rational::whole(*number).times(known.tableau.value_of(*atom))?)?;
    }
    if value.is_whole() {
        return Ok(alone);
    }
    Ok((term_of_form(&mut known.nodes, &sum)?, value))
}

/// Cuts at the fraction of a term's number. Both branches are searched, also if one would close at once: its proof may do without
/// what the cut adds, and is then one of the whole.
pub(crate) fn cut_fraction(known: &mut Known, term: TermId) -> Result<Turn, Stop> {
    let (term, number) = with_fraction(known, term)?;
    let below = i64::try_from(number.floor()?).map_err(|_| Stop::Large)?;
    let below = known.nodes.number(below)?;
    let formula = known.nodes.le(term, below)?;
    let step = known.cut(formula, Place { rank: 0, depth: 0 })?;
    Ok(Turn::Split(step))
}

//! Which actions have a guard, although no other client can see what they store: a guard serves those who rely on what others do.
use crate::naming::action_name;
use crate::source::{Source, push_part};
use lc_action::Action;
use lc_base::OutOfMemory;
use lc_explain::Part;
use lc_outline::{Development, column_names};
use lc_proof_state::{base_of, reads_in_all};
use lc_term::{Formula, Term, Update};
use std::alloc::Global;

/// The variable that is the client itself, in assertions and in actions.
const SELF: u32 = 1;

/// Which cells of a column are read in what is claimed of clients.
#[derive(Clone, Copy)]
struct Reads {
    /// The one whose number is that of the client.
    own: bool,
    /// Others.
    other: bool,
}

/// Whether a term is the client itself.
fn is_self(term: &Term) -> bool {
    match term {
        Term::Variable(number) => *number == SELF,
        _ => false,
    }
}

/// Takes note of which cells formulas read, for each column.
fn note_reads(
    alloc: Global,
    columns: &mut [Reads],
    formulas: &[Formula],
) -> Result<(), OutOfMemory> {
    for read in &reads_in_all(alloc, formulas)? {
        let Term::Read(column, index) = read else {
            continue;
        };
        let Some(column) = base_of(column) else {
            continue;
        };
        if let Some(reads) = columns.get_mut(column.0 as usize) {
            if is_self(index) {
                reads.own = true;
            } else {
                reads.other = true;
            }
        }
    }
    Ok(())
}

/// Which cells are read in the invariant and in what is asserted of clients, for each column.
fn claimed_reads(alloc: Global, development: &Development) -> Result<Vec<Reads>, OutOfMemory> {
    let parts = development.parts();
    let none = Reads {
        own: false,
        other: false,
    };
    let mut columns = Vec::new(alloc);
    for _ in 0..column_names(alloc, parts)?.len() {
        columns.push(none)?;
    }
    for conjunct in parts.tie.conjuncts() {
        note_reads(alloc, &mut columns, std::slice::from_ref(&conjunct.formula))?;
    }
    note_reads(alloc, &mut columns, &parts.idle)?;
    for outline in &parts.outlines {
        note_reads(alloc, &mut columns, &outline.asserts)?;
    }
    Ok(columns)
}

/// Whether what is claimed of another client may change with an update.
fn is_seen(columns: &[Reads], update: &Update) -> bool {
    match columns.get(update.column.0 as usize) {
        Some(reads) => reads.other || reads.own && !is_self(&update.index),
        None => false,
    }
}

/// Whether what is claimed of another client may change with one of these updates.
fn are_seen(columns: &[Reads], updates: &[Update]) -> bool {
    for update in updates {
        if is_seen(columns, update) {
            return true;
        }
    }
    false
}

/// Whether an action has a guard that asks for something.
fn is_guarded(action: &Action) -> bool {
    match &action.guard {
        Formula::And(parts) => !parts.is_empty(),
        _ => true,
    }
}

/// Appends for each action with a guard that no other client can see what it stores, if none can.
pub(crate) fn push_unseen(
    alloc: Global,
    text: &mut Vec<u8>,
    source: Source<'_>,
    development: &Development,
) -> Result<(), OutOfMemory> {
    let parts = development.parts();
    let columns = claimed_reads(alloc, development)?;
    for (place, action) in parts.actions.iter().enumerate() {
        if !is_guarded(action) || are_seen(&columns, &action.updates) {
            continue;
        }
        let part = Part::Guard(action_name(parts, place));
        let sentence =
            "no claim of another client reads what this action stores, so its guard serves nothing";
        push_part(alloc, text, source, part, sentence)?;
    }
    Ok(())
}

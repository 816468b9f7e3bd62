//! What decides that a goal fails in a state: what is stored by then, and the comparisons, with the numbers of their sides.
use crate::failing::push_number;
use crate::names::Names;
use lc_base::OutOfMemory;
use lc_cond::Kind;
use lc_proof_state::{Decisive, Told, decisive_in, stored_by, stored_in};
use lc_term::{ColExpr, Formula, Term, Write};
use lc_text::write_formula;
use std::alloc::Global;

/// When a condition of this kind is to hold.
fn moment(kind: Kind) -> &'static str {
    match kind {
        Kind::Init | Kind::InitIdle => "at first",
        Kind::Entry | Kind::First => "when the call has begun",
        Kind::Owed(_) => "after the marks before it",
        Kind::Stable => "after the action of the other client",
        Kind::Reply | Kind::Invariant | Kind::Next | Kind::Guard | Kind::Column => "after the step",
    }
}

/// The cells of which something else is said at this moment than before, if there are any.
fn push_stored(
    alloc: Global,
    text: &mut String,
    names: &Names<'_>,
    moment: &str,
    cells: &[Write],
) -> Result<(), OutOfMemory> {
    if cells.is_empty() {
        return Ok(());
    }
    writeln!(text, "  {moment}:")?;
    for cell in cells {
        let read = Term::read(alloc, ColExpr::Base(cell.column), Term::Number(cell.index))?;
        push_number(text, names, &read, cell.value)?;
    }
    Ok(())
}

/// What the step stores in a column and what its action does, where both have to be the same.
fn push_both_stored(
    alloc: Global,
    text: &mut String,
    names: &Names<'_>,
    told: &Told,
    step: &Term,
    action: &Term,
) -> Result<(), OutOfMemory> {
    let cells = stored_by(alloc, told, step)?;
    push_stored(alloc, text, names, "after the step", &cells)?;
    let cells = stored_by(alloc, told, action)?;
    push_stored(
        alloc,
        text,
        names,
        "after the action that is named there",
        &cells,
    )
}

/// A comparison that does not hold, with the numbers of its sides, in a line.
fn push_comparison(
    text: &mut String,
    names: &Names<'_>,
    decisive: &Decisive<'_>,
) -> Result<(), OutOfMemory> {
    let (left, right) = (decisive.left, decisive.right);
    text.push_str(if decisive.is_negated {
        "    (not "
    } else {
        "    "
    })?;
    write_formula(text, names, 0, decisive.comparison)?;
    text.push_str(if decisive.is_negated { ")" } else { "" })?;
    writeln!(text, " compares {left} with {right}")?;
    Ok(())
}

/// Appends to a state what decides there that a goal of this kind fails.
pub(crate) fn push_decisive(
    alloc: Global,
    text: &mut String,
    names: &Names<'_>,
    kind: Kind,
    told: &Told,
) -> Result<(), OutOfMemory> {
    match (kind, &told.claim) {
        (Kind::Column, Formula::Eq(step, action)) => {
            push_both_stored(alloc, text, names, told, step, action)?;
        }
        _ => {
            let cells = stored_in(alloc, told)?;
            push_stored(alloc, text, names, moment(kind), &cells)?;
        }
    }
    let decisive = decisive_in(alloc, told)?;
    if !decisive.is_empty() {
        text.push_str("  so this does not hold:\n")?;
    }
    for comparison in &decisive {
        push_comparison(text, names, comparison)?;
    }
    Ok(())
}

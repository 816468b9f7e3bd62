//! How what is beside the code is printed.
ghost use Rattle.std.specs.Prelude.{◌≡◌, ◌++◌, OnOk, codes, string_bytes, map};
ghost use Rattle.lc_action.specs.ActionView.{action_of};
ghost use Rattle.lc_object.specs.View.{parts_of};
ghost use Rattle.lc_outline.specs.PartsView.{on_of};
ghost use Rattle.lc_reading.specs.Words.{names_in};
ghost use Rattle.lc_rider.specs.Rider.{Other};
ghost use Rattle.lc_rider.specs.RiderView.{choosing_of, rider_of};
ghost use Rattle.lc_sexp.specs.Printed.{printed_tree, printed_others};
ghost use Rattle.lc_sexp.specs.Trees.{atom, list, ◌▸◌, row};
ghost use Rattle.lc_term.specs.View.{term_of};
ghost use Rattle.lc_tie.specs.TieView.{conjunct_of};
ghost use Rattle.lc_outline_print.specs.Beside.{action_tree, conjunct_tree, mark_word, choice_trees, marking_tree, deed_tree, rider_tree, on_tree};

use crate::naming::{Named, client_variables, write_action_name, write_operation_name};
use crate::parts::{
    write_formula_part, write_name_list, write_term_part, write_terms, write_update_parts,
    write_updates,
};
use lc_action::Action;
use lc_base::{OpId, OutOfMemory};
use lc_object::Parts;
use lc_outline::{On, edge_word};
use lc_rider::{Choosing, Rider};
use lc_term::Term;
use lc_text::Spelling;
use lc_tie::Conjunct;
use std::alloc::Global;

/// Writes `(action NAME (PARAM*) F UPDATE*)` after a space.
fn write_action(
    alloc: Global,
    out: &mut String,
    columns: &[&str],
    action: &Action,
) -> Result<(), OutOfMemory>
    ensures { OnOk result (string_bytes out.new ≡ string_bytes out.old ++ codes " " ++ printed_tree (action_tree (names_in columns.now) (action_of action.now))) }
{
    let variables = client_variables(alloc, &action.params)?;
    let named = Named {
        columns,
        variables: &variables,
    };
    out.push_str(" (action ")?;
    out.push_str(action.name.as_str())?;
    write_name_list(out, &action.params)?;
    write_formula_part(out, &named, &action.guard)?;
    write_updates(out, &named, &action.updates)?;
    out.push_str(")")?;
    Ok(())
}

/// Writes `ACTION*`, each after a space.
pub(crate) fn write_actions(
    alloc: Global,
    out: &mut String,
    columns: &[&str],
    actions: &[Action],
) -> Result<(), OutOfMemory>
    ensures { OnOk result (string_bytes out.new ≡ string_bytes out.old ++ printed_others (row (map (action_tree (names_in columns.now)) (map action_of actions.now)))) }
{
    for action in actions {
        write_action(alloc, out, columns, action)?;
    }
    Ok(())
}

/// Writes `(NAME F)` after a space.
fn write_conjunct(
    out: &mut String,
    columns: &[&str],
    conjunct: &Conjunct,
) -> Result<(), OutOfMemory>
    ensures { OnOk result (string_bytes out.new ≡ string_bytes out.old ++ codes " " ++ printed_tree (conjunct_tree (names_in columns.now) (conjunct_of conjunct.now))) }
{
    let named = Named {
        columns,
        variables: &["N"],
    };
    out.push_str(" (")?;
    out.push_str(conjunct.name.as_str())?;
    write_formula_part(out, &named, &conjunct.formula)?;
    out.push_str(")")?;
    Ok(())
}

/// Writes `(NAME F)*`, each after a space.
pub(crate) fn write_conjuncts(
    out: &mut String,
    columns: &[&str],
    conjuncts: &[Conjunct],
) -> Result<(), OutOfMemory>
    ensures { OnOk result (string_bytes out.new ≡ string_bytes out.old ++ printed_others (row (map (conjunct_tree (names_in columns.now)) (map conjunct_of conjuncts.now)))) }
{
    for conjunct in conjuncts {
        write_conjunct(out, columns, conjunct)?;
    }
    Ok(())
}

/// Writes how the list of a mark begins: its word, which says whether a choice is named.
fn write_mark_word(out: &mut String, word: &str, by: &Choosing) -> Result<(), OutOfMemory>
    ensures { OnOk result (string_bytes out.new ≡ string_bytes out.old ++ codes "(" ++ mark_word word.now (choosing_of by.now)) }
{
    out.push_str("(")?;
    out.push_str(word)?;
    if let Choosing::Named { .. } = by {
        out.push_str("-by")?;
    }
    Ok(())
}

/// Writes `NAME T*`, for a choice that is named, each after a space.
fn write_choice<S: Spelling>(
    out: &mut String,
    spelling: &S,
    by: &Choosing,
) -> Result<(), OutOfMemory>
    ensures { OnOk result (string_bytes out.new ≡ string_bytes out.old ++ printed_others (choice_trees (S.spelled spelling.now) (choosing_of by.now))) }
{
    match by {
        Choosing::First => {}
        Choosing::Named { name, terms } => {
            out.push_str(" ")?;
            out.push_str(name.as_str())?;
            write_terms(out, spelling, terms)?;
        }
    }
    Ok(())
}

/// Writes a mark of the own call, that begins with this word.
fn write_own_mark<S: Spelling>(
    out: &mut String,
    spelling: &S,
    word: &str,
    by: &Choosing,
) -> Result<(), OutOfMemory>
    ensures { OnOk result (string_bytes out.new ≡ string_bytes out.old ++ printed_tree (list (atom (mark_word word.now (choosing_of by.now)) ▸ choice_trees (S.spelled spelling.now) (choosing_of by.now)))) }
{
    write_mark_word(out, word, by)?;
    write_choice(out, spelling, by)?;
    out.push_str(")")?;
    Ok(())
}

/// Writes `(lin-other T OP)` or `(lin-other-by T OP NAME T*)`.
fn write_lin_other<S: Spelling>(
    out: &mut String,
    object: &Parts,
    spelling: &S,
    client: &Term,
    operation: OpId,
    by: &Choosing,
) -> Result<(), OutOfMemory>
    ensures { OnOk result (string_bytes out.new ≡ string_bytes out.old ++ printed_tree (marking_tree (parts_of object.now) (S.spelled spelling.now) (Other (term_of client.now) operation.0) (choosing_of by.now))) }
{
    write_mark_word(out, "lin-other", by)?;
    write_term_part(out, spelling, client)?;
    write_operation_name(out, object, operation)?;
    write_choice(out, spelling, by)?;
    out.push_str(")")?;
    Ok(())
}

/// Writes what a rider does, without its condition.
fn write_deed<S: Spelling>(
    out: &mut String,
    object: &Parts,
    spelling: &S,
    rider: &Rider,
) -> Result<(), OutOfMemory>
    ensures { OnOk result (string_bytes out.new ≡ string_bytes out.old ++ printed_tree (deed_tree (parts_of object.now) (S.spelled spelling.now) (rider_of rider.now).deed)) }
{
    match rider {
        Rider::Assign { update, .. } => {
            out.push_str("(set ")?;
            write_update_parts(out, spelling, update)?;
            out.push_str(")")?;
        }
        Rider::LinSelf { by, .. } => write_own_mark(out, spelling, "lin", by)?,
        Rider::LinOther {
            client,
            operation,
            by,
            ..
        } => write_lin_other(out, object, spelling, client, *operation, by)?,
        Rider::Note { by, .. } => write_own_mark(out, spelling, "note", by)?,
    }
    Ok(())
}

/// Writes `RIDER` after a space.
fn write_rider<S: Spelling>(
    out: &mut String,
    object: &Parts,
    spelling: &S,
    rider: &Rider,
) -> Result<(), OutOfMemory>
    ensures { OnOk result (string_bytes out.new ≡ string_bytes out.old ++ codes " " ++ printed_tree (rider_tree (parts_of object.now) (S.spelled spelling.now) (rider_of rider.now))) }
{
    match rider.condition() {
        None => {
            out.push_str(" ")?;
            write_deed(out, object, spelling, rider)?;
        }
        Some(when) => {
            out.push_str(" (when")?;
            write_formula_part(out, spelling, when.formula())?;
            out.push_str(" ")?;
            write_deed(out, object, spelling, rider)?;
            out.push_str(")")?;
        }
    }
    Ok(())
}

/// Writes `RIDER*`, each after a space.
fn write_riders<S: Spelling>(
    out: &mut String,
    object: &Parts,
    spelling: &S,
    riders: &[Rider],
) -> Result<(), OutOfMemory>
    ensures { OnOk result (string_bytes out.new ≡ string_bytes out.old ++ printed_others (row (map (rider_tree (parts_of object.now) (S.spelled spelling.now)) (map rider_of riders.now)))) }
{
    for rider in riders {
        write_rider(out, object, spelling, rider)?;
    }
    Ok(())
}

/// Writes `(on EDGE (ACTION T*) RIDER*)` after a space.
fn write_on<S: Spelling>(
    out: &mut String,
    object: &Parts,
    actions: &[Action],
    spelling: &S,
    on: &On,
) -> Result<(), OutOfMemory>
    ensures { OnOk result (string_bytes out.new ≡ string_bytes out.old ++ codes " " ++ printed_tree (on_tree (parts_of object.now) (map action_of actions.now) (S.spelled spelling.now) (on_of on.now))) }
{
    out.push_str(" (on ")?;
    out.push_str(edge_word(on.edge))?;
    out.push_str(" (")?;
    write_action_name(out, actions, on.action)?;
    write_terms(out, spelling, &on.arguments)?;
    out.push_str(")")?;
    write_riders(out, object, spelling, &on.riders)?;
    out.push_str(")")?;
    Ok(())
}

/// Writes `ON*`, each after a space.
pub(crate) fn write_ons<S: Spelling>(
    out: &mut String,
    object: &Parts,
    actions: &[Action],
    spelling: &S,
    ons: &[On],
) -> Result<(), OutOfMemory>
    ensures { OnOk result (string_bytes out.new ≡ string_bytes out.old ++ printed_others (row (map (on_tree (parts_of object.now) (map action_of actions.now) (S.spelled spelling.now)) (map on_of ons.now)))) }
{
    for on in ons {
        write_on(out, object, actions, spelling, on)?;
    }
    Ok(())
}

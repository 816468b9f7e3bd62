//! How instructions are printed.
ghost use Rattle.std.specs.Prelude.{◌≡◌, ◌∷◌, ◌++◌, OnOk, codes, string_bytes, map};
ghost use Rattle.lc_object.specs.Syntax.{Load, Store, Cas, Set, Faa, If, Return};
ghost use Rattle.lc_object.specs.View.{locals_of, terms_of, instruction_of, parts_of};
ghost use Rattle.lc_sexp.specs.Printed.{printed_tree, printed_items, printed_others};
ghost use Rattle.lc_sexp.specs.Trees.{list, none, ◌▸◌};
ghost use Rattle.lc_term.specs.View.{term_of, formula_of};
ghost use Rattle.lc_outline_print.specs.Naming.{label};
ghost use Rattle.lc_outline_print.specs.Parts.{term_trees};
ghost use Rattle.lc_outline_print.specs.Instructions.{access_trees, label_trees, local_trees, assignment_tree, assignment_trees, instruction_tree};

use crate::naming::{write_array_name, write_label};
use crate::parts::{write_formula_part, write_term_list, write_term_part, write_terms};
use lc_base::{OutOfMemory, PointId};
use lc_object::{ArrayId, Instr, LocalId, Parts};
use lc_term::{Formula, Term};
use lc_text::Spelling;

/// Writes the name of a point after a space.
fn write_label_part(out: &mut String, object: &Parts, point: PointId) -> Result<(), OutOfMemory>
    ensures { OnOk result (string_bytes out.new ≡ string_bytes out.old ++ codes " " ++ label (parts_of object.now) point.0) }
{
    out.push_str(" ")?;
    write_label(out, object, point)
}

/// Writes locals, each after a space.
fn write_locals<S: Spelling>(
    out: &mut String,
    spelling: &S,
    locals: &[LocalId],
) -> Result<(), OutOfMemory>
    ensures { OnOk result (string_bytes out.new ≡ string_bytes out.old ++ printed_others (local_trees (S.spelled spelling.now) (locals_of locals.now))) }
{
    for local in locals {
        out.push_str(" ")?;
        spelling.variable(out, local.0)?;
    }
    Ok(())
}

/// Writes a list of locals after a space.
fn write_local_list<S: Spelling>(
    out: &mut String,
    spelling: &S,
    locals: &[LocalId],
) -> Result<(), OutOfMemory>
    ensures { OnOk result (string_bytes out.new ≡ string_bytes out.old ++ codes " " ++ printed_tree (list (local_trees (S.spelled spelling.now) (locals_of locals.now)))) }
{
    out.push_str(" (")?;
    if let Some((first, others)) = locals.split_first() {
        spelling.variable(out, first.0)?;
        write_locals(out, spelling, others)?;
    }
    out.push_str(")")?;
    Ok(())
}

/// Writes `(r T)`.
fn write_assignment<S: Spelling>(
    out: &mut String,
    spelling: &S,
    local: LocalId,
    value: &Term,
) -> Result<(), OutOfMemory>
    ensures { OnOk result (string_bytes out.new ≡ string_bytes out.old ++ printed_tree (assignment_tree (S.spelled spelling.now) local.0 (term_of value.now))) }
{
    out.push_str("(")?;
    spelling.variable(out, local.0)?;
    write_term_part(out, spelling, value)?;
    out.push_str(")")?;
    Ok(())
}

/// Writes `(r T)` for each local and its value, each after a space.
fn write_assignments<S: Spelling>(
    out: &mut String,
    spelling: &S,
    locals: &[LocalId],
    values: &[Term],
) -> Result<(), OutOfMemory>
    ensures { OnOk result (string_bytes out.new ≡ string_bytes out.old ++ printed_others (assignment_trees (S.spelled spelling.now) (locals_of locals.now) (terms_of values.now))) }
{
    let mut others = values;
    for local in locals {
        let Some((value, rest)) = others.split_first() else {
            return Ok(());
        };
        out.push_str(" ")?;
        write_assignment(out, spelling, *local, value)?;
        others = rest;
    }
    Ok(())
}

/// Writes a list of `(r T)`, for each local and its value, after a space.
fn write_assignment_list<S: Spelling>(
    out: &mut String,
    spelling: &S,
    locals: &[LocalId],
    values: &[Term],
) -> Result<(), OutOfMemory>
    ensures { OnOk result (string_bytes out.new ≡ string_bytes out.old ++ codes " " ++ printed_tree (list (assignment_trees (S.spelled spelling.now) (locals_of locals.now) (terms_of values.now)))) }
{
    out.push_str(" (")?;
    if let (Some((local, locals)), Some((value, values))) = (
        locals.split_first(),
        values.split_first(),
    ) {
        write_assignment(out, spelling, *local, value)?;
        write_assignments(out, spelling, locals, values)?;
    }
    out.push_str(")")?;
    Ok(())
}

/// Writes an array and an index.
fn write_access<S: Spelling>(
    out: &mut String,
    object: &Parts,
    spelling: &S,
    array: ArrayId,
    index: &Term,
) -> Result<(), OutOfMemory>
    ensures { OnOk result (string_bytes out.new ≡ string_bytes out.old ++ printed_items (access_trees (parts_of object.now) (S.spelled spelling.now) array.0 (term_of index.now))) }
{
    write_array_name(out, object, array)?;
    write_term_part(out, spelling, index)
}

/// Writes `(load A T (r ..) L)`.
fn write_load<S: Spelling>(
    out: &mut String,
    object: &Parts,
    spelling: &S,
    array: ArrayId,
    index: &Term,
    targets: &[LocalId],
    next: PointId,
) -> Result<(), OutOfMemory>
    ensures { OnOk result (string_bytes out.new ≡ string_bytes out.old ++ printed_tree (instruction_tree (parts_of object.now) (S.spelled spelling.now) (Load array.0 (term_of index.now) (locals_of targets.now) next.0))) }
{
    out.push_str("(load ")?;
    write_access(out, object, spelling, array, index)?;
    write_local_list(out, spelling, targets)?;
    write_label_part(out, object, next)?;
    out.push_str(")")?;
    Ok(())
}

/// Writes `(store A T (T ..) L)`.
fn write_store<S: Spelling>(
    out: &mut String,
    object: &Parts,
    spelling: &S,
    array: ArrayId,
    index: &Term,
    values: &[Term],
    next: PointId,
) -> Result<(), OutOfMemory>
    ensures { OnOk result (string_bytes out.new ≡ string_bytes out.old ++ printed_tree (instruction_tree (parts_of object.now) (S.spelled spelling.now) (Store array.0 (term_of index.now) (terms_of values.now) next.0))) }
{
    out.push_str("(store ")?;
    write_access(out, object, spelling, array, index)?;
    write_term_list(out, spelling, values)?;
    write_label_part(out, object, next)?;
    out.push_str(")")?;
    Ok(())
}

/// Writes two labels, each after a space.
fn write_labels(
    out: &mut String,
    object: &Parts,
    first: PointId,
    second: PointId,
) -> Result<(), OutOfMemory>
    ensures { OnOk result (string_bytes out.new ≡ string_bytes out.old ++ printed_others (label_trees (parts_of object.now) first.0 second.0)) }
{
    write_label_part(out, object, first)?;
    write_label_part(out, object, second)
}

/// Writes two lists of terms, each after a space.
fn write_rows<S: Spelling>(
    out: &mut String,
    spelling: &S,
    old: &[Term],
    new: &[Term],
) -> Result<(), OutOfMemory>
    ensures { OnOk result (string_bytes out.new ≡ string_bytes out.old ++ printed_others (list (term_trees (S.spelled spelling.now) (terms_of old.now)) ▸ list (term_trees (S.spelled spelling.now) (terms_of new.now)) ▸ none)) }
{
    write_term_list(out, spelling, old)?;
    write_term_list(out, spelling, new)
}

/// Where a compare and swap goes: if the row is the old one, and if it is not.
#[derive(Clone, Copy)]
struct Exits {
    equal: PointId,
    different: PointId,
}

/// Writes `(cas A T (T ..) (T ..) L M)`.
fn write_cas<S: Spelling>(
    out: &mut String,
    object: &Parts,
    spelling: &S,
    array: ArrayId,
    index: &Term,
    old: &[Term],
    new: &[Term],
    exits: Exits,
) -> Result<(), OutOfMemory>
    ensures { OnOk result (string_bytes out.new ≡ string_bytes out.old ++ printed_tree (instruction_tree (parts_of object.now) (S.spelled spelling.now) (Cas array.0 (term_of index.now) (terms_of old.now) (terms_of new.now) exits.equal.0 exits.different.0))) }
{
    out.push_str("(cas ")?;
    write_access(out, object, spelling, array, index)?;
    write_rows(out, spelling, old, new)?;
    write_labels(out, object, exits.equal, exits.different)?;
    out.push_str(")")?;
    Ok(())
}

/// Writes `(set ((r T) ..) L)`.
fn write_set<S: Spelling>(
    out: &mut String,
    object: &Parts,
    spelling: &S,
    targets: &[LocalId],
    values: &[Term],
    next: PointId,
) -> Result<(), OutOfMemory>
    ensures { OnOk result (string_bytes out.new ≡ string_bytes out.old ++ printed_tree (instruction_tree (parts_of object.now) (S.spelled spelling.now) (Set (locals_of targets.now) (terms_of values.now) next.0))) }
{
    out.push_str("(set")?;
    write_assignment_list(out, spelling, targets, values)?;
    write_label_part(out, object, next)?;
    out.push_str(")")?;
    Ok(())
}

/// Writes a list of locals and one of terms, each after a space.
fn write_exchange<S: Spelling>(
    out: &mut String,
    spelling: &S,
    targets: &[LocalId],
    added: &[Term],
) -> Result<(), OutOfMemory>
    ensures { OnOk result (string_bytes out.new ≡ string_bytes out.old ++ printed_others (list (local_trees (S.spelled spelling.now) (locals_of targets.now)) ▸ list (term_trees (S.spelled spelling.now) (terms_of added.now)) ▸ none)) }
{
    write_local_list(out, spelling, targets)?;
    write_term_list(out, spelling, added)
}

/// Writes `(faa A T (r ..) (T ..) L)`.
fn write_faa<S: Spelling>(
    out: &mut String,
    object: &Parts,
    spelling: &S,
    array: ArrayId,
    index: &Term,
    targets: &[LocalId],
    added: &[Term],
    next: PointId,
) -> Result<(), OutOfMemory>
    ensures { OnOk result (string_bytes out.new ≡ string_bytes out.old ++ printed_tree (instruction_tree (parts_of object.now) (S.spelled spelling.now) (Faa array.0 (term_of index.now) (locals_of targets.now) (terms_of added.now) next.0))) }
{
    out.push_str("(faa ")?;
    write_access(out, object, spelling, array, index)?;
    write_exchange(out, spelling, targets, added)?;
    write_label_part(out, object, next)?;
    out.push_str(")")?;
    Ok(())
}

/// Writes `(if F L M)`.
fn write_if<S: Spelling>(
    out: &mut String,
    object: &Parts,
    spelling: &S,
    condition: &Formula,
    holds: PointId,
    fails: PointId,
) -> Result<(), OutOfMemory>
    ensures { OnOk result (string_bytes out.new ≡ string_bytes out.old ++ printed_tree (instruction_tree (parts_of object.now) (S.spelled spelling.now) (If (formula_of condition.now) holds.0 fails.0))) }
{
    out.push_str("(if")?;
    write_formula_part(out, spelling, condition)?;
    write_labels(out, object, holds, fails)?;
    out.push_str(")")?;
    Ok(())
}

/// Writes `(return T ..)`.
fn write_return<S: Spelling>(
    out: &mut String,
    object: &Parts,
    spelling: &S,
    values: &[Term],
) -> Result<(), OutOfMemory>
    ensures { OnOk result (string_bytes out.new ≡ string_bytes out.old ++ printed_tree (instruction_tree (parts_of object.now) (S.spelled spelling.now) (Return (terms_of values.now)))) }
{
    out.push_str("(return")?;
    write_terms(out, spelling, values)?;
    out.push_str(")")?;
    Ok(())
}

/// Writes `INSTR`.
pub(crate) fn write_instruction<S: Spelling>(
    out: &mut String,
    object: &Parts,
    spelling: &S,
    instruction: &Instr,
) -> Result<(), OutOfMemory>
    ensures { OnOk result (string_bytes out.new ≡ string_bytes out.old ++ printed_tree (instruction_tree (parts_of object.now) (S.spelled spelling.now) (instruction_of instruction.now))) }
{
    match instruction {
        Instr::Load {
            array,
            index,
            targets,
            next,
        } => write_load(out, object, spelling, *array, index, targets, *next),
        Instr::Store {
            array,
            index,
            values,
            next,
        } => write_store(out, object, spelling, *array, index, values, *next),
        Instr::Cas {
            array,
            index,
            old,
            new,
            equal,
            different,
        } => {
            let exits = Exits {
                equal: *equal,
                different: *different,
            };
            write_cas(out, object, spelling, *array, index, old, new, exits)
        }
        Instr::Set {
            targets,
            values,
            next,
        } => write_set(out, object, spelling, targets, values, *next),
        Instr::Faa {
            array,
            index,
            targets,
            added,
            next,
        } => write_faa(out, object, spelling, *array, index, targets, added, *next),
        Instr::If {
            condition,
            holds,
            fails,
        } => write_if(out, object, spelling, condition, *holds, *fails),
        Instr::Return { values } => write_return(out, object, spelling, values),
    }
}

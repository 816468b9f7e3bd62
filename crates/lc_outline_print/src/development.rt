//! The text of a development.
ghost use Rattle.std.specs.Prelude.{◌≡◌, ◌++◌, IfOk, OnOk, string_bytes};
ghost use Rattle.lc_outline.specs.DevelopmentView.{development_view};
ghost use Rattle.lc_outline.specs.PartsView.{parts_view};
ghost use Rattle.lc_reading.specs.Words.{names_in};
ghost use Rattle.lc_sexp.specs.Printed.{printed_tree, printed_others};
ghost use Rattle.lc_sexp.specs.Trees.{none, ◌▸◌};
ghost use Rattle.lc_outline.specs.ColumnNames.{column_names};
ghost use Rattle.lc_outline_print.specs.Developments.{auxiliary_tree, invariant_tree, idle_tree, table_trees, conditions_and_bodies, object_tree, development_printed};

use crate::beside::{write_actions, write_conjuncts};
use crate::naming::Named;
use crate::object::{write_arrays, write_bodies};
use crate::parts::write_formulas;
use crate::specification::{write_columns, write_specification};
use lc_base::OutOfMemory;
use lc_outline::{Development, Parts, column_names};
use std::alloc::Global;

/// Writes `(aux COL*)` after a space.
fn write_auxiliaries(out: &mut String, parts: &Parts) -> Result<(), OutOfMemory>
    ensures { OnOk result (string_bytes out.new ≡ string_bytes out.old ++ printed_others (auxiliary_tree (parts_view parts.now) ▸ none)) }
{
    out.push_str(" (aux")?;
    write_columns(out, &parts.auxiliaries)?;
    out.push_str(")")?;
    Ok(())
}

/// Writes `(invariant (NAME F)*)` after a space.
fn write_invariant(out: &mut String, columns: &[&str], parts: &Parts) -> Result<(), OutOfMemory>
    requires { names_in columns.now ≡ column_names (parts_view parts.now) }
    ensures { OnOk result (string_bytes out.new ≡ string_bytes out.old ++ printed_others (invariant_tree (parts_view parts.now) ▸ none)) }
{
    out.push_str(" (invariant")?;
    write_conjuncts(out, columns, parts.tie.conjuncts())?;
    out.push_str(")")?;
    Ok(())
}

/// Writes `(idle F*)` after a space.
fn write_idle(out: &mut String, columns: &[&str], parts: &Parts) -> Result<(), OutOfMemory>
    requires { names_in columns.now ≡ column_names (parts_view parts.now) }
    ensures { OnOk result (string_bytes out.new ≡ string_bytes out.old ++ printed_others (idle_tree (parts_view parts.now) ▸ none)) }
{
    let named = Named {
        columns,
        variables: &["N", "self"],
    };
    out.push_str(" (idle")?;
    write_formulas(out, &named, &parts.idle)?;
    out.push_str(")")?;
    Ok(())
}

/// Writes `ARRAY* (aux COL*) ACTION*`, each after a space.
#[tactic(auto, using(crate::proofs::Printed::followed_text))]
fn write_tables(
    alloc: Global,
    out: &mut String,
    columns: &[&str],
    parts: &Parts,
) -> Result<(), OutOfMemory>
    requires { names_in columns.now ≡ column_names (parts_view parts.now) }
    ensures { OnOk result (string_bytes out.new ≡ string_bytes out.old ++ printed_others (table_trees (parts_view parts.now))) }
{
    let object = parts.object.parts();
    write_arrays(out, object, &object.arrays)?;
    write_auxiliaries(out, parts)?;
    write_actions(alloc, out, columns, &parts.actions)
}

/// Writes `(invariant (NAME F)*) (idle F*) BODY+`, each after a space.
fn write_conditions_and_bodies(
    alloc: Global,
    out: &mut String,
    columns: &[&str],
    parts: &Parts,
) -> Result<(), OutOfMemory>
    requires { names_in columns.now ≡ column_names (parts_view parts.now) }
    ensures { OnOk result (string_bytes out.new ≡ string_bytes out.old ++ printed_others (conditions_and_bodies (parts_view parts.now))) }
{
    write_invariant(out, columns, parts)?;
    write_idle(out, columns, parts)?;
    write_bodies(alloc, out, columns, parts, &parts.object.parts().operations)
}

/// Writes `(object NAME ARRAY* (aux COL*) ACTION* (invariant (NAME F)*) (idle F*) BODY+)`.
#[tactic(auto, using(crate::proofs::Printed::followed_text))]
fn write_object(
    alloc: Global,
    out: &mut String,
    columns: &[&str],
    parts: &Parts,
) -> Result<(), OutOfMemory>
    requires { names_in columns.now ≡ column_names (parts_view parts.now) }
    ensures { OnOk result (string_bytes out.new ≡ string_bytes out.old ++ printed_tree (object_tree (parts_view parts.now))) }
{
    let name = parts.object.parts().name;
    out.push_str("(object ")?;
    out.push_str(name.as_str())?;
    write_tables(alloc, out, columns, parts)?;
    write_conditions_and_bodies(alloc, out, columns, parts)?;
    out.push_str(")")?;
    Ok(())
}

/// The text of a development: two forms, each in a line.
pub fn development_text(alloc: Global, development: &Development) -> Result<Vec<u8>, OutOfMemory>
    ensures { IfOk result (λ text. text.items ≡ development_printed (development_view development.now)) }
{
    let parts = development.parts();
    let columns = column_names(alloc, parts)?;
    let mut out = String::new(alloc);
    write_specification(alloc, &mut out, &columns, &parts.specification)?;
    out.push_str("\n")?;
    write_object(alloc, &mut out, &columns, parts)?;
    out.push_str("\n")?;
    Ok(out.into_bytes())
}

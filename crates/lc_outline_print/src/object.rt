//! How the object of a development is printed, with what is beside its code.
ghost use Rattle.std.specs.Prelude.{◌≡◌, ◌++◌, ◌-◌, OnOk, codes, string_bytes, length, map, option_map, slice_get};
ghost use Rattle.lc_base.specs.Name.{bytes_of};
ghost use Rattle.lc_object.specs.View.{column_view, columns_of, array_of, point_of, operation_of, parts_of};
ghost use Rattle.lc_outline.specs.PartsView.{outline_of, parts_view};
ghost use Rattle.lc_reading.specs.Words.{names_in};
ghost use Rattle.lc_sexp.specs.Printed.{printed_tree, printed_others};
ghost use Rattle.lc_sexp.specs.Trees.{none, row};
ghost use Rattle.lc_outline.specs.ColumnNames.{column_names};
ghost use Rattle.lc_outline_print.specs.Parts.{column_tree};
ghost use Rattle.lc_outline_print.specs.Objects.{concrete_tree, concrete_trees, array_tree, outline_trees, point_tree, point_trees, body_with, body_tree, body_trees};

use crate::beside::write_ons;
use crate::instruction::write_instruction;
use crate::naming::{Named, variables_behind};
use crate::parts::{write_column, write_formulas, write_name_list};
use lc_base::{ColId, OutOfMemory};
use lc_object::{Array, Column, Operation, Point};
use lc_outline::{Outline, Parts};
use lc_text::Spelling;
use std::alloc::Global;

/// Writes `(NAME a b)` after a space.
fn write_concrete_column(out: &mut String, column: &Column) -> Result<(), OutOfMemory>
    ensures { OnOk result (string_bytes out.new ≡ string_bytes out.old ++ codes " " ++ printed_tree (column_tree (bytes_of column.now.name) column.now.slope column.now.start)) }
{
    write_column(out, &column.name, column.slope, column.start)
}

/// Writes `(NAME a b)`, for the concrete column of this number, after a space.
fn write_concrete(
    out: &mut String,
    object: &lc_object::Parts,
    column: ColId,
) -> Result<(), OutOfMemory>
    ensures { OnOk result (string_bytes out.new ≡ string_bytes out.old ++ printed_others (concrete_tree (slice_get (parts_of object.now).concretes (column.0 - length (parts_of object.now).abstracts)) none)) }
{
    let place = (column.0 as usize).saturating_sub(object.abstracts.len());
    if let Some(column) = object.concretes.get(place) {
        write_concrete_column(out, column)?;
    }
    Ok(())
}

/// Writes `COL+`, for the concrete columns of these numbers, each after a space.
#[tactic(auto, using(crate::proofs::Printed::concrete_text))]
fn write_concretes(
    out: &mut String,
    object: &lc_object::Parts,
    columns: &[ColId],
) -> Result<(), OutOfMemory>
    ensures { OnOk result (string_bytes out.new ≡ string_bytes out.old ++ printed_others (concrete_trees (parts_of object.now) (columns_of columns.now))) }
{
    for column in columns {
        write_concrete(out, object, *column)?;
    }
    Ok(())
}

/// Writes `(array NAME COL+)` after a space.
fn write_array(
    out: &mut String,
    object: &lc_object::Parts,
    array: &Array,
) -> Result<(), OutOfMemory>
    ensures { OnOk result (string_bytes out.new ≡ string_bytes out.old ++ codes " " ++ printed_tree (array_tree (parts_of object.now) (array_of array.now))) }
{
    out.push_str(" (array ")?;
    out.push_str(array.name.as_str())?;
    write_concretes(out, object, &array.columns)?;
    out.push_str(")")?;
    Ok(())
}

/// Writes `ARRAY*`, each after a space.
pub(crate) fn write_arrays(
    out: &mut String,
    object: &lc_object::Parts,
    arrays: &[Array],
) -> Result<(), OutOfMemory>
    ensures { OnOk result (string_bytes out.new ≡ string_bytes out.old ++ printed_others (row (map (array_tree (parts_of object.now)) (map array_of arrays.now)))) }
{
    for array in arrays {
        write_array(out, object, array)?;
    }
    Ok(())
}

/// Writes `(assert F*) ON*`, each after a space.
fn write_outline<S: Spelling>(
    out: &mut String,
    parts: &Parts,
    spelling: &S,
    outline: Option<&Outline>,
) -> Result<(), OutOfMemory>
    ensures { OnOk result (string_bytes out.new ≡ string_bytes out.old ++ printed_others (outline_trees (parts_view parts.now) (S.spelled spelling.now) (option_map (λ outline. outline_of outline.now) outline.entry))) }
{
    out.push_str(" (assert")?;
    match outline {
        None => out.push_str(")")?,
        Some(outline) => {
            write_formulas(out, spelling, &outline.asserts)?;
            out.push_str(")")?;
            write_ons(
                out,
                parts.object.parts(),
                &parts.actions,
                spelling,
                &outline.ons,
            )?;
        }
    }
    Ok(())
}

/// Writes `(point NAME INSTR (assert F*) ON*)`, with this outline, after a space.
fn write_point<S: Spelling>(
    out: &mut String,
    parts: &Parts,
    spelling: &S,
    point: &Point,
    outline: Option<&Outline>,
) -> Result<(), OutOfMemory>
    ensures { OnOk result (string_bytes out.new ≡ string_bytes out.old ++ codes " " ++ printed_tree (point_tree (parts_view parts.now) (S.spelled spelling.now) (point_of point.now) (option_map (λ outline. outline_of outline.now) outline.entry))) }
{
    out.push_str(" (point ")?;
    out.push_str(point.name.as_str())?;
    out.push_str(" ")?;
    write_instruction(out, parts.object.parts(), spelling, &point.instruction)?;
    write_outline(out, parts, spelling, outline)?;
    out.push_str(")")?;
    Ok(())
}

/// What is beside the code of the point of this number.
fn outline_at(parts: &Parts, number: usize) -> Option<&Outline>
    ensures { option_map (λ outline. outline_of outline.now) result ≡ slice_get (parts_view parts.now).outlines number }
{
    parts.outlines.get(number)
}

/// Writes `POINT+`, for the body of this operation, each after a space.
fn write_points<S: Spelling>(
    out: &mut String,
    parts: &Parts,
    spelling: &S,
    operation: usize,
    points: &[Point],
) -> Result<(), OutOfMemory>
    ensures { OnOk result (string_bytes out.new ≡ string_bytes out.old ++ printed_others (point_trees (parts_view parts.now) (S.spelled spelling.now) operation 0 (map point_of points.now))) }
{
    for (number, point) in points.iter().enumerate() {
        if point.operation.0 as usize == operation {
            write_point(out, parts, spelling, point, outline_at(parts, number))?;
        }
    }
    Ok(())
}

/// Writes `(body OP (LOCAL*) POINT+)`, for the operation of this number, after a space.
fn write_body_with<S: Spelling>(
    out: &mut String,
    parts: &Parts,
    spelling: &S,
    number: usize,
    operation: &Operation,
) -> Result<(), OutOfMemory>
    ensures { OnOk result (string_bytes out.new ≡ string_bytes out.old ++ codes " " ++ printed_tree (body_with (parts_view parts.now) (S.spelled spelling.now) number (operation_of operation.now))) }
{
    out.push_str(" (body ")?;
    out.push_str(operation.name.as_str())?;
    write_name_list(out, &operation.locals)?;
    write_points(out, parts, spelling, number, &parts.object.parts().points)?;
    out.push_str(")")?;
    Ok(())
}

/// Writes the body of the operation of this number after a space, with columns by these names.
fn write_body(
    alloc: Global,
    out: &mut String,
    columns: &[&str],
    parts: &Parts,
    number: usize,
    operation: &Operation,
) -> Result<(), OutOfMemory>
    requires { names_in columns.now ≡ column_names (parts_view parts.now) }
    ensures { OnOk result (string_bytes out.new ≡ string_bytes out.old ++ codes " " ++ printed_tree (body_tree (parts_view parts.now) number (operation_of operation.now))) }
{
    let variables = variables_behind(alloc, &operation.arguments, &operation.locals)?;
    let named = Named {
        columns,
        variables: &variables,
    };
    write_body_with(out, parts, &named, number, operation)
}

/// Writes `BODY+`, for these operations, each after a space.
pub(crate) fn write_bodies(
    alloc: Global,
    out: &mut String,
    columns: &[&str],
    parts: &Parts,
    operations: &[Operation],
) -> Result<(), OutOfMemory>
    requires { names_in columns.now ≡ column_names (parts_view parts.now) }
    ensures { OnOk result (string_bytes out.new ≡ string_bytes out.old ++ printed_others (body_trees (parts_view parts.now) 0 (map operation_of operations.now))) }
{
    for (number, operation) in operations.iter().enumerate() {
        write_body(alloc, out, columns, parts, number, operation)?;
    }
    Ok(())
}

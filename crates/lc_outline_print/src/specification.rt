//! How specifications are printed.
ghost use Rattle.std.specs.Prelude.{◌≡◌, ◌++◌, OnOk, codes, string_bytes, map};
ghost use Rattle.std.specs.Fmt.{decimal};
ghost use Rattle.lc_base.specs.Name.{bytes_of};
ghost use Rattle.lc_reading.specs.Words.{names_in};
ghost use Rattle.lc_seq.specs.Sequential.{given_in};
ghost use Rattle.lc_seq.specs.SpecView.{column_of, label_of, branch_of, operation_of};
ghost use Rattle.lc_seq.specs.TextView.{specification_of};
ghost use Rattle.lc_sexp.specs.Printed.{printed_tree, printed_items, printed_others};
ghost use Rattle.lc_sexp.specs.Trees.{none, row};
ghost use Rattle.lc_outline_print.specs.Specifications.{declared_tree, branch_parts, labelled, branch_with, branch_tree, operation_tree, specification_tree};

use crate::naming::{Named, variables_behind};
use crate::parts::{
    write_column, write_formula_part, write_name_list, write_term_list, write_update_list,
};
use lc_base::{Name, OutOfMemory};
use lc_seq::{Branch, Column, Label, Operation, TextSpec};
use lc_text::Spelling;
use std::alloc::Global;

/// Writes `COL*`, each after a space.
pub(crate) fn write_columns(out: &mut String, columns: &[Column]) -> Result<(), OutOfMemory>
    ensures { OnOk result (string_bytes out.new ≡ string_bytes out.old ++ printed_others (row (map declared_tree (map column_of columns.now)))) }
{
    for column in columns {
        write_column(out, &column.name, column.slope, column.start)?;
    }
    Ok(())
}

/// The parameters of a branch of this label.
fn parameters_of(label: &Label) -> &[Name]
    ensures { map bytes_of result.now ≡ given_in (label_of label.now) }
{
    match label {
        Label::First => &[],
        Label::Named { parameters, .. } => parameters,
    }
}

/// Writes how a branch begins, after a space: `(branch`, or `(choice NAME (PARAM*)`.
fn write_label(out: &mut String, label: &Label) -> Result<(), OutOfMemory>
    ensures { OnOk result (string_bytes out.new ≡ string_bytes out.old ++ codes " (" ++ printed_items (labelled (label_of label.now) none)) }
{
    match label {
        Label::First => out.push_str(" (branch")?,
        Label::Named { name, parameters } => {
            out.push_str(" (choice ")?;
            out.push_str(name.as_str())?;
            write_name_list(out, parameters)?;
        }
    }
    Ok(())
}

/// Writes `F (UPDATE*) (T*)`, each after a space.
fn write_branch_parts<S: Spelling>(
    out: &mut String,
    spelling: &S,
    branch: &Branch,
) -> Result<(), OutOfMemory>
    ensures { OnOk result (string_bytes out.new ≡ string_bytes out.old ++ printed_others (branch_parts (S.spelled spelling.now) (branch_of branch.now))) }
{
    write_formula_part(out, spelling, &branch.guard)?;
    write_update_list(out, spelling, &branch.updates)?;
    write_term_list(out, spelling, &branch.replies)
}

/// Writes `(branch F (UPDATE*) (T*))` or `(choice NAME (PARAM*) F (UPDATE*) (T*))` after a space.
#[tactic(auto, using(crate::proofs::Printed::label_text))]
fn write_branch_with<S: Spelling>(
    out: &mut String,
    spelling: &S,
    branch: &Branch,
) -> Result<(), OutOfMemory>
    ensures { OnOk result (string_bytes out.new ≡ string_bytes out.old ++ codes " " ++ printed_tree (branch_with (S.spelled spelling.now) (branch_of branch.now))) }
{
    write_label(out, &branch.label)?;
    write_branch_parts(out, spelling, branch)?;
    out.push_str(")")?;
    Ok(())
}

/// Writes a branch after a space, for an operation with these arguments, with columns by these names.
fn write_branch(
    alloc: Global,
    out: &mut String,
    columns: &[&str],
    arguments: &[Name],
    branch: &Branch,
) -> Result<(), OutOfMemory>
    ensures { OnOk result (string_bytes out.new ≡ string_bytes out.old ++ codes " " ++ printed_tree (branch_tree (names_in columns.now) (map bytes_of arguments.now) (branch_of branch.now))) }
{
    let variables = variables_behind(alloc, arguments, parameters_of(&branch.label))?;
    let named = Named {
        columns,
        variables: &variables,
    };
    write_branch_with(out, &named, branch)
}

/// Writes `BRANCH+` or `CHOICE+`, each after a space.
fn write_branches(
    alloc: Global,
    out: &mut String,
    columns: &[&str],
    arguments: &[Name],
    branches: &[Branch],
) -> Result<(), OutOfMemory>
    ensures { OnOk result (string_bytes out.new ≡ string_bytes out.old ++ printed_others (row (map (branch_tree (names_in columns.now) (map bytes_of arguments.now)) (map branch_of branches.now)))) }
{
    for branch in branches {
        write_branch(alloc, out, columns, arguments, branch)?;
    }
    Ok(())
}

/// Writes a count after a space.
fn write_count(out: &mut String, count: u32) -> Result<(), OutOfMemory>
    ensures { OnOk result (string_bytes out.new ≡ string_bytes out.old ++ codes " " ++ decimal count) }
{
    write!(out, " {count}")?;
    Ok(())
}

/// Writes `(op NAME (ARG*) REPLIES BRANCH+)`, or with `CHOICE+`, after a space, with columns by these names.
fn write_operation(
    alloc: Global,
    out: &mut String,
    columns: &[&str],
    operation: &Operation,
) -> Result<(), OutOfMemory>
    ensures { OnOk result (string_bytes out.new ≡ string_bytes out.old ++ codes " " ++ printed_tree (operation_tree (names_in columns.now) (operation_of operation.now))) }
{
    out.push_str(" (op ")?;
    out.push_str(operation.name.as_str())?;
    write_name_list(out, &operation.arguments)?;
    write_count(out, operation.replies)?;
    write_branches(
        alloc,
        out,
        columns,
        &operation.arguments,
        &operation.branches,
    )?;
    out.push_str(")")?;
    Ok(())
}

/// Writes `OP+`, each after a space.
fn write_operations(
    alloc: Global,
    out: &mut String,
    columns: &[&str],
    operations: &[Operation],
) -> Result<(), OutOfMemory>
    ensures { OnOk result (string_bytes out.new ≡ string_bytes out.old ++ printed_others (row (map (operation_tree (names_in columns.now)) (map operation_of operations.now)))) }
{
    for operation in operations {
        write_operation(alloc, out, columns, operation)?;
    }
    Ok(())
}

/// Writes `(spec NAME (abstract COL*) OP+)`.
pub(crate) fn write_specification(
    alloc: Global,
    out: &mut String,
    columns: &[&str],
    specification: &TextSpec,
) -> Result<(), OutOfMemory>
    ensures { OnOk result (string_bytes out.new ≡ string_bytes out.old ++ printed_tree (specification_tree (names_in columns.now) (specification_of specification.now))) }
{
    let name = specification.name();
    out.push_str("(spec ")?;
    out.push_str(name.as_str())?;
    out.push_str(" (abstract")?;
    write_columns(out, specification.columns())?;
    out.push_str(")")?;
    write_operations(alloc, out, columns, specification.operations())?;
    out.push_str(")")?;
    Ok(())
}

//! By which names the text of a development speaks of what has a number.
ghost use Rattle.std.specs.Prelude.{◌≡◌, ◌++◌, IfOk, OnOk, codes, string_bytes, map};
ghost use Rattle.lc_base.specs.Name.{bytes_of};
ghost use Rattle.lc_reading.specs.Words.{names_in};
ghost use Rattle.lc_object.specs.View.{parts_of};
ghost use Rattle.lc_action.specs.ActionView.{action_of};
ghost use Rattle.lc_outline_print.specs.Naming.{with_client, array_name, label, operation_name, action_name};

use lc_action::Action;
use lc_base::{ColId, Name, OpId, OutOfMemory, PointId};
use lc_object::{ArrayId, Parts};
use lc_outline::ActionId;
use lc_text::Spelling;
use std::alloc::Global;

/// Columns and variables by these names.
#[derive(Clone, Copy)]
pub(crate) struct Named<'a, 'b, 'c, 'd> {
    pub(crate) columns: &'b [&'a str],
    pub(crate) variables: &'d [&'c str],
}

impl Spelling for Named<'_, '_, '_, '_> {
    ghost use Rattle.lc_reading.specs.Words.{names_in};
    ghost use Rattle.lc_outline_print.specs.Naming.{named_by};

    ghost spelled = { λ named. named_by (names_in named.columns.now) (names_in named.variables.now) };

    fn variable(&self, out: &mut String, number: u32) -> Result<(), OutOfMemory> {
        if let Some(name) = self.variables.get(number as usize) {
            out.push_str(name)?;
        }
        Ok(())
    }

    fn column(&self, out: &mut String, column: ColId) -> Result<(), OutOfMemory> {
        if let Some(name) = self.columns.get(column.0 as usize) {
            out.push_str(name)?;
        }
        Ok(())
    }
}

/// These, followed by these names.
fn with_names<'a>(before: Vec<&'a str>, names: &'a [Name]) -> Result<Vec<&'a str>, OutOfMemory>
    ensures { IfOk result (λ all. names_in all.items ≡ names_in before.entry.items ++ map bytes_of names.now) }
{
    let mut all = before;
    for name in names {
        all.push(name.as_str())?;
    }
    Ok(all)
}

/// The number of clients, the client, and then these variables.
pub(crate) fn client_variables<'a>(
    alloc: Global,
    names: &'a [Name],
) -> Result<Vec<&'a str>, OutOfMemory>
    ensures { IfOk result (λ all. names_in all.items ≡ with_client (map bytes_of names.now)) }
{
    let mut all = Vec::new(alloc);
    all.push("N")?;
    all.push("self")?;
    with_names(all, names)
}

/// The number of clients, the client, the arguments, and then these variables.
pub(crate) fn variables_behind<'a>(
    alloc: Global,
    arguments: &'a [Name],
    names: &'a [Name],
) -> Result<Vec<&'a str>, OutOfMemory>
    ensures { IfOk result (λ all. names_in all.items ≡ with_client (map bytes_of arguments.now ++ map bytes_of names.now)) }
{
    with_names(client_variables(alloc, arguments)?, names)
}

/// Writes the name of an array.
pub(crate) fn write_array_name(
    out: &mut String,
    object: &Parts,
    array: ArrayId,
) -> Result<(), OutOfMemory>
    ensures { OnOk result (string_bytes out.new ≡ string_bytes out.old ++ array_name (parts_of object.now) array.0) }
{
    if let Some(array) = object.arrays.get(array.0 as usize) {
        out.push_str(array.name.as_str())?;
    }
    Ok(())
}

/// Writes the name of a point.
pub(crate) fn write_label(
    out: &mut String,
    object: &Parts,
    point: PointId,
) -> Result<(), OutOfMemory>
    ensures { OnOk result (string_bytes out.new ≡ string_bytes out.old ++ label (parts_of object.now) point.0) }
{
    if let Some(point) = object.points.get(point.0 as usize) {
        out.push_str(point.name.as_str())?;
    }
    Ok(())
}

/// Writes the name of an operation after a space.
pub(crate) fn write_operation_name(
    out: &mut String,
    object: &Parts,
    operation: OpId,
) -> Result<(), OutOfMemory>
    ensures { OnOk result (string_bytes out.new ≡ string_bytes out.old ++ codes " " ++ operation_name (parts_of object.now) operation.0) }
{
    out.push_str(" ")?;
    if let Some(operation) = object.operations.get(operation.0 as usize) {
        out.push_str(operation.name.as_str())?;
    }
    Ok(())
}

/// Writes the name of an action.
pub(crate) fn write_action_name(
    out: &mut String,
    actions: &[Action],
    action: ActionId,
) -> Result<(), OutOfMemory>
    ensures { OnOk result (string_bytes out.new ≡ string_bytes out.old ++ action_name (map action_of actions.now) action.0) }
{
    if let Some(action) = actions.get(action.0 as usize) {
        out.push_str(action.name.as_str())?;
    }
    Ok(())
}

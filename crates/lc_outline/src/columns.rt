//! The names of a development's columns.
ghost use Rattle.std.specs.Prelude.{◌≡◌, ◌++◌, IfOk, map};
ghost use Rattle.lc_term.specs.SystemColumns.{system_columns};
ghost use Rattle.lc_seq.specs.Specification as Q;
ghost use Rattle.lc_seq.specs.SpecView.{columns_of};
ghost use Rattle.lc_object.specs.Syntax as O;
ghost use Rattle.lc_object.specs.View.{column_view};
ghost use Rattle.lc_outline.specs.PartsView.{parts_view};
ghost use Rattle.lc_reading.specs.Words.{names_in};
ghost use Rattle.lc_outline.specs.ColumnNames.{column_names, name_at};

use crate::parts::Parts;
use lc_base::{ColId, OutOfMemory};
use std::alloc::Global;

/// The columns that each object has beside its own, by their numbers.
const SYSTEM_COLUMNS: [&str; 12] = [
    "pend", "op", "arg1", "arg2", "arg3", "rep1", "rep2", "rep3", "noted", "note1", "note2",
    "note3",
];

/// The names with those of abstract or auxiliary columns.
fn with_columns<'a>(
    names: Vec<&'a str>,
    columns: &'a [lc_seq::Column],
) -> Result<Vec<&'a str>, OutOfMemory>
    ensures { IfOk result (λ all. names_in all.items ≡ names_in names.entry.items ++ map (λ (c : Q.Column). c.name) (columns_of columns.now)) }
{
    let mut names = names;
    for column in columns {
        names.push(column.name.as_str())?;
    }
    Ok(names)
}

/// The names with those of concrete columns.
fn with_concretes<'a>(
    names: Vec<&'a str>,
    columns: &'a [lc_object::Column],
) -> Result<Vec<&'a str>, OutOfMemory>
    ensures { IfOk result (λ all. names_in all.items ≡ names_in names.entry.items ++ map (λ (c : O.Column). c.name) (map column_view columns.now)) }
{
    let mut names = names;
    for column in columns {
        names.push(column.name.as_str())?;
    }
    Ok(names)
}

/// The names with those of system columns.
fn with_system_columns<'a>(names: Vec<&'a str>) -> Result<Vec<&'a str>, OutOfMemory>
    ensures { IfOk result (λ all. names_in all.items ≡ names_in names.entry.items ++ system_columns) }
{
    let mut names = names;
    names.extend_from_slice(&SYSTEM_COLUMNS)?;
    Ok(names)
}

/// The names of all columns, by their numbers.
pub fn column_names<'a>(alloc: Global, parts: &'a Parts) -> Result<Vec<&'a str>, OutOfMemory>
    ensures { IfOk result (λ all. names_in all.items ≡ column_names (parts_view parts.now)) }
{
    let names = with_columns(Vec::new(alloc), parts.specification.columns())?;
    let names = with_concretes(names, &parts.object.parts().concretes)?;
    let names = with_columns(names, &parts.auxiliaries)?;
    with_system_columns(names)
}

/// The name of a system column, by its place among these.
fn system_name(place: usize) -> &'static str
    ensures { result.now ≡ name_at system_columns place }
{
    match SYSTEM_COLUMNS.get(place) {
        Some(name) => name,
        None => "",
    }
}

/// The name of an auxiliary column, or of a system column after them.
fn late_name(parts: &Parts, place: usize) -> &str
    ensures { result.now ≡ name_at (map (λ (c : Q.Column). c.name) (parts_view parts.now).auxiliaries ++ system_columns) place }
{
    let auxiliaries = &parts.auxiliaries;
    if place < auxiliaries.len() {
        auxiliaries[place].name.as_str()
    } else {
        system_name(place - auxiliaries.len())
    }
}

/// The name of a column of the object, or of one after them.
fn later_name(parts: &Parts, place: usize) -> &str
    ensures { let D = parts_view parts.now in
        result.now ≡ name_at (map (λ (c : O.Column). c.name) D.object.concretes ++ (map (λ (c : Q.Column). c.name) D.auxiliaries ++ system_columns)) place }
{
    let concretes = &parts.object.parts().concretes;
    if place < concretes.len() {
        concretes[place].name.as_str()
    } else {
        late_name(parts, place - concretes.len())
    }
}

/// The name of a column; an empty text after the last.
pub fn column_name(parts: &Parts, column: ColId) -> &str
    ensures { result.now ≡ name_at (column_names (parts_view parts.now)) column.0 }
{
    let place = column.0 as usize;
    let abstracts = parts.specification.columns();
    if place < abstracts.len() {
        abstracts[place].name.as_str()
    } else {
        later_name(parts, place - abstracts.len())
    }
}

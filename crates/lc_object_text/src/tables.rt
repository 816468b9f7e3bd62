//! How an object's name and its arrays are read.
ghost use Rattle.std.specs.Prelude.{[], None, codes};
ghost use Rattle.lc_base.specs.Name.{bytes_of};
ghost use Rattle.lc_sexp.specs.Shown.{rest_of, number_of};
ghost use Rattle.lc_object.specs.View.{names_of};
ghost use Rattle.lc_reading.specs.Naming.{name_reading};
ghost use Rattle.lc_reading.specs.Results.{IsReading};
ghost use Rattle.lc_object_text.specs.DeclaredView.{declared_view};
ghost use Rattle.lc_object_text.specs.Declaring.{section_reading};
ghost use Rattle.lc_object_text.specs.Objects.{first_reading, arrays_reading, conditions_reading, auxiliaries_reading, tables_reading};
ghost use Rattle.lc_object_text.specs.Seen.{sections_view};
ghost use Rattle.lc_object_text.specs.Texts.{arrays_view, tables_view};

use crate::arrays::{ArrayText, Arrays};
use crate::declared::Declared;
use crate::declaring::{ColumnNames, read_kth_name, read_section};
use crate::headed_lists::read_headed;
use crate::rows::read_lists;
use crate::sections::Sections;
use lc_base::Name;
use lc_reading::{NameTable, Pass, ReadFault, both, next_part, wrong};
use lc_sexp::Cursor;
use std::alloc::Global;

/// An object without its bodies: its name, its arrays, and the names of its auxiliary columns.
#[derive(Drop)]
pub struct Tables {
    pub name: Name,
    pub arrays: Vec<ArrayText>,
    pub auxiliaries: Vec<Name>,
}

/// The name of the object of this number, which comes next.
pub fn read_object_name(alloc: Global, object: u64, mut list: Cursor<'_>) -> Result<Name, ReadFault>
    ensures { IsReading bytes_of (first_reading (name_reading None []) object (number_of list.entry) (rest_of list.entry)) result }
{
    match next_part(&mut list) {
        Ok(part) => read_kth_name(&NameTable::new(alloc), 0, part),
        Err(_) => Err(wrong(Pass::Shape, object)),
    }
}

/// The name and the arrays of the object of this number.
fn read_arrays(
    alloc: Global,
    declared: &Declared<'_>,
    sections: &Sections<'_>,
    object: u64,
) -> Result<(Name, Vec<ArrayText>), ReadFault>
    ensures { IsReading arrays_view (arrays_reading (declared_view declared.now) (sections_view sections.now) object) result }
{
    let name = read_object_name(alloc, object, sections.object);
    let arrays = read_lists(alloc, &Arrays(declared), "array", sections.arrays);
    both(name, arrays)
}

/// `(invariant ..) (idle ..)` of the object of this number, with only the first words looked at.
fn read_conditions(object: u64, mut list: Cursor<'_>) -> Result<(), ReadFault>
    ensures { IsReading (λ u. u) (conditions_reading object (number_of list.entry) (rest_of list.entry)) result }
{
    let Ok(first) = next_part(&mut list) else {
        return Err(wrong(Pass::Shape, object));
    };
    let Ok(second) = next_part(&mut list) else {
        return Err(wrong(Pass::Shape, object));
    };
    match both(read_headed(first, "invariant"), read_headed(second, "idle")) {
        Ok(((), ())) => Ok(()),
        Err(fault) => Err(fault),
    }
}

/// The names of the auxiliary columns, `(aux (NAME ..) ..)`, which come next.
fn read_auxiliary_names(
    alloc: Global,
    declared: &Declared<'_>,
    object: u64,
    mut list: Cursor<'_>,
) -> Result<Vec<Name>, ReadFault>
    ensures { IsReading (λ names. names_of names.items) (first_reading (section_reading (codes "aux") (declared_view declared.now).columns (declared_view declared.now).auxiliaries) object (number_of list.entry) (rest_of list.entry)) result }
{
    let columns = ColumnNames {
        names: &declared.columns,
        base: declared.auxiliaries,
    };
    match next_part(&mut list) {
        Ok(part) => read_section(alloc, &columns, "aux", part),
        Err(_) => Err(wrong(Pass::Shape, object)),
    }
}

/// The names of the auxiliary columns, and what is between them and the bodies.
fn read_auxiliaries(
    alloc: Global,
    declared: &Declared<'_>,
    sections: &Sections<'_>,
    object: u64,
) -> Result<Vec<Name>, ReadFault>
    ensures { IsReading (λ names. names_of names.items) (auxiliaries_reading (declared_view declared.now) (sections_view sections.now) object) result }
{
    let names = read_auxiliary_names(alloc, declared, object, sections.auxiliaries);
    match both(read_conditions(object, sections.invariant), names) {
        Ok(((), names)) => Ok(names),
        Err(fault) => Err(fault),
    }
}

/// The object of this number without its bodies.
pub fn read_tables(
    alloc: Global,
    declared: &Declared<'_>,
    sections: &Sections<'_>,
    object: u64,
) -> Result<Tables, ReadFault>
    ensures { IsReading tables_view (tables_reading (declared_view declared.now) (sections_view sections.now) object) result }
{
    let arrays = read_arrays(alloc, declared, sections, object);
    let auxiliaries = read_auxiliaries(alloc, declared, sections, object);
    match both(arrays, auxiliaries) {
        Ok(((name, arrays), auxiliaries)) => Ok(Tables {
            name,
            arrays,
            auxiliaries,
        }),
        Err(fault) => Err(fault),
    }
}

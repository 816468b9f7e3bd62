//! How the arrays of an object are read.
ghost use Rattle.std.specs.Prelude.{◌≡◌, map, slice_get};
ghost use Rattle.lc_base.specs.Name.{bytes_of};
ghost use Rattle.lc_sexp.specs.Shown.{rest_of, number_of, owner_of};
ghost use Rattle.lc_object.specs.View.{column_view};
ghost use Rattle.lc_reading.specs.Parts.{tree_of, place_of};
ghost use Rattle.lc_reading.specs.Results.{IsReading};
ghost use Rattle.lc_reading.specs.TableView.{listed};
ghost use Rattle.lc_object_text.specs.DeclaredView.{declared_view, spans_view};
ghost use Rattle.lc_object_text.specs.Objects.{first_column, own_name_reading, column_parts, column_reading, columns_reading, array_parts, array_reading};
ghost use Rattle.lc_object_text.specs.Texts.{array_view};

use crate::declared::{Declared, Span};
use crate::declaring::read_kth_name;
use crate::rows::{ReadsPlaced, read_placed};
use lc_base::{COLUMN_LIMIT, Name, WIDTH_LIMIT};
use lc_object::Column;
use lc_reading::{NameTable, Part, Pass, ReadFault, behind_word, both, limited, next_part, wrong};
use lc_sexp::{Cursor, Item};
use lc_text::read_numbers;
use std::alloc::Global;

/// An array: its name, and its columns.
#[derive(Drop)]
pub struct ArrayText {
    pub name: Name,
    pub columns: Vec<Column>,
}

/// The columns of an array, after those of earlier arrays of an object.
#[derive(Clone, Copy)]
struct Columns<'a, 'b> {
    names: &'b NameTable<'a>,
    base: u32,
}

/// The name of a column, with `place` columns of its array before it.
fn read_own_name(
    reader: &Columns<'_, '_>,
    place: u32,
    number: u64,
    part: Part<'_>,
) -> Result<Name, ReadFault>
    ensures { IsReading bytes_of (own_name_reading (listed reader.now.names.now) reader.now.base place number (place_of part.entry) (tree_of part.entry)) result }
{
    let before = u64::from(reader.base) + u64::from(place);
    let name = read_kth_name(reader.names, before, part);
    let name = limited(COLUMN_LIMIT <= before, number, name);
    limited(WIDTH_LIMIT as u64 <= u64::from(place), number, name)
}

/// `NAME a b`
fn read_column_parts(
    reader: &Columns<'_, '_>,
    place: u32,
    list: Cursor<'_>,
) -> Result<Column, ReadFault>
    ensures { IsReading column_view (column_parts (listed reader.now.names.now) reader.now.base place (owner_of list.entry) (number_of list.entry) (rest_of list.entry)) result }
{
    let mut rest = list;
    let name = next_part(&mut rest)?;
    let name = read_own_name(reader, place, list.owner(), name);
    match both(name, read_numbers(rest)) {
        Ok((name, (slope, start))) => Ok(Column { name, slope, start }),
        Err(fault) => Err(fault),
    }
}

impl ReadsPlaced for Columns<'_, '_> {
    ghost use Rattle.lc_object.specs.Syntax.{Column};
    ghost use Rattle.lc_object.specs.View.{column_view};
    ghost use Rattle.lc_reading.specs.TableView.{listed};
    ghost use Rattle.lc_object_text.specs.Objects.{column_reading};

    type Value = Column;

    ghost Meaning = { Column };

    ghost meaning = { column_view };

    ghost reading = { λ reader. column_reading (listed reader.names.now) reader.base };

    fn read(&self, _: Global, place: u32, part: Part<'_>) -> Result<Column, ReadFault> {
        match part.item() {
            Item::Atom(atom) => Err(wrong(Pass::Shape, atom.number())),
            Item::List(list) => read_column_parts(self, place, list),
        }
    }
}

/// The place of the first column of an array.
fn first_column(spans: &[Span], place: u32) -> u32
    ensures { result ≡ first_column (slice_get (spans_view spans.now) place) }
{
    match spans.get(place as usize) {
        Some(span) => span.first,
        None => 0,
    }
}

/// The columns that are left in an array, one at least.
fn read_columns(
    alloc: Global,
    declared: &Declared<'_>,
    place: u32,
    list: Cursor<'_>,
) -> Result<Vec<Column>, ReadFault>
    ensures { IsReading (λ columns. map column_view columns.items) (columns_reading (declared_view declared.now) place (owner_of list.entry) (number_of list.entry) (rest_of list.entry)) result }
{
    if list.is_empty() {
        return Err(wrong(Pass::Shape, list.owner()));
    }
    let reader = Columns {
        names: &declared.columns,
        base: first_column(&declared.spans, place),
    };
    read_placed(alloc, &reader, list)
}

/// `NAME COL ..`
fn read_array_parts(
    alloc: Global,
    declared: &Declared<'_>,
    place: u32,
    list: Cursor<'_>,
) -> Result<ArrayText, ReadFault>
    ensures { IsReading array_view (array_parts (declared_view declared.now) place (owner_of list.entry) (number_of list.entry) (rest_of list.entry)) result }
{
    let mut rest = list;
    let name = next_part(&mut rest)?;
    let name = read_kth_name(&declared.arrays, u64::from(place), name);
    match both(name, read_columns(alloc, declared, place, rest)) {
        Ok((name, columns)) => Ok(ArrayText { name, columns }),
        Err(fault) => Err(fault),
    }
}

/// Reads the arrays of an object.
#[derive(Clone, Copy)]
pub struct Arrays<'a, 'b>(pub &'b Declared<'a>);

impl ReadsPlaced for Arrays<'_, '_> {
    ghost use Rattle.lc_object_text.specs.DeclaredView.{declared_view};
    ghost use Rattle.lc_object_text.specs.Objects as O;
    ghost use Rattle.lc_object_text.specs.Objects.{array_reading};
    ghost use Rattle.lc_object_text.specs.Texts.{array_view};

    type Value = ArrayText;

    ghost Meaning = { O.ArrayText };

    ghost meaning = { array_view };

    ghost reading = { λ reader. array_reading (declared_view reader.0.now) };

    fn read(&self, alloc: Global, place: u32, part: Part<'_>) -> Result<ArrayText, ReadFault> {
        let parts = behind_word(part, "array")?;
        read_array_parts(alloc, self.0, place, parts)
    }
}

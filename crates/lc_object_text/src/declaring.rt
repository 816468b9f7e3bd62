//! How the names are read that a file declares, when each of them is in its table already.
ghost use Rattle.std.specs.Prelude.{◌≡◌, ◌+◌, ◌++◌, ◌||◌, true, length, take, if◌then◌else◌};
ghost use Rattle.std.specs.List.{list_any};
ghost use Rattle.lc_base.specs.Limits.{local_limit};
ghost use Rattle.lc_base.specs.Name.{bytes_of};
ghost use Rattle.lc_base.specs.NameText.{is_name};
ghost use Rattle.lc_sexp.specs.Shown.{text_of, atom_number, rest_of};
ghost use Rattle.lc_object.specs.View.{names_of};
ghost use Rattle.lc_reading.specs.Listed.{names_among};
ghost use Rattle.lc_reading.specs.Naming.{within};
ghost use Rattle.lc_reading.specs.Parts.{tree_of, place_of};
ghost use Rattle.lc_reading.specs.Readings.{wrong};
ghost use Rattle.lc_reading.specs.Reserved.{is_reserved};
ghost use Rattle.lc_reading.specs.Results.{IsReading};
ghost use Rattle.lc_reading.specs.TableView.{listed};
ghost use Rattle.lc_reading.specs.Words.{is};
ghost use Rattle.lc_reading.specs.declared.pass.Pass.TheVariants.{Repeated};
ghost use Rattle.lc_object_text.specs.Declaring.{kth_name_reading, listed_name_reading, names_reading, column_name_reading, section_reading};

use crate::declared::Body;
use crate::rows::{ReadsPlaced, read_placed};
use lc_base::{COLUMN_LIMIT, LOCAL_LIMIT, Name};
use lc_reading::{
    NameTable, Part, Pass, ReadFault, behind_word, is_reserved, limited, name_at, next_part, wrong,
};
use lc_sexp::{Atom, Cursor, Item};
use std::alloc::Global;

/// Whether a name is among the first `count` of these.
fn stands_before(names: &NameTable<'_>, count: u64, text: &str) -> bool
    ensures { result ≡ list_any (is text.now) (take count (listed names.now)) }
{
    match names.place_from(count as usize, text) {
        None => false,
        Some(first) => (first as u64) < count,
    }
}

/// The name that an atom declares, which is already among those before it or not.
fn declared_name(name: Atom<'_>, is_repeated: bool) -> Result<Name, ReadFault>
    requires { is_name (text_of name) ≡ true }
    ensures { IsReading bytes_of (if is_reserved (text_of name.entry) || is_repeated then wrong Repeated (atom_number name.entry)
        else within (atom_number name.entry) (text_of name.entry) (text_of name.entry)) result }
{
    if is_reserved(name.text()) || is_repeated {
        return Err(wrong(Pass::Repeated, name.number()));
    }
    match Name::new(name.text()) {
        Some(name) => Ok(name),
        None => Err(wrong(Pass::Bound, name.number())),
    }
}

/// The name that an item declares, which is one of these, after the first `place` of them.
pub fn read_kth_name(names: &NameTable<'_>, place: u64, part: Part<'_>) -> Result<Name, ReadFault>
    ensures { IsReading bytes_of (kth_name_reading (listed names.now) place (place_of part.entry) (tree_of part.entry)) result }
{
    let name = name_at(part)?;
    declared_name(name, stands_before(names, place, name.text()))
}

/// Names in a list, at most `limit`, which come after `base` others of these.
#[derive(Clone, Copy)]
pub struct Names<'a, 'b> {
    pub limit: u64,
    pub names: &'b NameTable<'a>,
    pub base: u32,
}

impl ReadsPlaced for Names<'_, '_> {
    ghost use Rattle.std.specs.Prelude.{ℕ, List};
    ghost use Rattle.lc_base.specs.Name.{bytes_of};
    ghost use Rattle.lc_reading.specs.TableView.{listed};
    ghost use Rattle.lc_object_text.specs.Declaring.{listed_name_reading};

    type Value = Name;

    ghost Meaning = { List ℕ };

    ghost meaning = { bytes_of };

    ghost reading = { λ reader. listed_name_reading reader.limit (listed reader.names.now) reader.base };

    fn read(&self, _: Global, place: u32, part: Part<'_>) -> Result<Name, ReadFault> {
        let before = u64::from(self.base) + u64::from(place);
        let name = read_kth_name(self.names, before, part);
        limited(self.limit <= u64::from(place), part.number(), name)
    }
}

/// The names in an item, where a list of these is expected.
pub fn read_names(
    alloc: Global,
    reader: &Names<'_, '_>,
    part: Part<'_>,
) -> Result<Vec<Name>, ReadFault>
    ensures { IsReading (λ names. names_of names.items) (names_reading reader.now.limit (listed reader.now.names.now) reader.now.base (place_of part.entry) (tree_of part.entry)) result }
{
    match part.item() {
        Item::Atom(atom) => Err(wrong(Pass::Shape, atom.number())),
        Item::List(list) => read_placed(alloc, reader, list),
    }
}

/// The locals of a body in a list; they come after the arguments of its operation.
#[derive(Clone, Copy)]
struct Locals<'a, 'b>(&'b Body<'a>);

/// Whether a name is among the arguments, or among the first `count` of the locals.
fn stands_before_local(body: &Body<'_>, count: u64, text: &str) -> bool
    ensures { result ≡ list_any (is text.now) (take (length (names_among (rest_of body.now.arguments)) + count) (names_among (rest_of body.now.arguments) ++ listed body.now.locals)) }
{
    body.argument_names.contains(text) || stands_before(&body.locals, count, text)
}

/// The name that an item declares, which is one of the locals, after the first `place` of them.
fn read_local_name(body: &Body<'_>, place: u64, part: Part<'_>) -> Result<Name, ReadFault>
    ensures { IsReading bytes_of (kth_name_reading (names_among (rest_of body.now.arguments) ++ listed body.now.locals) (length (names_among (rest_of body.now.arguments)) + place)
        (place_of part.entry) (tree_of part.entry)) result }
{
    let name = name_at(part)?;
    declared_name(name, stands_before_local(body, place, name.text()))
}

impl ReadsPlaced for Locals<'_, '_> {
    ghost use Rattle.std.specs.Prelude.{ℕ, List, ◌++◌, length};
    ghost use Rattle.lc_base.specs.Limits.{local_limit};
    ghost use Rattle.lc_base.specs.Name.{bytes_of};
    ghost use Rattle.lc_sexp.specs.Shown.{rest_of};
    ghost use Rattle.lc_reading.specs.Listed.{names_among};
    ghost use Rattle.lc_reading.specs.TableView.{listed};
    ghost use Rattle.lc_object_text.specs.Declaring.{listed_name_reading};

    type Value = Name;

    ghost Meaning = { List ℕ };

    ghost meaning = { bytes_of };

    ghost reading = { λ reader. listed_name_reading local_limit (names_among (rest_of reader.0.now.arguments) ++ listed reader.0.now.locals) (length (names_among (rest_of reader.0.now.arguments))) };

    fn read(&self, _: Global, place: u32, part: Part<'_>) -> Result<Name, ReadFault> {
        let before = u64::from(place);
        let name = read_local_name(self.0, before, part);
        limited(LOCAL_LIMIT as u64 <= before, part.number(), name)
    }
}

/// The locals in an item, where a list of those of this body is expected.
pub(crate) fn read_local_names(
    alloc: Global,
    body: &Body<'_>,
    part: Part<'_>,
) -> Result<Vec<Name>, ReadFault>
    ensures { IsReading (λ names. names_of names.items) (names_reading local_limit (names_among (rest_of body.now.arguments) ++ listed body.now.locals) (length (names_among (rest_of body.now.arguments)))
        (place_of part.entry) (tree_of part.entry)) result }
{
    match part.item() {
        Item::Atom(atom) => Err(wrong(Pass::Shape, atom.number())),
        Item::List(list) => read_placed(alloc, &Locals(body), list),
    }
}

/// Lists whose first items name columns, after those of earlier lists.
#[derive(Clone, Copy)]
pub(crate) struct ColumnNames<'a, 'b> {
    pub(crate) names: &'b NameTable<'a>,
    pub(crate) base: u32,
}

impl ReadsPlaced for ColumnNames<'_, '_> {
    ghost use Rattle.std.specs.Prelude.{ℕ, List};
    ghost use Rattle.lc_base.specs.Name.{bytes_of};
    ghost use Rattle.lc_reading.specs.TableView.{listed};
    ghost use Rattle.lc_object_text.specs.Declaring.{column_name_reading};

    type Value = Name;

    ghost Meaning = { List ℕ };

    ghost meaning = { bytes_of };

    ghost reading = { λ reader. column_name_reading (listed reader.names.now) reader.base };

    fn read(&self, _: Global, place: u32, part: Part<'_>) -> Result<Name, ReadFault> {
        let mut list = match part.item() {
            Item::Atom(atom) => return Err(wrong(Pass::Shape, atom.number())),
            Item::List(list) => list,
        };
        let name = next_part(&mut list)?;
        let before = u64::from(self.base) + u64::from(place);
        let name = read_kth_name(self.names, before, name);
        limited(COLUMN_LIMIT <= before, list.owner(), name)
    }
}

/// `(WORD (NAME ..) ..)`: the names of columns.
pub(crate) fn read_section(
    alloc: Global,
    reader: &ColumnNames<'_, '_>,
    word: &str,
    part: Part<'_>,
) -> Result<Vec<Name>, ReadFault>
    ensures { IsReading (λ names. names_of names.items) (section_reading word.now (listed reader.now.names.now) reader.now.base (place_of part.entry) (tree_of part.entry)) result }
{
    let parts = behind_word(part, word)?;
    read_placed(alloc, reader, parts)
}

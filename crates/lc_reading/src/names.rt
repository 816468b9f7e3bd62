//! How names are read: those that are declared, and those that declare.
ghost use Rattle.std.specs.Prelude.{◌≡◌, ◌++◌, IfOk};
ghost use Rattle.lc_sexp.specs.Shown.{rest_of, number_of, text_of, atom_number};
ghost use Rattle.lc_base.specs.Name.{bytes_of};
ghost use Rattle.lc_reading.specs.Listed.{names_among};
ghost use Rattle.lc_reading.specs.Naming.{within, known, is_full, use_reading, declaration_reading, name_reading, names_reading};
ghost use Rattle.lc_reading.specs.Parts.{tree_of, place_of};
ghost use Rattle.lc_reading.specs.Results.{IsReading, IsNameAt};
ghost use Rattle.lc_reading.specs.TableView.{listed};

use crate::flaw::{ReadFault, also, wrong};
use crate::lists::next_part;
use crate::part::Part;
use crate::pass::Pass;
use crate::reserved::is_reserved;
use crate::table::NameTable;
use lc_base::{NAME_LIMIT, Name, OutOfMemory, is_name};
use lc_sexp::{Atom, Cursor, Item};

/// The atom that an item is, which is to be a name.
pub fn name_at<'a>(part: Part<'a>) -> Result<Atom<'a>, ReadFault>
    ensures { IsNameAt (place_of part.entry) (tree_of part.entry) result }
{
    match part.item() {
        Item::Atom(atom) if is_name(atom.text().as_bytes()) => Ok(atom),
        _ => Err(wrong(Pass::Shape, part.number())),
    }
}

/// This value for a name, if it is not too long.
pub fn within<T: Drop>(name: Atom<'_>, value: T) -> Result<T, ReadFault>
    ensures { IsReading (λ x. x) (within (atom_number name.entry) (text_of name.entry) value) result }
{
    if name.text().len() > NAME_LIMIT {
        return Err(wrong(Pass::Bound, name.number()));
    }
    Ok(value)
}

/// What a name stands for, if it is known.
pub fn known_name<T: Drop>(name: Atom<'_>, found: Option<T>) -> Result<T, ReadFault>
    ensures { IsReading (λ x. x) (known (atom_number name.entry) (text_of name.entry) found) result }
{
    match found {
        Some(value) => within(name, value),
        None => Err(wrong(Pass::Unknown, name.number())),
    }
}

/// The place of the name that an item is, among these.
pub fn read_use(names: &NameTable<'_>, part: Part<'_>) -> Result<usize, ReadFault>
    ensures { IsReading (λ k. k) (use_reading (listed names.now) (place_of part.entry) (tree_of part.entry)) result }
{
    let name = name_at(part)?;
    known_name(name, names.place(name.text()))
}

/// Whether there are as many as there may be, if there is a limit.
pub fn is_full(limit: Option<u64>, count: usize) -> bool
    ensures { result ≡ is_full limit count }
{
    limit.is_some_and(|limit| limit <= count as u64)
}

/// What is wrong in an item where a name is declared after these, with a limit on all names together.
pub fn read_declaration(
    limit: Option<u64>,
    before: &NameTable<'_>,
    part: Part<'_>,
) -> Result<(), ReadFault>
    ensures { IsReading (λ u. u) (declaration_reading limit (listed before.now) (place_of part.entry) (tree_of part.entry)) result }
{
    let name = name_at(part)?;
    if is_reserved(name.text()) || before.contains(name.text()) {
        Err(wrong(Pass::Repeated, name.number()))
    } else if is_full(limit, before.len()) {
        Err(wrong(Pass::Bound, name.number()))
    } else {
        within(name, ())
    }
}

/// The name that an item declares after these, with a limit on all names together.
pub fn read_name(
    limit: Option<u64>,
    before: &NameTable<'_>,
    part: Part<'_>,
) -> Result<Name, ReadFault>
    ensures { IsReading bytes_of (name_reading limit (listed before.now) (place_of part.entry) (tree_of part.entry)) result }
{
    read_declaration(limit, before, part)?;
    let name = name_at(part)?;
    match Name::new(name.text()) {
        Some(name) => Ok(name),
        None => Err(wrong(Pass::Bound, name.number())),
    }
}

/// These names, followed by those that the items left in a list declare; and what is wrong in any of these items, where
/// all names together may be at most `limit`.
pub fn read_names<'a>(
    limit: Option<u64>,
    before: NameTable<'a>,
    list: Cursor<'a>,
) -> Result<(NameTable<'a>, Result<(), ReadFault>), OutOfMemory>
    ensures names { IfOk result (λ r. listed r.0 ≡ listed before.entry ++ names_among (rest_of list.entry)) }
    ensures wrong { IfOk result (λ r. IsReading (λ u. u) (names_reading limit (listed before.entry) (number_of list.entry) (rest_of list.entry)) r.1) }
{
    let mut names = before.with_room(list.len())?;
    let mut found = Ok(());
    let mut rest = list;
    'names: loop {
        let Ok(part) = next_part(&mut rest) else {
            return Ok((names, found));
        };
        found = also(found, read_declaration(limit, &names, part));
        names = names.enter_part(part)?;
    }
}

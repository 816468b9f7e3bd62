//! How the names of an operation's arguments are read, when each of them is in its table already.
ghost use Rattle.std.specs.Prelude.{◌≡◌, ◌+◌, ◌≤◌, ◌++◌, length, take, Some, IfOk};
ghost use Rattle.std.specs.List.{list_any};
ghost use Rattle.lc_base.specs.Limits.{argument_limit};
ghost use Rattle.lc_base.specs.Name.{bytes_of};
ghost use Rattle.lc_sexp.specs.Shown.{rest_of, number_of};
ghost use Rattle.lc_reading.specs.Listed.{declared_by};
ghost use Rattle.lc_reading.specs.Naming.{name_reading};
ghost use Rattle.lc_reading.specs.Parts.{tree_of, place_of};
ghost use Rattle.lc_reading.specs.Results.{IsReading};
ghost use Rattle.lc_reading.specs.Rows.{all_declared, declared_reading};
ghost use Rattle.lc_reading.specs.TableView.{listed};
ghost use Rattle.lc_reading.specs.Words.{is};
ghost use Rattle.lc_spec_text.specs.Seen.{names_of};

use lc_base::{ARGUMENT_LIMIT, Name, OutOfMemory};
use lc_reading::{
    NameTable, Part, Pass, ReadFault, is_full, is_reserved, name_at, next_part, pushed, wrong,
};
use lc_sexp::{Cursor, Item};
use std::alloc::Global;

/// The most arguments of an operation, with the client before them.
const VARIABLE_LIMIT: u64 = ARGUMENT_LIMIT as u64 + 1;

/// Whether a name is among the first `count` of these.
fn stands_before(names: &NameTable<'_>, count: usize, text: &str) -> bool
    ensures { result ≡ list_any (is text.now) (take count (listed names.now)) }
{
    match names.place_from(count, text) {
        None => false,
        Some(first) => first < count,
    }
}

/// The name that an item declares, which is one of these, after the first `before` of them.
fn read_argument(names: &NameTable<'_>, before: usize, part: Part<'_>) -> Result<Name, ReadFault>
    requires { before ≤ length (listed names.now) }
    ensures { IsReading bytes_of (name_reading (Some (1 + argument_limit)) (take before (listed names.now)) (place_of part.entry) (tree_of part.entry)) result }
{
    let name = name_at(part)?;
    if is_reserved(name.text()) || stands_before(names, before, name.text()) {
        return Err(wrong(Pass::Repeated, name.number()));
    }
    if is_full(Some(VARIABLE_LIMIT), before) {
        return Err(wrong(Pass::Bound, name.number()));
    }
    match Name::new(name.text()) {
        Some(name) => Ok(name),
        None => Err(wrong(Pass::Bound, name.number())),
    }
}

/// The place after the name that an item declares, among `count` names.
fn place_behind(place: usize, count: usize, part: Part<'_>) -> usize
    requires { place + length (declared_by (tree_of part)) ≤ count }
    ensures { result ≡ place + length (declared_by (tree_of part.entry)) }
{
    match part.item() {
        Item::Atom(_) => place + 1,
        Item::List(_) => place,
    }
}

/// These names, followed by those of the arguments that a list declares, and what its items read as. All names are entered
/// before the first is read, so that each is looked for at its own place.
pub(crate) fn read_listed_arguments<'a>(
    alloc: Global,
    before: NameTable<'a>,
    list: Cursor<'a>,
) -> Result<(NameTable<'a>, Result<Vec<Name>, ReadFault>), OutOfMemory>
    ensures variables { IfOk result (λ r. listed r.0 ≡ listed before.entry ++ all_declared declared_by (rest_of list.entry)) }
    ensures read { IfOk result (λ r. IsReading names_of (declared_reading (name_reading (Some (1 + argument_limit))) declared_by (listed before.entry) (number_of list.entry) (rest_of list.entry)) r.1) }
{
    let mut place = before.len();
    let names = before.enter_all(list)?;
    let count = names.len();
    let mut rest = list;
    let mut values = Ok(Vec::with_capacity(alloc, list.len())?);
    'items: loop {
        let Ok(part) = next_part(&mut rest) else {
            return Ok((names, values));
        };
        let value = read_argument(&names, place, part);
        values = pushed(values, value);
        place = place_behind(place, count, part);
    }
}

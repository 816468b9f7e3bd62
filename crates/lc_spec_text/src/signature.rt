//! How an operation's name, arguments and number of replies are read.
ghost use Rattle.std.specs.Prelude.{◌≡◌, ℕ, List, IfOk, Some, None, if◌then◌else◌};
ghost use Rattle.lc_sexp.specs.Shown.{text_of, atom_number};
ghost use Rattle.lc_sexp.specs.Trees.{atom as the_atom};
ghost use Rattle.lc_reading.specs.Parts.{tree_of, place_of};
ghost use Rattle.lc_reading.specs.Readings.{Reading, three};
ghost use Rattle.lc_reading.specs.Naming.{name_reading};
ghost use Rattle.lc_reading.specs.Results.{IsReading};
ghost use Rattle.lc_reading.specs.TableView.{listed};
ghost use Rattle.lc_reading.specs.Flaws.{at};
ghost use Rattle.lc_reading.specs.declared.flaw.ReadFault.TheVariants.{Flawed};
ghost use Rattle.lc_reading.specs.declared.pass.Pass.TheVariants.{Shape, Bound};
ghost use Rattle.lc_text.specs.Terms.{triple};
ghost use Rattle.lc_spec_text.specs.Operations.{natural, few, is_negative, count_reading, count_in, arguments_reading, variables_in};
ghost use Rattle.lc_spec_text.specs.Seen.{names_of, signature_of};

use crate::arguments::read_listed_arguments;
use lc_base::{Name, OutOfMemory, REPLY_LIMIT};
use lc_reading::{NameTable, Part, Pass, ReadFault, both, read_name, wrong};
use lc_sexp::{Atom, Item, Misfit};
use std::alloc::Global;

/// The client with the arguments that an item declares, and the names of these.
pub(crate) fn read_arguments<'a>(
    alloc: Global,
    part: Part<'a>,
) -> Result<(NameTable<'a>, Result<Vec<Name>, ReadFault>), OutOfMemory>
    ensures variables { IfOk result (λ r. listed r.0 ≡ variables_in (tree_of part.entry)) }
    ensures read { IfOk result (λ r. IsReading names_of (arguments_reading (place_of part.entry) (tree_of part.entry)) r.1) }
{
    let client = NameTable::new(alloc).enter("self")?;
    match part.item() {
        Item::Atom(atom) => Ok((client, Err(wrong(Pass::Shape, atom.number())))),
        Item::List(list) => read_listed_arguments(alloc, client, list),
    }
}

/// Whether a text begins with a minus.
fn is_negative(text: &str) -> bool
    ensures { result ≡ is_negative text.now }
{
    text.as_bytes().first() == Some(&b'-')
}

/// A count of replies, if it is allowed, else what is wrong with it at `item`.
fn few(number: i64, item: u64) -> Result<u32, ReadFault>
    ensures { IsReading (λ k. k) (few item (natural (Some number))) result }
{
    if number < 0 {
        Err(wrong(Pass::Shape, item))
    } else if number > i64::from(REPLY_LIMIT) {
        Err(wrong(Pass::Bound, item))
    } else {
        Ok(number as u32)
    }
}

/// What is wrong with a count of replies that is beyond 64 bits: below 0 it is none.
fn too_large(atom: &Atom<'_>) -> ReadFault
    ensures { result ≡ Flawed (at (if is_negative (text_of atom.now) then Shape else Bound) (atom_number atom.now)) }
{
    if is_negative(atom.text()) {
        wrong(Pass::Shape, atom.number())
    } else {
        wrong(Pass::Bound, atom.number())
    }
}

/// The count of replies.
fn read_few(atom: &Atom<'_>) -> Result<u32, ReadFault>
    ensures { IsReading (λ k. k) (count_reading (atom_number atom.now) (the_atom (text_of atom.now))) result }
{
    match atom.integer() {
        Ok(number) => few(number, atom.number()),
        Err(Misfit::Shape(_)) => Err(wrong(Pass::Shape, atom.number())),
        Err(Misfit::Bound(_)) => Err(too_large(atom)),
    }
}

fn read_count(part: Part<'_>) -> Result<u32, ReadFault>
    ensures { IsReading (λ k. k) (count_reading (place_of part.entry) (tree_of part.entry)) result }
{
    match part.item() {
        Item::Atom(atom) => read_few(&atom),
        Item::List(list) => Err(wrong(Pass::Shape, list.owner())),
    }
}

/// How many replies a branch has, if it is a count that lists can have.
pub(crate) fn count_in(part: Part<'_>) -> Option<u64>
    ensures { result ≡ count_in (tree_of part.entry) }
{
    match part.item() {
        Item::List(_) => None,
        Item::Atom(atom) => match atom.integer() {
            Ok(number) if number >= 0 => Some(number as u64),
            _ => None,
        },
    }
}

/// The name, after these operations, with these arguments, and the count of replies.
pub(crate) fn read_signature(
    before: &NameTable<'_>,
    name: Part<'_>,
    arguments: Result<Vec<Name>, ReadFault>,
    replies: Part<'_>,
) -> Result<((Name, Vec<Name>), u32), ReadFault>
    ensures { (r : Reading (List (List ℕ))) → IsReading names_of r arguments → IsReading signature_of (three triple (name_reading None (listed before.now) (place_of name.entry) (tree_of name.entry)) r (count_reading (place_of replies.entry) (tree_of replies.entry))) result }
{
    let name = read_name(None, before, name);
    both(both(name, arguments), read_count(replies))
}

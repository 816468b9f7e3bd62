//! How the operations of a specification are read, but for their branches.
ghost use Rattle.std.specs.Prelude.{◌≡◌, ℕ, List, map, slice_get};
ghost use Rattle.lc_base.specs.Name.{bytes_of};
ghost use Rattle.lc_sexp.specs.Shown.{rest_of, number_of, owner_of};
ghost use Rattle.lc_object.specs.View.{names_of};
ghost use Rattle.lc_reading.specs.TableView.{listed};
ghost use Rattle.lc_reading.specs.Parts.{tree_of, place_of};
ghost use Rattle.lc_reading.specs.Readings.{Reading, both};
ghost use Rattle.lc_reading.specs.Results.{IsReading};
ghost use Rattle.lc_object_text.specs.DeclaredView.{declared_view, calls_view};
ghost use Rattle.lc_object_text.specs.ObjectNames.{call_or};
ghost use Rattle.lc_object_text.specs.Objects.{has_minus, signature_of, replies_reading, call_reading, operation_name_reading, signature_parts, signatures_reading, abstracts_reading, specification_parts, specification_reading};
ghost use Rattle.lc_object_text.specs.Texts.{call_names_view, signature_view, specification_view};

use crate::declared::Declared;
use crate::declaring::{ColumnNames, Names, read_kth_name, read_names, read_section};
use crate::rows::{ReadsPlaced, read_placed};
use lc_base::{ARGUMENT_LIMIT, Name, OPERATION_LIMIT};
use lc_reading::{NameTable, Part, Pass, ReadFault, behind_word, both, limited, next_part, wrong};
use lc_sexp::{Cursor, Item};
use std::alloc::Global;

/// An operation without its branches and its body: its name, those of its arguments, and how many numbers it returns.
#[derive(Drop)]
pub struct Signature {
    pub name: Name,
    pub arguments: Vec<Name>,
    pub replies: u32,
}

/// A specification without its branches.
#[derive(Drop)]
pub struct SpecificationText {
    pub abstracts: Vec<Name>,
    pub signatures: Vec<Signature>,
}

fn has_minus(text: &str) -> bool
    ensures { result ≡ has_minus text.now }
{
    match text.as_bytes().split_first() {
        None => false,
        Some((first, _)) => *first == b'-',
    }
}

/// A number of replies.
fn read_replies(part: Part<'_>) -> Result<u32, ReadFault>
    ensures { IsReading (λ k. k) (replies_reading (place_of part.entry) (tree_of part.entry)) result }
{
    let atom = match part.item() {
        Item::Atom(atom) => atom,
        Item::List(list) => return Err(wrong(Pass::Shape, list.owner())),
    };
    if has_minus(atom.text()) {
        return Err(wrong(Pass::Shape, atom.number()));
    }
    match atom.integer()? {
        0 => Ok(0),
        1 => Ok(1),
        2 => Ok(2),
        3 => Ok(3),
        count if count < 0 => Err(wrong(Pass::Shape, atom.number())),
        _ => Err(wrong(Pass::Bound, atom.number())),
    }
}

/// `(ARG ..) REPLIES`
fn read_call(
    alloc: Global,
    arguments: &NameTable<'_>,
    first: Part<'_>,
    second: Part<'_>,
) -> Result<(Vec<Name>, u32), ReadFault>
    ensures { IsReading call_names_view (call_reading (listed arguments.now) (place_of first.entry) (tree_of first.entry) (place_of second.entry) (tree_of second.entry)) result }
{
    let names = Names {
        limit: ARGUMENT_LIMIT as u64,
        names: arguments,
        base: 0,
    };
    both(read_names(alloc, &names, first), read_replies(second))
}

/// `(ARG ..) REPLIES` of the operation at this place.
fn read_call_of(
    alloc: Global,
    declared: &Declared<'_>,
    place: u32,
    first: Part<'_>,
    second: Part<'_>,
) -> Result<(Vec<Name>, u32), ReadFault>
    ensures { IsReading call_names_view (call_reading (call_or (slice_get (calls_view declared.now.calls.items) place)).arguments (place_of first.entry) (tree_of first.entry)
        (place_of second.entry) (tree_of second.entry)) result }
{
    match declared.calls.get(place as usize) {
        Some(call) => read_call(alloc, &call.names, first, second),
        None => read_call(alloc, &NameTable::new(alloc), first, second),
    }
}

/// The name of an operation, with `place` operations before it.
fn read_operation_name(
    declared: &Declared<'_>,
    place: u32,
    number: u64,
    part: Part<'_>,
) -> Result<Name, ReadFault>
    ensures { IsReading bytes_of (operation_name_reading (declared_view declared.now) place number (place_of part.entry) (tree_of part.entry)) result }
{
    let name = read_kth_name(&declared.operations, u64::from(place), part);
    limited(OPERATION_LIMIT as u64 <= u64::from(place), number, name)
}

/// The operation of this name, arguments and replies.
fn made_signature(
    name: Result<Name, ReadFault>,
    call: Result<(Vec<Name>, u32), ReadFault>,
) -> Result<Signature, ReadFault>
    ensures { (n : Reading (List ℕ)) (c : Reading (List (List ℕ) × ℕ)) → IsReading bytes_of n name → IsReading call_names_view c call → IsReading signature_view (both signature_of n c) result }
{
    match both(name, call) {
        Ok((name, (arguments, replies))) => Ok(Signature {
            name,
            arguments,
            replies,
        }),
        Err(fault) => Err(fault),
    }
}

/// `NAME (ARG ..) REPLIES ..`
fn read_signature_parts(
    alloc: Global,
    declared: &Declared<'_>,
    place: u32,
    list: Cursor<'_>,
) -> Result<Signature, ReadFault>
    ensures { IsReading signature_view (signature_parts (declared_view declared.now) place (owner_of list.entry) (number_of list.entry) (rest_of list.entry)) result }
{
    let mut rest = list;
    let name = next_part(&mut rest)?;
    let arguments = next_part(&mut rest)?;
    let replies = next_part(&mut rest)?;
    let name = read_operation_name(declared, place, list.owner(), name);
    made_signature(
        name,
        read_call_of(alloc, declared, place, arguments, replies),
    )
}

/// Reads the operations of a specification.
#[derive(Clone, Copy)]
pub struct Signatures<'a, 'b>(pub &'b Declared<'a>);

impl ReadsPlaced for Signatures<'_, '_> {
    ghost use Rattle.lc_object_text.specs.DeclaredView.{declared_view};
    ghost use Rattle.lc_object_text.specs.Objects as O;
    ghost use Rattle.lc_object_text.specs.Objects.{signature_reading};
    ghost use Rattle.lc_object_text.specs.Texts.{signature_view};

    type Value = Signature;

    ghost Meaning = { O.Signature };

    ghost meaning = { signature_view };

    ghost reading = { λ reader. signature_reading (declared_view reader.0.now) };

    fn read(&self, alloc: Global, place: u32, part: Part<'_>) -> Result<Signature, ReadFault> {
        let parts = behind_word(part, "op")?;
        read_signature_parts(alloc, self.0, place, parts)
    }
}

/// `NAME (abstract (NAME ..) ..)`
fn read_abstracts(
    alloc: Global,
    declared: &Declared<'_>,
    first: Part<'_>,
    second: Part<'_>,
) -> Result<Vec<Name>, ReadFault>
    ensures { IsReading (λ names. names_of names.items) (abstracts_reading (declared_view declared.now) (place_of first.entry) (tree_of first.entry) (place_of second.entry) (tree_of second.entry)) result }
{
    let name = read_kth_name(&NameTable::new(alloc), 0, first);
    let columns = ColumnNames {
        names: &declared.columns,
        base: 0,
    };
    match both(name, read_section(alloc, &columns, "abstract", second)) {
        Ok((_, abstracts)) => Ok(abstracts),
        Err(fault) => Err(fault),
    }
}

/// The operations that are left in a specification, one at least.
fn read_signatures(
    alloc: Global,
    declared: &Declared<'_>,
    list: Cursor<'_>,
) -> Result<Vec<Signature>, ReadFault>
    ensures { IsReading (λ signatures. map signature_view signatures.items) (signatures_reading (declared_view declared.now) (owner_of list.entry) (number_of list.entry) (rest_of list.entry)) result }
{
    if list.is_empty() {
        return Err(wrong(Pass::Shape, list.owner()));
    }
    read_placed(alloc, &Signatures(declared), list)
}

/// `NAME (abstract (NAME ..) ..) (op ..) ..`
fn read_specification_parts(
    alloc: Global,
    declared: &Declared<'_>,
    list: Cursor<'_>,
) -> Result<SpecificationText, ReadFault>
    ensures { IsReading specification_view (specification_parts (declared_view declared.now) (owner_of list.entry) (number_of list.entry) (rest_of list.entry)) result }
{
    let mut rest = list;
    let name = next_part(&mut rest)?;
    let columns = next_part(&mut rest)?;
    let abstracts = read_abstracts(alloc, declared, name, columns);
    match both(abstracts, read_signatures(alloc, declared, rest)) {
        Ok((abstracts, signatures)) => Ok(SpecificationText {
            abstracts,
            signatures,
        }),
        Err(fault) => Err(fault),
    }
}

/// The specification that an item reads as, without its branches.
pub fn read_specification(
    alloc: Global,
    declared: &Declared<'_>,
    part: Part<'_>,
) -> Result<SpecificationText, ReadFault>
    ensures { IsReading specification_view (specification_reading (declared_view declared.now) (place_of part.entry) (tree_of part.entry)) result }
{
    let parts = behind_word(part, "spec")?;
    read_specification_parts(alloc, declared, parts)
}

//! How a certificate is read that is there as a whole.
ghost use Rattle.std.specs.Prelude.{◌≡◌, ◌⊎◌, Some, None, IfOk, map};
ghost use Rattle.lc_sexp.specs.Shown.{rest_of, number_of, owner_of};
ghost use Rattle.lc_kernel.specs.View.{proof_of};
ghost use Rattle.lc_reading.specs.Parts.{tree_of, place_of};
ghost use Rattle.lc_reading.specs.Results.{IsReading};
ghost use Rattle.lc_reading.specs.TableView.{listed};
ghost use Rattle.lc_outline.specs.DevelopmentView.{development_view};
ghost use Rattle.lc_proof_text.specs.Files.{only};
ghost use Rattle.lc_proof_text.specs.Proofs.{proof_reading};
ghost use Rattle.lc_cert.specs.Certificates.{is_above};
ghost use Rattle.lc_cert.specs.ColumnNames.{names_with};
ghost use Rattle.lc_cert.specs.EntryView.{entry_of, entries_of};
ghost use Rattle.lc_cert.specs.Answers.{last_told, text_told, trees_told};
ghost use Rattle.lc_cert.specs.Files.{IsAnswerTo};
ghost use Rattle.lc_cert.specs.Readings.{place_reading, parts_reading, entry_reading, entries_reading, name_due, named_reading, form_reading};

use crate::certificate::Certificate;
use crate::entry::Entry;
use crate::naming::table_of;
use crate::scope::InCertificate;
use lc_base::{Fault, Refusal};
use lc_kernel::Proof;
use lc_outline::{Development, column_names};
use lc_proof_text::read_proof;
use lc_reading::{
    NameTable, Part, Pass, ReadFault, behind_word, both, ended, next_part, one, pushed, two, wrong,
};
use lc_sexp::{Cursor, Forms, Item};
use lc_text::read_number;
use std::alloc::Global;

/// Whether this number is above the last one, if there is one.
fn is_above(last: Option<u64>, number: u64) -> bool
    ensures { result ≡ is_above last number }
{
    match last {
        Some(last) => last < number,
        None => true,
    }
}

/// A NUMBER from 0 on that is above the last one.
fn read_rising(last: Option<u64>, part: Part<'_>) -> Result<u64, ReadFault>
    ensures { IsReading (λ k. k) (place_reading last (place_of part.entry) (tree_of part.entry)) result }
{
    let number = read_number(part)?;
    match u64::try_from(number) {
        Ok(number) if is_above(last, number) => Ok(number),
        _ => Err(wrong(Pass::Shape, part.number())),
    }
}

/// The proof of an entry.
fn read_entry_proof(
    alloc: Global,
    columns: &NameTable<'_>,
    part: Part<'_>,
) -> Result<Proof, ReadFault>
    ensures { IsReading proof_of (proof_reading (names_with (listed columns.now)) (place_of part.entry) (tree_of part.entry)) result }
{
    let names = InCertificate::new(columns)?;
    read_proof(alloc, &names, part)
}

/// `K P`
fn read_parts(
    alloc: Global,
    columns: &NameTable<'_>,
    last: Option<u64>,
    list: Cursor<'_>,
) -> Result<Entry, ReadFault>
    ensures { IsReading entry_of (parts_reading (names_with (listed columns.now)) last (owner_of list.entry) (number_of list.entry) (rest_of list.entry)) result }
{
    let (first, second, rest) = two(list)?;
    let number = read_rising(last, first);
    let proof = read_entry_proof(alloc, columns, second);
    let (number, proof) = ended(both(number, proof), rest)?;
    Ok(Entry { number, proof })
}

/// `(proof K P)`
pub(crate) fn read_entry(
    alloc: Global,
    columns: &NameTable<'_>,
    last: Option<u64>,
    part: Part<'_>,
) -> Result<Entry, ReadFault>
    ensures { IsReading entry_of (entry_reading (names_with (listed columns.now)) last (place_of part.entry) (tree_of part.entry)) result }
{
    let list = behind_word(part, "proof")?;
    read_parts(alloc, columns, last, list)
}

/// The last number after what was read.
fn last_behind(last: Option<u64>, entry: &Result<Entry, ReadFault>) -> Option<u64>
    ensures { result ≡ last_told last entry.now }
{
    match entry {
        Ok(entry) => Some(entry.number),
        Err(_) => last,
    }
}

/// `(proof K P)*`
fn read_entries(
    alloc: Global,
    columns: &NameTable<'_>,
    list: Cursor<'_>,
) -> Result<Vec<Entry>, ReadFault>
    ensures { IsReading (λ es. entries_of es.items) (entries_reading (names_with (listed columns.now)) None (number_of list.entry) (rest_of list.entry)) result }
{
    let mut rest = list;
    let mut last = None;
    let mut entries = Ok(Vec::with_capacity(alloc, list.len())?);
    'entries: loop {
        let Ok(part) = next_part(&mut rest) else {
            return entries;
        };
        let entry = read_entry(alloc, columns, last, part);
        last = last_behind(last, &entry);
        entries = pushed(entries, entry);
    }
}

/// What is wrong in the item where this name is expected.
pub(crate) fn read_due(name: &str, part: Part<'_>) -> Result<(), ReadFault>
    ensures { IsReading (λ u. u) (name_due name.now (place_of part.entry) (tree_of part.entry)) result }
{
    match part.item() {
        Item::Atom(atom) if atom.text() == name => Ok(()),
        Item::Atom(atom) => Err(wrong(Pass::Shape, atom.number())),
        Item::List(list) => Err(wrong(Pass::Shape, list.owner())),
    }
}

/// `NAME (proof K P)*`
fn read_named(
    alloc: Global,
    columns: &NameTable<'_>,
    name: &str,
    list: Cursor<'_>,
) -> Result<Vec<Entry>, ReadFault>
    ensures { IsReading (λ es. entries_of es.items) (named_reading (listed columns.now) name.now (owner_of list.entry) (number_of list.entry) (rest_of list.entry)) result }
{
    let (first, rest) = one(list)?;
    let due = read_due(name, first);
    let entries = read_entries(alloc, columns, rest);
    let ((), entries) = both(due, entries)?;
    Ok(entries)
}

/// `(certificate NAME (proof K P)*)`
fn read_form(
    alloc: Global,
    columns: &NameTable<'_>,
    name: &str,
    part: Part<'_>,
) -> Result<Vec<Entry>, ReadFault>
    ensures { IsReading (λ es. entries_of es.items) (form_reading (listed columns.now) name.now (place_of part.entry) (tree_of part.entry)) result }
{
    let list = behind_word(part, "certificate")?;
    read_named(alloc, columns, name, list)
}

/// A certificate's form, which must be the whole rest of a list.
fn read_file(
    alloc: Global,
    columns: &NameTable<'_>,
    name: &str,
    forms: Cursor<'_>,
) -> Result<Vec<Entry>, ReadFault>
    ensures { IsReading (λ es. entries_of es.items) (only (form_reading (listed columns.now) name.now) (owner_of forms.entry) (number_of forms.entry) (rest_of forms.entry)) result }
{
    let (form, rest) = one(forms)?;
    ended(read_form(alloc, columns, name, form), rest)
}

/// What a fault of text is in a certificate.
pub(crate) fn text_told(fault: Fault) -> Fault
    ensures { result ≡ text_told fault }
{
    match fault {
        Fault::Refused(Refusal::Text(offset)) => Fault::Refused(Refusal::CertText(offset)),
        other => other,
    }
}

/// What a flaw is in a certificate: its least item, in whatever pass.
pub(crate) fn trees_told(fault: ReadFault) -> Fault
    ensures { result ≡ trees_told fault }
{
    match fault {
        ReadFault::Flawed(flaw) => Fault::Refused(Refusal::CertShape(flaw.least)),
        ReadFault::OutOfMemory => Fault::OutOfMemory,
    }
}

/// The certificate of a development that these bytes are: `(certificate NAME (proof K P)*)`, NAME the object's, each K a
/// NUMBER from 0 on and above the one before it.
///
/// If they are none, `Refused` has the first refusal: `CertText` with the offset of the first text fault; else
/// `CertShape` with the least item that is wrong, for whatever reason. `OutOfMemory` says nothing about the bytes.
pub fn certificate_of(
    alloc: Global,
    development: &Development,
    bytes: &[u8],
) -> Result<Certificate, Fault>
    ensures { IsAnswerTo (development_view development.now) bytes.now result }
{
    let forms = match Forms::read(alloc, bytes) {
        Ok(forms) => forms,
        Err(fault) => return Err(text_told(fault)),
    };
    let parts = development.parts();
    let names = column_names(alloc, parts)?;
    let columns = table_of(alloc, &names)?;
    let name = parts.object.parts().name;
    match read_file(alloc, &columns, name.as_str(), forms.cursor()) {
        Ok(entries) => Ok(Certificate::of_entries(entries)),
        Err(fault) => Err(trees_told(fault)),
    }
}

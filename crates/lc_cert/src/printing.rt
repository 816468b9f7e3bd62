//! How certificates are printed.
ghost use Rattle.std.specs.Prelude.{◌≡◌, ◌++◌, IfOk, OnOk, codes, string_bytes};
ghost use Rattle.lc_outline.specs.DevelopmentView.{development_view};
ghost use Rattle.lc_reading.specs.Words.{names_in};
ghost use Rattle.lc_sexp.specs.Printed.{printed_tree, printed_others};
ghost use Rattle.lc_cert.specs.CertificateView.{entries_in};
ghost use Rattle.lc_cert.specs.ColumnNames.{spelled_with};
ghost use Rattle.lc_cert.specs.EntryView.{entry_of, entries_of};
ghost use Rattle.lc_cert.specs.Printed.{entry_tree, entry_trees, certificate_line};

use crate::certificate::Certificate;
use crate::entry::Entry;
use lc_base::{ColId, OutOfMemory};
use lc_outline::{Development, column_names};
use lc_proof_text::write_proof;
use lc_text::Spelling;
use std::alloc::Global;

/// Variables are spelled `?k`, and columns by these names.
#[derive(Clone, Copy)]
struct Columns<'a, 'b>(&'b [&'a str]);

impl Spelling for Columns<'_, '_> {
    ghost use Rattle.lc_reading.specs.Words.{names_in};
    ghost use Rattle.lc_cert.specs.ColumnNames.{spelled_with};

    ghost spelled = { λ columns. spelled_with (names_in columns.0.now) };

    fn variable(&self, out: &mut String, number: u32) -> Result<(), OutOfMemory> {
        write!(out, "?{number}")?;
        Ok(())
    }

    fn column(&self, out: &mut String, column: ColId) -> Result<(), OutOfMemory> {
        if let Some(name) = self.0.get(column.0 as usize) {
            out.push_str(name)?;
        }
        Ok(())
    }
}

/// Writes `(proof K P)`.
fn write_entry(out: &mut String, columns: &[&str], entry: &Entry) -> Result<(), OutOfMemory>
    ensures { OnOk result (string_bytes out.new ≡ string_bytes out.old ++ printed_tree (entry_tree (spelled_with (names_in columns.now)) (entry_of entry.now))) }
{
    let number = entry.number;
    write!(out, "(proof {number} ")?;
    write_proof(out, &Columns(columns), &entry.proof)?;
    out.push_str(")")?;
    Ok(())
}

/// Writes `(proof K P)*`, each after a space.
fn write_entries(out: &mut String, columns: &[&str], entries: &[Entry]) -> Result<(), OutOfMemory>
    ensures { OnOk result (string_bytes out.new ≡ string_bytes out.old ++ printed_others (entry_trees (spelled_with (names_in columns.now)) (entries_of entries.now))) }
{
    for entry in entries {
        out.push_str(" ")?;
        write_entry(out, columns, entry)?;
    }
    Ok(())
}

/// The text of a development's certificate, which is one line.
pub fn certificate_text(
    alloc: Global,
    development: &Development,
    certificate: &Certificate,
) -> Result<Vec<u8>, OutOfMemory>
    ensures { IfOk result (λ text. text.items ≡ certificate_line (development_view development.now) (entries_in certificate.now)) }
{
    let parts = development.parts();
    let columns = column_names(alloc, parts)?;
    let name = parts.object.parts().name;
    let mut out = String::new(alloc);
    out.push_str("(certificate ")?;
    out.push_str(name.as_str())?;
    write_entries(&mut out, &columns, certificate.entries())?;
    out.push_str(")\n")?;
    Ok(out.into_bytes())
}

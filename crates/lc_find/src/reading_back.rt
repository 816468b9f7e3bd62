//! Certificates are given only if their text is accepted.
ghost use Rattle.std.specs.Prelude.{◌≡◌, ◌≤◌, true, length, [], IfOk};
ghost use Rattle.lc_base.specs.NameText.{is_name};
ghost use Rattle.lc_base.specs.Limits.{name_limit};
ghost use Rattle.lc_outline.specs.DevelopmentView.{development_view};
ghost use Rattle.lc_cert.specs.EntryView.{entries_of};
ghost use Rattle.lc_cert.specs.Files.{Certifies};
ghost use Rattle.lc_cert.specs.Printed.{certificate_line};
ghost use Rattle.lc_check.specs.Walking.{ProveInTurn};
ghost use Rattle.lc_cond.specs.Conditions.{conditions};
ghost use Rattle.lc_find.specs.Found.{IsReadBack, IsGivenBack};

use crate::fault::FindFault;
use crate::limits::number_beyond;
use lc_base::{Fault, OutOfMemory};
use lc_cert::laws::printed_certificates_read_back;
use lc_cert::{Certificate, Entry, certificate_text};
use lc_check::proven_count;
use lc_outline::Development;
use std::alloc::Global;

/// If a development has no conditions, the certificate without proofs is accepted.
fn an_empty_certificate_reads_back(development: &Development)
    ensures { let D = development_view development.now in Certifies D (certificate_line D []) [] }
{
    printed_certificates_read_back();
    let _name = object_name(development);
}

/// The name of the object.
fn object_name(development: &Development) -> &str
    ensures text { result.now ≡ (development_view development.now).object.name }
    ensures name { is_name result.now ≡ true }
    ensures limit { length result.now ≤ name_limit }
{
    development.parts().object.parts().name.as_str()
}

/// Whether a text is a certificate that is accepted.
fn is_accepted(alloc: Global, development: &Development, text: &[u8]) -> Result<bool, OutOfMemory>
    ensures { IfOk result (IsReadBack (development_view development.now) text.now) }
{
    match proven_count(alloc, development, text) {
        Ok(_) => Ok(true),
        Err(Fault::Refused(_)) => Ok(false),
        Err(Fault::OutOfMemory) => Err(OutOfMemory),
    }
}

/// The certificate of these proofs, which prove all conditions in turn, if its text is accepted. Of the text of found proofs
/// nothing is known before it is read: it may be too large or too deep.
pub(crate) fn read_back(
    alloc: Global,
    development: &Development,
    entries: Vec<Entry>,
) -> Result<Certificate, FindFault>
    requires { ProveInTurn 0 (entries_of entries.items) (conditions (development_view development.now)) }
    ensures { IsGivenBack (development_view development.now) (entries_of entries.items) result }
{
    let count = entries.len() as u64;
    let certificate = Certificate::of_entries(entries);
    if count == 0 {
        an_empty_certificate_reads_back(development);
        return Ok(certificate);
    }
    let text = certificate_text(alloc, development, &certificate)?;
    if is_accepted(alloc, development, &text)? {
        Ok(certificate)
    } else {
        Err(FindFault::Budget(number_beyond(&text, count)))
    }
}

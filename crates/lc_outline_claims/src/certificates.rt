//! Certificates and hints.
ghost use Rattle.std.specs.Prelude.{◌≡◌, ◌++◌, ◌∷◌, [], ℕ, List, IfOk, IfSome, option_map};
ghost use Rattle.lc_cert.specs.CertificateView.{entries_in};
ghost use Rattle.lc_cert.specs.Certificates.{Entry as Proved, proof_at};
ghost use Rattle.lc_cert.specs.EntryView.{entry_of};
ghost use Rattle.lc_cert.specs.Files.{IsAnswerTo};
ghost use Rattle.lc_cert.specs.OneByOne.{names_known, IsSingleRead};
ghost use Rattle.lc_cert.specs.Pieces.{IsAfterTaking, IsAnswerOf, waiting};
ghost use Rattle.lc_cert.specs.Printed.{certificate_line};
ghost use Rattle.lc_hints.specs.Files.{IsAnswerTo as IsHintAnswerTo};
ghost use Rattle.lc_kernel.specs.View.{proof_of};
ghost use Rattle.lc_outline.specs.Development.{Development as Shown};
ghost use Rattle.lc_outline.specs.DevelopmentView.{development_view};

use lc_base::{Fault, OutOfMemory};
use lc_cert::{
    CertReader, Certificate, Entry, EntryReader, Single, certificate_of, certificate_text,
};
use lc_hints::{Hints, hints_of};
use lc_kernel::Proof;
use lc_outline::Development;
use std::alloc::Global;

/// For a file, its certificate is returned, or its first refusal.
pub fn reading_a_certificate(
    alloc: Global,
    development: &Development,
    bytes: &[u8],
) -> Result<Certificate, Fault>
    ensures { IsAnswerTo (development_view development.now) bytes.now result }
{
    certificate_of(alloc, development, bytes)
}

/// The proof of a number is returned if there is one.
pub fn finding_a_proof<'a>(certificate: &'a Certificate, number: u64) -> Option<&'a Proof>
    ensures { option_map (λ p. proof_of p.now) result ≡ proof_at (entries_in certificate.now) number }
{
    certificate.proof(number)
}

/// A certificate is printed as is defined.
pub fn printing_a_certificate(
    alloc: Global,
    development: &Development,
    certificate: &Certificate,
) -> Result<Vec<u8>, OutOfMemory>
    ensures { IfOk result (λ text. text.items ≡ certificate_line (development_view development.now) (entries_in certificate.now)) }
{
    certificate_text(alloc, development, certificate)
}

/// Proofs are handed out in their order, each once.
pub fn taking_a_proof(reader: &mut CertReader) -> Option<Entry>
    ensures { IfSome result (λ entry. (D : Shown) → (fed : List ℕ) → (taken : List Proved) →
        IsAfterTaking D fed taken reader.old → IsAfterTaking D fed (taken ++ (entry_of entry ∷ [])) reader.new) }
{
    reader.take()
}

/// At the end it is reported whether everything is a certificate with just these proofs.
pub fn finishing_a_certificate(reader: CertReader, development: &Development) -> Result<(), Fault>
    ensures { (fed : List ℕ) → (taken : List Proved) → IsAfterTaking (development_view development.now) fed taken reader →
        IsAnswerOf (development_view development.now) fed (taken ++ waiting reader) result }
{
    reader.finish(development)
}

/// An entry by itself is returned if it is one of this number.
pub fn reading_an_entry(
    reader: &EntryReader<'_>,
    alloc: Global,
    text: &[u8],
    number: u64,
    item: u64,
) -> Result<Option<Single>, OutOfMemory>
    ensures { IfOk result (IsSingleRead (names_known reader.now) text.now number item) }
{
    reader.read(alloc, text, number, item)
}

/// For a file, its hints are returned, or its first refusal.
pub fn reading_hints(alloc: Global, development: &Development, bytes: &[u8]) -> Result<Hints, Fault>
    ensures { IsHintAnswerTo (development_view development.now) bytes.now result }
{
    hints_of(alloc, development, bytes)
}

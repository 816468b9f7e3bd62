//! What holds of the texts of certificates. Each function is a law: it does nothing, and its contract is the law.
ghost use Rattle.std.specs.Prelude.{◌≡◌, ◌⊎◌, ◌++◌, ℕ, true, None, List, Result};
ghost use Rattle.lc_base.specs.declared.refusal.Fault.{Fault};
ghost use Rattle.lc_base.specs.declared.refusal.Refusal.{Refusal};
ghost use Rattle.lc_outline.specs.Development.{Development};
ghost use Rattle.lc_term.specs.Lists.{Every};
ghost use Rattle.lc_cert.specs.Certificates.{Entry, is_rising, HaveFewSteps};
ghost use Rattle.lc_cert.specs.Files.{Certifies, IsFirstRefusal, IsAnswerTo};
ghost use Rattle.lc_cert.specs.OneByOne.{ReadAloneIsReadWhole};
ghost use Rattle.lc_cert.specs.Pieces.{IsAfterTaking, IsAnswerOf, AreSame};
ghost use Rattle.lc_cert.specs.Printed.{certificate_line, EntryReadsBack, IsPrintable};
ghost use Rattle.lc_cert.specs.declared.cert_reader.CertReader.{CertReader};
ghost use Rattle.lc_cert.specs.declared.certificate.Certificate.{Certificate};

/// All bytes are a certificate of a development, with one list of entries, or they have one first refusal; and never both.
/// The numbers of its entries rise, and no proof has more steps than a file has bytes.
pub fn a_certificate_is_read_or_refused()
    ensures one { (D : Development) (bytes : List ℕ) → ((es : List Entry) × Certifies D bytes es) ⊎ ((refusal : Refusal) × IsFirstRefusal D bytes refusal) }
    ensures not_both { (D : Development) (bytes : List ℕ) (es : List Entry) (refusal : Refusal) → Certifies D bytes es → IsFirstRefusal D bytes refusal → ⊥ }
    ensures one_certificate { (D : Development) (bytes : List ℕ) (es fs : List Entry) → Certifies D bytes es → Certifies D bytes fs → es ≡ fs }
    ensures one_refusal { (D : Development) (bytes : List ℕ) (r s : Refusal) → IsFirstRefusal D bytes r → IsFirstRefusal D bytes s → r ≡ s }
    ensures rising { (D : Development) (bytes : List ℕ) (es : List Entry) → Certifies D bytes es → is_rising None es ≡ true }
    ensures few_steps { (D : Development) (bytes : List ℕ) (es : List Entry) → Certifies D bytes es → HaveFewSteps es }
{}

/// What is printed of a certificate is, within the limits of nesting and size, a certificate of the same development with the
/// same entries: of each that is read from bytes, and of each whose numbers rise and whose proofs read back.
pub fn printed_certificates_read_back()
    ensures read { (D : Development) (bytes : List ℕ) (es : List Entry) → Certifies D bytes es → IsPrintable D es → Certifies D (certificate_line D es) es }
    ensures made { (D : Development) (es : List Entry) → is_rising None es ≡ true → Every (EntryReadsBack D) es → IsPrintable D es → Certifies D (certificate_line D es) es }
{}

/// A certificate that is read in pieces, however it was cut, is what it is whole: the same proofs, or the same refusal.
/// The proofs that were taken are the first of the whole, whatever comes after what was fed; and none has more steps
/// than a file has bytes.
pub fn a_certificate_in_pieces_is_the_whole()
    ensures same { (D : Development) (bytes : List ℕ) (es : List Entry) (whole : Result Certificate Fault) (told : Result (Unit {0}) Fault) → IsAnswerTo D bytes whole → IsAnswerOf D bytes es told → AreSame es whole told }
    ensures first { (D : Development) (fed more : List ℕ) (taken es : List Entry) (r : CertReader) → IsAfterTaking D fed taken r → Certifies D (fed ++ more) es → (others : List Entry) × (es ≡ taken ++ others) }
    ensures few_steps { (D : Development) (fed : List ℕ) (taken : List Entry) (r : CertReader) → IsAfterTaking D fed taken r → HaveFewSteps taken }
{}

/// A file that is cut into pieces, each of which reads as an entry by itself, with the number of its own item and after
/// the entry before it, is a certificate of these entries, if what comes before and after them is that of one.
pub fn entries_read_alone_are_read_whole()
    ensures { ReadAloneIsReadWhole }
{}

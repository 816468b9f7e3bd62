//! A reader of certificates that come in pieces.
use crate::entry::Entry;
use crate::form_reader::FormReader;
use crate::naming::table_of;
use crate::reading::{text_told, trees_told};
use lc_base::{Fault, OutOfMemory};
use lc_outline::{Development, column_names};
use lc_reading::NameTable;
use lc_sexp::{Part, Reader};
use std::alloc::Global;

/// Reads a certificate that comes in pieces, and hands out its proofs meanwhile. What is wrong is reported at the end, as
/// `certificate_of` reports it for the whole; once out of memory it returns `OutOfMemory` from then on.
///
/// Each call is given the same development. Only what was not taken is kept in memory.
#[derive(Drop)]
pub struct CertReader {
    alloc: Global,
    reader: Reader,
    form: FormReader,
    out_of_memory: bool,
}

impl CertReader {
    ghost use Rattle.std.specs.Prelude.{◌≡◌, ℕ, List, [], ◌∷◌, ◌++◌, false, true, Err, None, OnOk, IfOk, IfSome, IfNone, is_err};
    ghost use Rattle.lc_base.specs.declared.refusal.Fault.TheVariants.{OutOfMemory as NoMemory};
    ghost use Rattle.lc_sexp.specs.Reading.{IsAfterTaking as IsReaderAfter, is_spent as is_reader_spent};
    ghost use Rattle.lc_sexp.specs.declared.part.Part.{Part as FilePart};
    ghost use Rattle.lc_reading.specs.TableView.{listed};
    ghost use Rattle.lc_outline.specs.Development.{Development as Shown};
    ghost use Rattle.lc_outline.specs.DevelopmentView.{development_view};
    ghost use Rattle.lc_cert.specs.Certificates.{Entry as Proved};
    ghost use Rattle.lc_cert.specs.EntryView.{entry_of};
    ghost use Rattle.lc_outline.specs.ColumnNames.{column_names};
    ghost use Rattle.lc_cert.specs.Pieces.{IsForm, IsUnderWay, IsAfterTaking, IsAnswerOf, waiting, is_spent};

    /// A reader of a certificate of this development, which has been fed nothing.
    pub fn new(alloc: Global, development: &Development) -> Result<CertReader, OutOfMemory>
        ensures start { IfOk result (λ reader. IsAfterTaking (development_view development.now) [] [] reader) }
        ensures none { IfOk result (λ reader. waiting reader ≡ []) }
        ensures memory { IfOk result (λ reader. is_spent reader ≡ false) }
    {
        Ok(CertReader {
            alloc,
            reader: Reader::new(alloc),
            form: FormReader::new(alloc),
            out_of_memory: false,
        })
    }

    /// Reads a part of the file. Only those of the first form are looked at.
    fn read_part(
        &mut self,
        columns: &NameTable<'_>,
        name: &str,
        part: &Part,
    ) -> Result<(), OutOfMemory>
        ensures form { OnOk result ((parts : List FilePart) → (taken : List Proved) → IsForm (listed columns.now) name.now parts taken self.old.form →
            IsForm (listed columns.now) name.now (parts ++ (part.now ∷ [])) taken self.new.form) }
        ensures reader { self.new.reader ≡ self.old.reader }
    {
        if part.form != 0 {
            return Ok(());
        }
        self.form.read_item(self.alloc, columns, name, &part.sexp)
    }

    /// Reads all parts that have ended.
    fn read_parts(&mut self, columns: &NameTable<'_>, name: &str) -> Result<(), OutOfMemory>
        ensures { OnOk result (is_reader_spent self.old.reader ≡ false → (fed : List ℕ) → (parts : List FilePart) → (taken : List Proved) →
            IsForm (listed columns.now) name.now parts taken self.old.form → IsReaderAfter fed parts self.old.reader →
            IsUnderWay (listed columns.now) name.now fed taken self.new) }
    {
        'parts: loop {
            let Some(part) = self.reader.take() else {
                return Ok(());
            };
            self.read_part(columns, name, &part)?;
        }
    }

    /// Reads the parts that have ended. The names of columns are listed only if there is one.
    fn read_ready(&mut self, development: &Development) -> Result<(), OutOfMemory>
        ensures { OnOk result (is_reader_spent self.old.reader ≡ false → (fed : List ℕ) → (parts : List FilePart) → (taken : List Proved) →
            IsForm (column_names (development_view development.now)) (development_view development.now).object.name parts taken self.old.form →
            IsReaderAfter fed parts self.old.reader →
            IsAfterTaking (development_view development.now) fed taken self.new) }
    {
        let Some(first) = self.reader.take() else {
            return Ok(());
        };
        let parts = development.parts();
        let names = column_names(self.alloc, parts)?;
        let columns = table_of(self.alloc, &names)?;
        let object = parts.object.parts().name;
        let name = object.as_str();
        self.read_part(&columns, name, &first)?;
        self.read_parts(&columns, name)
    }

    /// Takes bytes that come after what was fed.
    fn feed_all(&mut self, development: &Development, piece: &[u8]) -> Result<(), OutOfMemory>
        ensures { OnOk result ((fed : List ℕ) → (taken : List Proved) → IsAfterTaking (development_view development.now) fed taken self.old →
            IsAfterTaking (development_view development.now) (fed ++ piece.now) taken self.new) }
    {
        self.reader.feed(piece)?;
        self.read_ready(development)
    }

    /// Takes the next piece of the certificate, which may be empty.
    pub fn feed(&mut self, development: &Development, piece: &[u8]) -> Result<(), OutOfMemory>
        ensures fed { OnOk result ((fed : List ℕ) → (taken : List Proved) → IsAfterTaking (development_view development.now) fed taken self.old →
            IsAfterTaking (development_view development.now) (fed ++ piece.now) taken self.new) }
        ensures spent { is_spent self.new ≡ is_err result }
        ensures never_again { is_spent self.old ≡ true → is_err result ≡ true }
    {
        if self.out_of_memory {
            return Err(OutOfMemory);
        }
        let fed = self.feed_all(development, piece);
        self.out_of_memory = fed.is_err();
        fed
    }

    /// The next proof that has ended before anything that is wrong, and was not taken. `None` if there is none, and once
    /// out of memory.
    pub fn take(&mut self) -> Option<Entry>
        ensures entry { IfSome result (λ entry. (D : Shown) → (fed : List ℕ) → (taken : List Proved) →
            IsAfterTaking D fed taken self.old → IsAfterTaking D fed (taken ++ (entry_of entry ∷ [])) self.new) }
        ensures none { IfNone result ((D : Shown) → (fed : List ℕ) → (taken : List Proved) →
            IsAfterTaking D fed taken self.old → IsAfterTaking D fed taken self.new) }
        ensures front { IfSome result (λ entry. waiting self.old ≡ entry_of entry ∷ waiting self.new) }
        ensures all { IfNone result (is_spent self.old ≡ false → waiting self.new ≡ []) }
        ensures spent { is_spent self.new ≡ is_spent self.old }
        ensures never_again { is_spent self.old ≡ true → result ≡ None }
    {
        if self.out_of_memory {
            return None;
        }
        self.form.take()
    }

    /// Whether the file, which ends here, is a certificate; else its first refusal. Proofs that were not taken are dropped.
    pub fn finish(self, development: &Development) -> Result<(), Fault>
        ensures answer { (fed : List ℕ) → (taken : List Proved) → IsAfterTaking (development_view development.now) fed taken self →
            IsAnswerOf (development_view development.now) fed (taken ++ waiting self) result }
        ensures never_again { is_spent self ≡ true → result ≡ Err NoMemory }
    {
        if self.out_of_memory {
            return Err(Fault::OutOfMemory);
        }
        let forms = match self.reader.finish() {
            Ok(forms) => forms,
            Err(fault) => return Err(text_told(fault)),
        };
        match self.form.finish(forms.cursor()) {
            Ok(()) => Ok(()),
            Err(fault) => Err(trees_told(fault)),
        }
    }
}

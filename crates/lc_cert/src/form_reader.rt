//! How the form of a certificate is read item by item.
ghost use Rattle.std.specs.Prelude.{◌≡◌};
ghost use Rattle.lc_base.specs.Limits.{file_limit};
ghost use Rattle.lc_sexp.specs.Shown.{rest_of};
ghost use Rattle.lc_reading.specs.Parts.{tree_of};
ghost use Rattle.lc_reading.specs.Results.{ended_result};
ghost use Rattle.lc_cert.specs.Pieces.{is_word};

use crate::entry::Entry;
use crate::reading::{read_due, read_entry};
use lc_base::{FILE_LIMIT, OutOfMemory};
use lc_reading::{
    Flaw, NameTable, Part, Pass, ReadFault, also, misshapen_too, next_part, one, wrong,
};
use lc_sexp::{Cursor, Item, Sexp};
use std::alloc::Global;
use std::collections::VecDeque;

/// What is expected next in the form of a certificate.
#[derive(Clone, Copy)]
pub(crate) enum Due {
    /// The word that it begins with.
    Word,
    /// The name of the object.
    Name,
    /// Proofs, whose numbers are above this one, if there is one.
    Proofs(Option<u64>),
    /// Nothing that is looked at, as it begins with another word.
    Nothing,
}

/// The form of a certificate, as far as its items were read.
#[derive(Drop)]
pub(crate) struct FormReader {
    due: Due,
    /// The number of the next item.
    number: u64,
    /// What is wrong in the items that were read.
    flaw: Option<Flaw>,
    /// The entries that were read while nothing was wrong, and not taken.
    ready: VecDeque<Entry>,
}

/// Whether an item is this word.
fn is_word(part: Part<'_>, word: &str) -> bool
    ensures { result ≡ is_word word.now (tree_of part.entry) }
{
    match part.item() {
        Item::Atom(atom) => atom.text() == word,
        Item::List(_) => false,
    }
}

/// What is wrong in a form, and that another form comes after it, at this item.
fn ended_at(form: Result<(), ReadFault>, number: u64, others: Cursor<'_>) -> Result<(), ReadFault>
    ensures { result ≡ ended_result number (rest_of others.entry) form }
{
    if others.is_empty() {
        return form;
    }
    misshapen_too(form, number)
}

impl FormReader {
    ghost use Rattle.std.specs.Prelude.{◌≡◌, ◌≤◌, ◌+◌, ◌++◌, ◌∷◌, [], ℕ, List, OnOk, IfOk, IfSome, IfNone};
    ghost use Rattle.lc_sexp.specs.Trees.{Trees, none, ◌▸◌, item_count, item_count_of_all};
    ghost use Rattle.lc_sexp.specs.Shown.{rest_of, owner_of};
    ghost use Rattle.lc_sexp.specs.Takes.{parts_of, without};
    ghost use Rattle.lc_sexp.specs.declared.part.Part.{Part as FilePart};
    ghost use Rattle.lc_reading.specs.Parts.{tree_of, place_of};
    ghost use Rattle.lc_reading.specs.Results.{IsReading};
    ghost use Rattle.lc_reading.specs.TableView.{listed};
    ghost use Rattle.lc_cert.specs.Certificates.{Entry as Proved, HaveFewSteps};
    ghost use Rattle.lc_cert.specs.EntryView.{entry_of};
    ghost use Rattle.lc_cert.specs.Readings.{file_reading};
    ghost use Rattle.lc_cert.specs.Pieces.{kept, form_due, form_from, waiting_in, IsNoted, IsForm, IsTold};
    ghost use Rattle.lc_cert.specs.declared.form_reader.Due.TheVariants.{Word, Name, Proofs};

    /// A form with nothing read yet.
    pub(crate) fn new(alloc: Global) -> FormReader
        ensures form { (columns : List (List ℕ)) → (name : List ℕ) → IsForm columns name [] [] result }
        ensures waiting { waiting_in result ≡ [] }
    {
        FormReader {
            due: Due::Word,
            number: 1,
            flaw: None,
            ready: VecDeque::new(alloc),
        }
    }

    /// Notes what is wrong.
    fn note(&mut self, fault: ReadFault) -> Result<(), OutOfMemory>
        ensures { OnOk result (IsNoted self.old fault self.new) }
    {
        let ReadFault::Flawed(flaw) = fault else {
            return Err(OutOfMemory);
        };
        self.flaw = match self.flaw {
            None => Some(flaw),
            Some(first) => Some(first.and(flaw)),
        };
        Ok(())
    }

    /// Keeps an entry, unless something is wrong.
    fn keep(&mut self, entry: Entry) -> Result<(), OutOfMemory>
        ensures entries { OnOk result (waiting_in self.new ≡ kept self.old.flaw (waiting_in self.old) (entry_of entry)) }
        ensures others { self.new ≡ record self.old { ready = self.new.ready } }
    {
        if self.flaw.is_none() {
            self.ready.push_back(entry)?;
        }
        Ok(())
    }

    /// Reads the word that the form begins with.
    fn read_word(&mut self, part: Part<'_>) -> Result<(), OutOfMemory>
        ensures reads { OnOk result ((columns : List (List ℕ)) → (name : List ℕ) → (taken : List Proved) → (ts : Trees) →
            form_from columns name taken self.new (place_of part.entry + item_count (tree_of part.entry)) ts
            ≡ form_due columns name taken self.old Word (place_of part.entry) (tree_of part.entry ▸ ts)) }
        ensures entries { OnOk result (waiting_in self.new ≡ waiting_in self.old) }
        ensures number { OnOk result (self.new.number ≡ self.old.number) }
    {
        if is_word(part, "certificate") {
            self.due = Due::Name;
            return Ok(());
        }
        self.due = Due::Nothing;
        self.note(wrong(Pass::Shape, 0))
    }

    /// Reads the name of the object.
    fn read_name(&mut self, name: &str, part: Part<'_>) -> Result<(), OutOfMemory>
        ensures reads { OnOk result ((columns : List (List ℕ)) → (taken : List Proved) → (ts : Trees) →
            form_from columns name.now taken self.new (place_of part.entry + item_count (tree_of part.entry)) ts
            ≡ form_due columns name.now taken self.old Name (place_of part.entry) (tree_of part.entry ▸ ts)) }
        ensures entries { OnOk result (waiting_in self.new ≡ waiting_in self.old) }
        ensures number { OnOk result (self.new.number ≡ self.old.number) }
    {
        self.due = Due::Proofs(None);
        match read_due(name, part) {
            Ok(()) => Ok(()),
            Err(fault) => self.note(fault),
        }
    }

    /// Reads a proof, whose number is to be above the last one.
    fn read_proof(
        &mut self,
        alloc: Global,
        columns: &NameTable<'_>,
        last: Option<u64>,
        part: Part<'_>,
    ) -> Result<(), OutOfMemory>
        ensures reads { OnOk result ((name : List ℕ) → (taken : List Proved) → (ts : Trees) →
            self.old.due ≡ Proofs last →
            form_from (listed columns.now) name taken self.new (place_of part.entry + item_count (tree_of part.entry)) ts
            ≡ form_due (listed columns.now) name taken self.old (Proofs last) (place_of part.entry) (tree_of part.entry ▸ ts)) }
        ensures few { OnOk result (item_count (tree_of part.entry) ≤ file_limit → HaveFewSteps (waiting_in self.old) → HaveFewSteps (waiting_in self.new)) }
        ensures number { OnOk result (self.new.number ≡ self.old.number) }
    {
        match read_entry(alloc, columns, last, part) {
            Ok(entry) => {
                self.due = Due::Proofs(Some(entry.number));
                self.keep(entry)
            }
            Err(fault) => self.note(fault),
        }
    }

    /// Reads the next item.
    fn read_part(
        &mut self,
        alloc: Global,
        columns: &NameTable<'_>,
        name: &str,
        part: Part<'_>,
    ) -> Result<(), OutOfMemory>
        ensures reads { OnOk result ((taken : List Proved) → (ts : Trees) →
            form_from (listed columns.now) name.now taken self.new (place_of part.entry + item_count (tree_of part.entry)) ts
            ≡ form_from (listed columns.now) name.now taken self.old (place_of part.entry) (tree_of part.entry ▸ ts)) }
        ensures few { OnOk result (item_count (tree_of part.entry) ≤ file_limit → HaveFewSteps (waiting_in self.old) → HaveFewSteps (waiting_in self.new)) }
        ensures number { OnOk result (self.new.number ≡ self.old.number) }
    {
        match self.due {
            Due::Word => self.read_word(part),
            Due::Name => self.read_name(name, part),
            Due::Proofs(last) => self.read_proof(alloc, columns, last, part),
            Due::Nothing => Ok(()),
        }
    }

    /// Reads the next item of the form. `OutOfMemory` is returned also for one with more items than a file has bytes.
    pub(crate) fn read_item(
        &mut self,
        alloc: Global,
        columns: &NameTable<'_>,
        name: &str,
        item: &Sexp,
    ) -> Result<(), OutOfMemory>
        ensures form { OnOk result ((parts : List FilePart) → (part : FilePart) → (taken : List Proved) → part.form ≡ 0 → part.sexp ≡ item.now →
            IsForm (listed columns.now) name.now parts taken self.old → IsForm (listed columns.now) name.now (parts ++ (part ∷ [])) taken self.new) }
    {
        if item.item_count() as u64 > FILE_LIMIT {
            return Err(OutOfMemory);
        }
        let mut rest = item.cursor_from(self.number)?;
        let Ok(part) = next_part(&mut rest) else {
            unreachable!()
        };
        self.read_part(alloc, columns, name, part)?;
        self.number = rest.number();
        Ok(())
    }

    /// The next entry that was read while nothing was wrong, and not taken.
    pub(crate) fn take(&mut self) -> Option<Entry>
        ensures entry { IfSome result (λ entry. (columns : List (List ℕ)) → (name : List ℕ) → (parts : List FilePart) → (taken : List Proved) →
            IsForm columns name parts taken self.old → IsForm columns name parts (taken ++ (entry_of entry ∷ [])) self.new) }
        ensures none { IfNone result ((columns : List (List ℕ)) → (name : List ℕ) → (parts : List FilePart) → (taken : List Proved) →
            IsForm columns name parts taken self.old → IsForm columns name parts taken self.new) }
        ensures front { IfSome result (λ entry. waiting_in self.old ≡ entry_of entry ∷ waiting_in self.new) }
        ensures all { IfNone result (waiting_in self.new ≡ []) }
    {
        self.ready.pop_front()
    }

    /// What is wrong in the form, which ends here.
    fn end(&self) -> Result<(), ReadFault>
        ensures { (columns : List (List ℕ)) → (name : List ℕ) → (taken : List Proved) → (m : ℕ) →
            IsReading (λ _. taken ++ waiting_in self.now) (form_from columns name taken self.now m none) result }
    {
        let found = match self.flaw {
            Some(flaw) => Err(ReadFault::Flawed(flaw)),
            None => Ok(()),
        };
        let missing = match self.due {
            Due::Word | Due::Name => Err(wrong(Pass::Shape, 0)),
            Due::Proofs(_) | Due::Nothing => Ok(()),
        };
        also(found, missing)
    }

    /// What is wrong in the first form of the file, which ends here.
    fn end_of(&self, form: Part<'_>) -> Result<(), ReadFault>
        ensures { (columns : List (List ℕ)) → (name : List ℕ) → (taken : List Proved) →
            IsTold (form_from columns name taken self.now self.now.number none) (taken ++ waiting_in self.now) (tree_of form.entry) result }
    {
        match form.item() {
            Item::Atom(_) => Err(wrong(Pass::Shape, 0)),
            Item::List(_) => self.end(),
        }
    }

    /// What is wrong in the file, whose forms are these without their items.
    pub(crate) fn finish(&self, forms: Cursor<'_>) -> Result<(), ReadFault>
        ensures { (columns : List (List ℕ)) → (name : List ℕ) → (taken : List Proved) → (ts : Trees) → (n : ℕ) →
            IsForm columns name (parts_of ts) taken self.now → rest_of forms.entry ≡ without n ts → owner_of forms.entry ≡ item_count_of_all (rest_of forms.entry) →
            IsReading (λ _. taken ++ waiting_in self.now) (file_reading columns name ts) result }
    {
        let (first, others) = one(forms)?;
        ended_at(self.end_of(first), self.number, others)
    }
}

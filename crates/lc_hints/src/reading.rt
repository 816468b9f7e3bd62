//! How hints are read.
ghost use Rattle.std.specs.Prelude.{◌≡◌, ℕ, List, IfOk, [], map};
ghost use Rattle.lc_sexp.specs.Reads.{ReadsAs};
ghost use Rattle.lc_sexp.specs.Shown.{rest_of, number_of, owner_of};
ghost use Rattle.lc_cert.specs.ColumnNames.{names_with};
ghost use Rattle.lc_cert.specs.Printed.{EntryReadsBack};
ghost use Rattle.lc_outline.specs.DevelopmentView.{development_view};
ghost use Rattle.lc_proof_text.specs.Files.{only};
ghost use Rattle.lc_reading.specs.Parts.{tree_of, place_of};
ghost use Rattle.lc_reading.specs.Results.{IsReading};
ghost use Rattle.lc_reading.specs.TableView.{listed};
ghost use Rattle.lc_term.specs.Lists.{Every};
ghost use Rattle.lc_term.specs.View.{term_of};
ghost use Rattle.lc_hints.specs.Files.{IsAnswerTo};
ghost use Rattle.lc_hints.specs.HintView.{proofs_in};
ghost use Rattle.lc_hints.specs.Readings.{head_of, terms_due, use_reading, cut_parts_reading, cut_reading, by_parts_reading, by_reading, hint_with, hint_reading, form_reading};
ghost use Rattle.lc_hints.specs.View.{cut_parts, by_parts, hint_of};

use crate::given::gathered;
use crate::hint::{Advice, Hint};
use crate::hints::Hints;
use lc_base::Fault;
use lc_cert::{InCertificate, table_of};
use lc_kernel::Proof;
use lc_outline::{Development, column_names};
use lc_proof_text::read_proof;
use lc_reading::{
    NameTable, Part, Pass, ReadFault, Reads, behind_word, both, ended, headed, next_part, one,
    read_each, two, wrong,
};
use lc_sexp::{Cursor, Forms, Item};
use lc_term::{Formula, Term};
use lc_text::{Scope, Terms, read_formula, read_number};
use std::alloc::Global;

/// What the first word of a hint says.
#[derive(Clone, Copy)]
pub(crate) enum Head {
    Use,
    Cut,
    By,
}

/// What this word says.
fn head_of(word: &str) -> Option<Head>
    ensures { result ≡ head_of word.now }
{
    match word {
        "use" => Some(Head::Use),
        "cut" => Some(Head::Cut),
        "by" => Some(Head::By),
        _ => None,
    }
}

/// The terms that are left in a list, one at least.
fn read_terms<S: Scope>(alloc: Global, scope: &S, list: Cursor<'_>) -> Result<Vec<Term>, ReadFault>
    ensures { IsReading (λ terms. map term_of terms.items) (terms_due (S.names scope.now) (owner_of list.entry) (number_of list.entry) (rest_of list.entry)) result }
{
    if list.is_empty() {
        return Err(wrong(Pass::Shape, list.owner()));
    }
    read_each(alloc, &Terms(scope), list)
}

/// `K T+`
fn read_use<S: Scope>(alloc: Global, scope: &S, list: Cursor<'_>) -> Result<Hint, ReadFault>
    ensures { IsReading hint_of (use_reading (S.names scope.now) (owner_of list.entry) (number_of list.entry) (rest_of list.entry)) result }
{
    let mut rest = list;
    let first = next_part(&mut rest)?;
    let number = read_number(first);
    match both(number, read_terms(alloc, scope, rest)) {
        Ok((number, terms)) => Ok(Hint {
            number,
            advice: Advice::Use(terms),
        }),
        Err(fault) => Err(fault),
    }
}

/// `K F`
fn read_numbered_formula<S: Scope>(
    alloc: Global,
    scope: &S,
    list: Cursor<'_>,
) -> Result<(i64, Formula), ReadFault>
    ensures { IsReading cut_parts (cut_parts_reading (S.names scope.now) (owner_of list.entry) (number_of list.entry) (rest_of list.entry)) result }
{
    let (first, second, rest) = two(list)?;
    let number = read_number(first);
    let formula = read_formula(alloc, scope, second);
    ended(both(number, formula), rest)
}

/// A hint of a formula.
fn read_cut<S: Scope>(alloc: Global, scope: &S, list: Cursor<'_>) -> Result<Hint, ReadFault>
    ensures { IsReading hint_of (cut_reading (S.names scope.now) (owner_of list.entry) (number_of list.entry) (rest_of list.entry)) result }
{
    match read_numbered_formula(alloc, scope, list) {
        Ok((number, formula)) => Ok(Hint {
            number,
            advice: Advice::Cut(formula),
        }),
        Err(fault) => Err(fault),
    }
}

/// `K P`
fn read_numbered_proof<S: Scope>(
    alloc: Global,
    scope: &S,
    list: Cursor<'_>,
) -> Result<(i64, Proof), ReadFault>
    ensures { IsReading by_parts (by_parts_reading (S.names scope.now) (owner_of list.entry) (number_of list.entry) (rest_of list.entry)) result }
{
    let (first, second, rest) = two(list)?;
    let number = read_number(first);
    let proof = read_proof(alloc, scope, second);
    ended(both(number, proof), rest)
}

/// A hint of a proof.
fn read_by<S: Scope>(alloc: Global, scope: &S, list: Cursor<'_>) -> Result<Hint, ReadFault>
    ensures { IsReading hint_of (by_reading (S.names scope.now) (owner_of list.entry) (number_of list.entry) (rest_of list.entry)) result }
{
    match read_numbered_proof(alloc, scope, list) {
        Ok((number, proof)) => Ok(Hint {
            number,
            advice: Advice::By(proof),
        }),
        Err(fault) => Err(fault),
    }
}

/// What a list has after this word.
fn read_headed<S: Scope>(
    alloc: Global,
    scope: &S,
    head: Option<Head>,
    list: Cursor<'_>,
) -> Result<Hint, ReadFault>
    ensures { IsReading hint_of (hint_with (S.names scope.now) (owner_of list.entry) (number_of list.entry) (rest_of list.entry) head) result }
{
    match head {
        Some(Head::Use) => read_use(alloc, scope, list),
        Some(Head::Cut) => read_cut(alloc, scope, list),
        Some(Head::By) => read_by(alloc, scope, list),
        None => Err(wrong(Pass::Shape, list.owner())),
    }
}

/// `(use K T+)`, `(cut K F)` or `(by K P)`
fn read_hint<S: Scope>(alloc: Global, scope: &S, part: Part<'_>) -> Result<Hint, ReadFault>
    ensures { IsReading hint_of (hint_reading (S.names scope.now) (place_of part.entry) (tree_of part.entry)) result }
{
    let list = match part.item() {
        Item::Atom(atom) => return Err(wrong(Pass::Shape, atom.number())),
        Item::List(list) => list,
    };
    let (word, parts) = headed(list)?;
    read_headed(alloc, scope, head_of(word), parts)
}

/// Reads hints, with the names of this scope.
#[derive(Drop)]
struct Each<'s, S>(&'s S);

impl<S: Scope> Reads for Each<'_, S> {
    ghost use Rattle.lc_hints.specs.Hints.{Hint};
    ghost use Rattle.lc_hints.specs.Readings.{hint_reading};
    ghost use Rattle.lc_hints.specs.View.{hint_of};

    type Value = Hint;

    ghost Meaning = { Hint };

    ghost meaning = { hint_of };

    ghost reading = { λ reader. hint_reading (S.names reader.0.now) };

    fn read(&self, alloc: Global, part: Part<'_>) -> Result<Hint, ReadFault> {
        read_hint(alloc, self.0, part)
    }
}

/// `(hints ..)`
fn read_form<S: Scope>(alloc: Global, scope: &S, part: Part<'_>) -> Result<Vec<Hint>, ReadFault>
    ensures { IsReading (λ hints. map hint_of hints.items) (form_reading (S.names scope.now) (place_of part.entry) (tree_of part.entry)) result }
{
    let list = behind_word(part, "hints")?;
    read_each(alloc, &Each(scope), list)
}

/// The form of a file of hints, which must be the whole rest of a list.
fn read_file(
    alloc: Global,
    columns: &NameTable<'_>,
    forms: Cursor<'_>,
) -> Result<Vec<Hint>, ReadFault>
    ensures { IsReading (λ hints. map hint_of hints.items) (only (form_reading (names_with (listed columns.now))) (owner_of forms.entry) (number_of forms.entry) (rest_of forms.entry)) result }
{
    let scope = InCertificate::new(columns)?;
    let (form, rest) = one(forms)?;
    ended(read_form(alloc, &scope, form), rest)
}

/// The hints for a development in the file with these forms. If they are none, `Refused` has the first refusal,
/// as in `hints_of`.
pub fn hints_in(alloc: Global, development: &Development, forms: Forms) -> Result<Hints, Fault>
    requires { (bytes : List ℕ) × ReadsAs bytes forms }
    ensures answer { (bytes : List ℕ) → ReadsAs bytes forms → IsAnswerTo (development_view development.now) bytes result }
    ensures back { IfOk result (λ hints. Every (EntryReadsBack (development_view development.now)) (proofs_in hints)) }
{
    let parts = development.parts();
    let names = column_names(alloc, parts)?;
    let columns = table_of(alloc, &names)?;
    match read_file(alloc, &columns, forms.cursor()) {
        Ok(hints) => Ok(Hints::of_given(gathered(alloc, hints)?)),
        Err(fault) => Err(Fault::from(fault)),
    }
}

/// The hints for a development that these bytes are: `(hints ((use K T+) | (cut K F) | (by K P))*)`, each K a NUMBER. A
/// hint for no condition is dropped, or never asked for.
///
/// If they are none, `Refused` has the first refusal, as of a formula file: `Text` with the offset of the first text
/// fault; else of `Shape`, `Unknown`, `Repeated`, `Auxiliary` and `Bound`, in this order, the first for which an item is
/// wrong, with the least such item. `OutOfMemory` says nothing about the bytes.
pub fn hints_of(alloc: Global, development: &Development, bytes: &[u8]) -> Result<Hints, Fault>
    ensures answer { IsAnswerTo (development_view development.now) bytes.now result }
    ensures back { IfOk result (λ hints. Every (EntryReadsBack (development_view development.now)) (proofs_in hints)) }
{
    let forms = Forms::read(alloc, bytes)?;
    hints_in(alloc, development, forms)
}

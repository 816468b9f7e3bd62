//! How names are read in a claim and in its proof.
ghost use Rattle.std.specs.Prelude.{◌≡◌, ◌<◌, ◌^◌, Some, None, IfOk, IfSome, codes, []};
ghost use Rattle.lc_sexp.specs.Trees.{item_count};
ghost use Rattle.lc_reading.specs.Parts.{tree_of, place_of};
ghost use Rattle.lc_reading.specs.Results.{IsReading};
ghost use Rattle.lc_reading.specs.TableView.{listed};
ghost use Rattle.lc_text.specs.Names.{column_at};
ghost use Rattle.lc_proof_text.specs.FileNames.{names_behind, declared_by, declared_of};
ghost use Rattle.lc_proof_text.specs.Files.{section_reading, declarations_reading};

use crate::declared::Declared;
use lc_base::{COLUMN_LIMIT, ColId, OutOfMemory};
use lc_reading::{NameTable, Part, ReadFault, also, behind_word, read_names};
use lc_text::{ColumnUse, Extra, Scope};
use std::alloc::Global;

/// How names are read in the hypotheses and the goal.
#[derive(Clone, Copy)]
pub(crate) struct InClaim<'a, 'b>(pub(crate) &'b Declared<'a>);

/// How names are read in the proof.
#[derive(Clone, Copy)]
pub(crate) struct InProof<'a, 'b>(pub(crate) &'b Declared<'a>);

fn column_at(place: Option<usize>) -> ColumnUse
    requires { IfSome place (λ k. k < 2 ^ 32) }
    ensures { result ≡ column_at place }
{
    match place {
        Some(place) => ColumnUse::Usable(ColId(place as u32)),
        None => ColumnUse::Undeclared,
    }
}

impl Scope for InClaim<'_, '_> {
    ghost use Rattle.lc_proof_text.specs.FileNames.{claim_names, declared_of};

    ghost names = { λ scope. claim_names (declared_of scope.0.now) };

    fn variable(&self, name: &str) -> Option<u32> {
        let place = self.0.variables.place(name)?;
        Some(place as u32)
    }

    fn column(&self, name: &str) -> ColumnUse {
        column_at(self.0.columns.place(name))
    }

    fn allows(&self, extra: Extra) -> bool {
        !matches!(extra, Extra::NumberedVariables)
    }
}

impl Scope for InProof<'_, '_> {
    ghost use Rattle.lc_proof_text.specs.FileNames.{proof_names, declared_of};

    ghost names = { λ scope. proof_names (declared_of scope.0.now) };

    fn variable(&self, _: &str) -> Option<u32> {
        None
    }

    fn column(&self, name: &str) -> ColumnUse {
        column_at(self.0.columns.place(name))
    }

    fn allows(&self, _: Extra) -> bool {
        true
    }
}

/// The names that a section declares which begins with this word, up to a limit; and what is wrong in it.
fn read_section<'a>(
    alloc: Global,
    word: &str,
    limit: Option<u64>,
    part: Part<'a>,
) -> Result<(NameTable<'a>, Result<(), ReadFault>), OutOfMemory>
    ensures names { IfOk result (λ r. listed r.0 ≡ names_behind word.now (tree_of part.entry)) }
    ensures wrong { IfOk result (λ r. IsReading (λ u. u) (section_reading word.now limit (place_of part.entry) (tree_of part.entry)) r.1) }
{
    let names = NameTable::new(alloc);
    match behind_word(part, word) {
        Ok(list) => read_names(limit, names, list),
        Err(misfit) => Ok((names, Err(ReadFault::from(misfit)))),
    }
}

/// The names that these two sections declare, and what is wrong in either.
pub(crate) fn read_declarations<'a>(
    alloc: Global,
    variables: Part<'a>,
    columns: Part<'a>,
) -> Result<(Declared<'a>, Result<(), ReadFault>), OutOfMemory>
    requires variables { item_count (tree_of variables) < 2 ^ 32 }
    requires columns { item_count (tree_of columns) < 2 ^ 32 }
    ensures names { IfOk result (λ r. declared_of r.0 ≡ declared_by (tree_of variables.entry) (tree_of columns.entry)) }
    ensures wrong { IfOk result (λ r. IsReading (λ u. u) (declarations_reading (place_of variables.entry) (tree_of variables.entry) (place_of columns.entry) (tree_of columns.entry)) r.1) }
{
    let (variables, wrong) = read_section(alloc, "vars", None, variables)?;
    let (columns, wrong_too) = read_section(alloc, "cols", Some(COLUMN_LIMIT), columns)?;
    Ok((Declared { variables, columns }, also(wrong, wrong_too)))
}

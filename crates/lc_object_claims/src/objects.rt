//! Specifications and the code of objects.
ghost use Rattle.std.specs.Prelude.{◌≡◌, ◌++◌};
ghost use Rattle.lc_object.specs.View.{instruction_of, names_of};
ghost use Rattle.lc_object_text.specs.Answers.{IsAnswerOf};
ghost use Rattle.lc_object_text.specs.Counts.{count_reading};
ghost use Rattle.lc_object_text.specs.Declaring.{names_reading};
ghost use Rattle.lc_object_text.specs.Instructions.{instruction_reading};
ghost use Rattle.lc_object_text.specs.Sections.{sections_at};
ghost use Rattle.lc_object_text.specs.Seen.{items_of, sections_view};
ghost use Rattle.lc_reading.specs.Files.{IsAnswerTo};
ghost use Rattle.lc_reading.specs.Listed.{names_among, place_of as listed_place};
ghost use Rattle.lc_reading.specs.Parts.{tree_of, place_of};
ghost use Rattle.lc_reading.specs.Results.{IsReading};
ghost use Rattle.lc_reading.specs.TableView.{listed};
ghost use Rattle.lc_seq.specs.TextView.{specification_of};
ghost use Rattle.lc_sexp.specs.Shown.{rest_of, number_of, owner_of};
ghost use Rattle.lc_sexp.specs.Trees.{row};
ghost use Rattle.lc_spec_text.specs.Specifications.{first_reading, specification_reading};

use lc_base::{Fault, Name};
use lc_object::{Instr, Object};
use lc_object_text::{
    Body, CodeScope, Names, Sections, find_sections, object_of, read_count, read_instruction,
    read_names,
};
use lc_reading::{NameTable, Part, ReadFault};
use lc_seq::TextSpec;
use lc_sexp::{Cursor, Sexp};
use lc_spec_text::{read_specification, spec_of};
use lc_text::Scope;
use std::alloc::Global;

/// For a file, the specification that its first form is is returned, or its first refusal.
pub fn reading_a_specification(alloc: Global, bytes: &[u8]) -> Result<TextSpec, Fault>
    ensures { IsAnswerTo specification_of first_reading bytes.now result }
{
    spec_of(alloc, bytes)
}

/// A specification reads as is defined, whatever other columns its file declares.
pub fn reading_beside<'a>(
    alloc: Global,
    others: &NameTable<'a>,
    part: Part<'a>,
) -> Result<TextSpec, ReadFault>
    ensures { IsReading specification_of (specification_reading (listed others.now) (place_of part.entry) (tree_of part.entry)) result }
{
    read_specification(alloc, others, part)
}

/// For the forms of a file, their object is returned, or their first refusal.
pub fn reading_an_object(alloc: Global, forms: &[Sexp]) -> Result<Object, Fault>
    ensures { IsAnswerOf (row forms.now) result }
{
    object_of(alloc, forms)
}

/// An instruction reads as is defined.
pub fn reading_an_instruction<S: Scope + CodeScope>(
    alloc: Global,
    scope: &S,
    part: Part<'_>,
) -> Result<Instr, ReadFault>
    ensures { IsReading instruction_of (instruction_reading (S.names scope.now) (S.code scope.now) (place_of part.entry) (tree_of part.entry)) result }
{
    read_instruction(alloc, scope, part)
}

/// A row has as many items as are expected.
pub fn counting(due: Option<u64>, list: Cursor<'_>) -> Result<(), ReadFault>
    ensures { IsReading (λ u. u) (count_reading due (owner_of list.entry) (number_of list.entry) (rest_of list.entry)) result }
{
    read_count(due, list)
}

/// Names that are declared in a list read as is defined, up to a limit.
pub fn reading_names(
    alloc: Global,
    reader: &Names<'_, '_>,
    part: Part<'_>,
) -> Result<Vec<Name>, ReadFault>
    ensures { IsReading (λ names. names_of names.items) (names_reading reader.now.limit (listed reader.now.names.now) reader.now.base (place_of part.entry) (tree_of part.entry)) result }
{
    read_names(alloc, reader, part)
}

/// The sections of a file begin where they are defined to, whatever is wrong in the file.
pub fn finding_sections<'a>(forms: Cursor<'a>) -> Sections<'a>
    ensures { sections_view result ≡ sections_at (items_of forms.entry) }
{
    find_sections(forms)
}

/// A variable of a body is one of its arguments or, after these, of its locals.
pub fn finding_a_variable(body: &Body<'_>, name: &str) -> Option<usize>
    ensures { result ≡ listed_place (names_among (rest_of body.now.arguments) ++ listed body.now.locals) name.now }
{
    body.variable(name)
}

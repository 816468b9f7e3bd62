//! How a development file is read.
ghost use Rattle.std.specs.Prelude.{◌≡◌, ℕ, List, true, IfOk};
ghost use Rattle.lc_sexp.specs.Reads.{ReadsAs};
ghost use Rattle.lc_sexp.specs.Shown.{rest_of, number_of};
ghost use Rattle.lc_object_text.specs.Sections.{sections_of};
ghost use Rattle.lc_object_text.specs.Seen.{sections_view};
ghost use Rattle.lc_outline.specs.Development.{start_numbers};
ghost use Rattle.lc_outline.specs.DevelopmentView.{development_view};
ghost use Rattle.lc_outline.specs.Limits.{is_limited};
ghost use Rattle.lc_outline.specs.PartsView.{parts_view};
ghost use Rattle.lc_outline.specs.Resolved.{is_resolved};
ghost use Rattle.lc_reading.specs.Files.{IsAnswerTo};
ghost use Rattle.lc_reading.specs.Parts.{tree_of, place_of};
ghost use Rattle.lc_reading.specs.Results.{IsReading};
ghost use Rattle.lc_tie.specs.TieView.{numbers_in};
ghost use Rattle.lc_outline_text.specs.Declarations.{declarations_of};
ghost use Rattle.lc_outline_text.specs.DeclarationsView.{declarations_view};
ghost use Rattle.lc_outline_text.specs.Developments.{tables_reading, object_reading, second_form_reading, forms_reading, file_reading};
ghost use Rattle.lc_outline_text.specs.Views.{tables_and_sides, object_parts_view, IsFileRead, is_told_before_limits};

use crate::bodies::read_bodies;
use crate::conditions::condition_count;
use crate::declarations::Declarations;
use crate::declaring::read_all_declarations;
use crate::made::{ObjectParts, made_development};
use crate::sides::{Sides, read_sides};
use lc_base::{CONDITION_LIMIT, Fault};
use lc_object_text::{Sections, Tables, find_sections, read_tables};
use lc_outline::{Development, Parts};
use lc_reading::{Part, Pass, ReadFault, both, ended, limited, next_part, wrong};
use lc_sexp::{Cursor, Forms};
use lc_spec_text::read_specification;
use std::alloc::Global;

/// An object's own tables, and what is beside its code, in the object of this number.
fn read_tables_and_sides(
    alloc: Global,
    declarations: &Declarations<'_>,
    sections: &Sections<'_>,
    object: u64,
) -> Result<(Tables, Sides), ReadFault>
    ensures { IsReading tables_and_sides (tables_reading (declarations_view declarations.now) (sections_view sections.now) object) result }
{
    let tables = read_tables(alloc, &declarations.declared, sections, object);
    match both(tables, read_sides(alloc, declarations, sections, object)) {
        Ok((tables, sides)) => Ok((tables, sides)),
        Err(fault) => Err(fault),
    }
}

/// The object of this number.
fn read_object(
    alloc: Global,
    declarations: &Declarations<'_>,
    sections: &Sections<'_>,
    object: u64,
) -> Result<ObjectParts, ReadFault>
    ensures { IsReading object_parts_view (object_reading (declarations_view declarations.now) (sections_view sections.now) object) result }
{
    let tables = read_tables_and_sides(alloc, declarations, sections, object);
    match both(
        tables,
        read_bodies(alloc, declarations, object, sections.bodies),
    ) {
        Ok((tables, bodies)) => Ok((tables, bodies)),
        Err(fault) => Err(fault),
    }
}

/// The second form of a file, which is its last.
fn read_second_form(
    alloc: Global,
    declarations: &Declarations<'_>,
    sections: &Sections<'_>,
    mut forms: Cursor<'_>,
) -> Result<ObjectParts, ReadFault>
    ensures { IsReading object_parts_view (second_form_reading (declarations_view declarations.now) (sections_view sections.now) (number_of forms.entry) (rest_of forms.entry)) result }
{
    let number = forms.number();
    let Ok(_) = next_part(&mut forms) else {
        return Err(wrong(Pass::Shape, number));
    };
    ended(read_object(alloc, declarations, sections, number), forms)
}

/// The forms of a file that declares this and has these sections.
fn read_forms<'a>(
    alloc: Global,
    declarations: &Declarations<'a>,
    sections: &Sections<'a>,
    mut forms: Cursor<'a>,
) -> Result<Parts, ReadFault>
    requires start { number_of forms ≡ 0 }
    requires declared { declarations_view declarations.now ≡ declarations_of (rest_of forms) }
    requires sections { sections_view sections.now ≡ sections_of (rest_of forms) }
    ensures read { IsReading parts_view (forms_reading (declarations_of (rest_of forms.entry)) (sections_of (rest_of forms.entry)) 0 (rest_of forms.entry)) result }
    ensures resolved { IfOk result (λ parts. is_resolved (parts_view parts) ≡ true) }
    ensures initial { IfOk result (λ parts. numbers_in parts.tie ≡ start_numbers (parts_view parts)) }
{
    let number = forms.number();
    let Ok(part) = next_part(&mut forms) else {
        return Err(wrong(Pass::Shape, number));
    };
    let specification = read_specification(alloc, &declarations.declared.columns, part);
    let object = read_second_form(alloc, declarations, sections, forms);
    let (specification, object) = both(specification, object)?;
    let parts = made_development(alloc, specification, object)?;
    Ok(parts)
}

/// Whether what is wrong with these is reported before any item beyond a limit.
fn is_told_before_limits(parts: &Result<Parts, ReadFault>) -> bool
    ensures { result ≡ is_told_before_limits parts.now }
{
    match parts {
        Err(ReadFault::Flawed(flaw)) => flaw.pass != Pass::Bound,
        _ => false,
    }
}

/// What the forms of a file say, else what is reported first about them. Conditions are counted only if their number may be
/// reported: after a flaw of an earlier pass no limit is.
fn read_file(alloc: Global, forms: Cursor<'_>) -> Result<Parts, ReadFault>
    requires start { number_of forms ≡ 0 }
    ensures read { IsFileRead (rest_of forms.entry) result }
    ensures resolved { IfOk result (λ parts. is_resolved (parts_view parts) ≡ true) }
    ensures limited { IfOk result (λ parts. is_limited (parts_view parts) ≡ true) }
    ensures initial { IfOk result (λ parts. numbers_in parts.tie ≡ start_numbers (parts_view parts)) }
{
    let sections = find_sections(forms);
    let declarations = read_all_declarations(alloc, &sections)?;
    let parts = read_forms(alloc, &declarations, &sections, forms);
    if is_told_before_limits(&parts) {
        return parts;
    }
    let count = condition_count(alloc, &declarations, &sections)?;
    limited(count > CONDITION_LIMIT, 0, parts)
}

/// The development of the file with these forms. If it is none, `Refused` has its first refusal, as in
/// `development_of`.
pub fn development_in(alloc: Global, forms: &Forms) -> Result<Development, Fault>
    ensures { (bytes : List ℕ) → ReadsAs bytes forms.now → IsAnswerTo development_view file_reading bytes result }
{
    let parts = read_file(alloc, forms.cursor())?;
    Ok(Development::of_parts(parts))
}

/// The development that a file is: `SPEC OBJECT`, where
///
/// ```text
/// SPEC   ::= (spec NAME (abstract COL*) (op NAME (ARG*) REPLIES BRANCH+)+)
/// OBJECT ::= (object NAME (array NAME COL+)* (aux COL*) ACTION* (invariant (NAME F)*) (idle F*) BODY+)
/// ```
///
/// If it is none, `Refused` has the first refusal: `Text` with the offset of the first text fault; else of `Shape`,
/// `Unknown`, `Repeated`, `Auxiliary` and `Bound`, in this order, the first for which an item is wrong, with the least such
/// item. That there are more conditions than their limit is `Bound` at the item 0. `OutOfMemory` says nothing about the
/// file.
pub fn development_of(alloc: Global, bytes: &[u8]) -> Result<Development, Fault>
    ensures { IsAnswerTo development_view file_reading bytes.now result }
{
    let forms = Forms::read(alloc, bytes)?;
    development_in(alloc, &forms)
}

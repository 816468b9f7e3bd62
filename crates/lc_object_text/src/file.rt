//! How the object of a file is read, with nothing beside its code.
ghost use Rattle.std.specs.Prelude.{◌≡◌, true, List};
ghost use Rattle.lc_sexp.specs.Trees.{row};
ghost use Rattle.lc_sexp.specs.Shown.{rest_of, number_of};
ghost use Rattle.lc_object.specs.Syntax as S;
ghost use Rattle.lc_object.specs.View.{parts_of, point_of};
ghost use Rattle.lc_reading.specs.Results.{IsReading};
ghost use Rattle.lc_object_text.specs.Answers.{IsAnswerOf};
ghost use Rattle.lc_object_text.specs.DeclaredView.{declared_view};
ghost use Rattle.lc_object_text.specs.Objects.{object_reading, second_form_reading, forms_reading, file_reading};
ghost use Rattle.lc_object_text.specs.Points.{code_alone};
ghost use Rattle.lc_object_text.specs.Seen.{sections_view};
ghost use Rattle.lc_object_text.specs.Texts.{specification_view, object_parts};
ghost use Rattle.lc_object_text.specs.Objects as O;
ghost use Rattle.lc_object_text.specs.Points as P;
ghost use Rattle.lc_reading.specs.Readings.{Reading, both};

use crate::body::{Bodies, BodyText, read_bodies};
use crate::declared::Declared;
use crate::declared_names::read_declarations;
use crate::made::made_parts;
use crate::point::CodeAlone;
use crate::section_finding::find_sections;
use crate::sections::Sections;
use crate::signatures::{SpecificationText, read_specification};
use crate::tables::{Tables, read_tables};
use lc_base::Fault;
use lc_object::{Object, Parts, Point};
use lc_reading::{Pass, ReadFault, both, ended, next_part, wrong};
use lc_sexp::{Cursor, Forms, Sexp};
use std::alloc::Global;

/// The object of this number, with nothing beside its code.
fn read_object(
    alloc: Global,
    declared: &Declared<'_>,
    sections: &Sections<'_>,
    object: u64,
) -> Result<(Tables, Vec<BodyText<Point>>), ReadFault>
    ensures { IsReading object_parts (object_reading (declared_view declared.now) (sections_view sections.now) code_alone object) result }
{
    let tables = read_tables(alloc, declared, sections, object);
    let reader = Bodies {
        declared,
        beside: &CodeAlone,
    };
    both(tables, read_bodies(alloc, &reader, object, sections.bodies))
}

/// The second form of a file, which is its last.
fn read_second_form(
    alloc: Global,
    declared: &Declared<'_>,
    sections: &Sections<'_>,
    mut forms: Cursor<'_>,
) -> Result<(Tables, Vec<BodyText<Point>>), ReadFault>
    ensures { IsReading object_parts (second_form_reading (declared_view declared.now) (sections_view sections.now) (number_of forms.entry) (rest_of forms.entry)) result }
{
    let number = forms.number();
    let Ok(_) = next_part(&mut forms) else {
        return Err(wrong(Pass::Shape, number));
    };
    ended(read_object(alloc, declared, sections, number), forms)
}

/// The parts of the object of this specification and this text.
fn made_object(
    alloc: Global,
    specification: Result<SpecificationText, ReadFault>,
    object: Result<(Tables, Vec<BodyText<Point>>), ReadFault>,
) -> Result<Parts, ReadFault>
    ensures { (s : Reading O.SpecificationText) (o : Reading (O.Tables × List (P.BodyText S.Point))) → IsReading specification_view s specification → IsReading object_parts o object →
        IsReading parts_of (both O.object_of s o) result }
{
    let (specification, object) = both(specification, object)?;
    let parts = made_parts(alloc, specification, object)?;
    Ok(parts)
}

/// The forms of a file with these names and sections.
fn read_forms(
    alloc: Global,
    declared: &Declared<'_>,
    sections: &Sections<'_>,
    mut forms: Cursor<'_>,
) -> Result<Parts, ReadFault>
    ensures { IsReading parts_of (forms_reading (declared_view declared.now) (sections_view sections.now) (number_of forms.entry) (rest_of forms.entry)) result }
{
    let number = forms.number();
    let Ok(part) = next_part(&mut forms) else {
        return Err(wrong(Pass::Shape, number));
    };
    let specification = read_specification(alloc, declared, part);
    let object = read_second_form(alloc, declared, sections, forms);
    made_object(alloc, specification, object)
}

/// The parts that the file of these forms reads as.
fn read_file(alloc: Global, forms: Cursor<'_>) -> Result<Parts, ReadFault>
    requires start { number_of forms ≡ 0 }
    ensures { IsReading parts_of (file_reading (rest_of forms.entry)) result }
{
    let sections = find_sections(forms);
    let declared = read_declarations(alloc, &sections)?;
    read_forms(alloc, &declared, &sections, forms)
}

/// The object of a development file, given a cursor at the first of its forms.
///
/// It reads the names of the abstract columns, and the operations without their branches; the arrays, the names of the
/// auxiliary columns, and the locals, points and instructions of each body. Actions, `invariant`, `idle`, `assert` and
/// `on` only have to be lists that begin with their word.
///
/// If they say no object, `Refused` has the first refusal: of `Shape`, `Unknown`, `Repeated`, `Auxiliary` and `Bound`,
/// in this order, the first for which an item is wrong, with the least such item. `OutOfMemory` says nothing about the
/// file.
pub fn object_at(alloc: Global, forms: Cursor<'_>) -> Result<Object, Fault>
    requires start { number_of forms ≡ 0 }
    ensures { IsAnswerOf (rest_of forms.entry) result }
{
    let parts = read_file(alloc, forms)?;
    Ok(Object::of_parts(parts))
}

/// The object of a development file, given all forms of the file: `object_at` over a copy of them in one row.
pub fn object_of(alloc: Global, forms: &[Sexp]) -> Result<Object, Fault>
    ensures { IsAnswerOf (row forms.now) result }
{
    let forms = Forms::of(alloc, forms)?;
    object_at(alloc, forms.cursor())
}

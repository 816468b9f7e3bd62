//! The development of what was read.
ghost use Rattle.std.specs.Prelude.{◌≡◌, ◌++◌, true, map, IfOk};
ghost use Rattle.lc_object.specs.View.{names_of, point_of, column_view};
ghost use Rattle.lc_object.specs.WellFormed.{is_object};
ghost use Rattle.lc_object_text.specs.Texts.{body_texts_view, signature_view, specification_view};
ghost use Rattle.lc_outline.specs.Development.{start_numbers};
ghost use Rattle.lc_seq.specs.SpecView.{column_of, operation_of};
ghost use Rattle.lc_seq.specs.TextView.{specification_of};
ghost use Rattle.lc_outline.specs.PartsView.{outline_of, parts_view};
ghost use Rattle.lc_tie.specs.TieView.{numbers_in};
ghost use Rattle.lc_outline_text.specs.Developments.{code_of, outlines_of, signature_seen, text_seen, development_of};
ghost use Rattle.lc_outline_text.specs.Views.{outlined_of, bodies_outlined, object_parts_view, declared_numbers};

use crate::sides::Sides;
use lc_base::{Name, OutOfMemory};
use lc_object::{Column as Concrete, Object, Point};
use lc_object_text::{BodyText, Signature, SpecificationText, Tables, made_parts};
use lc_outline::{Outline, Parts};
use lc_seq::{Column, Operation, TextSpec};
use lc_tie::Tie;
use std::alloc::Global;

/// What an object is read into: its own tables, what is beside its code, and its bodies with their outlines.
pub(crate) type ObjectParts = ((Tables, Sides), Vec<BodyText<(Point, Outline)>>);

/// Points, and these outlines followed by those of the points.
fn apart(
    alloc: Global,
    points: Vec<(Point, Outline)>,
    mut outlines: Vec<Outline>,
) -> Result<(Vec<Point>, Vec<Outline>), OutOfMemory>
    ensures points { IfOk result (λ r. map point_of r.0.items ≡ map (λ p. p.0) (map outlined_of points.items)) }
    ensures outlines { IfOk result (λ r. map outline_of r.1.items ≡ map outline_of outlines.items ++ map (λ p. p.1) (map outlined_of points.items)) }
{
    let mut code = Vec::with_capacity(alloc, points.len())?;
    for (point, outline) in points {
        code.push(point)?;
        outlines.push(outline)?;
    }
    Ok((code, outlines))
}

/// The code of bodies, and the outlines of all their points.
fn code_and_outlines(
    alloc: Global,
    bodies: Vec<BodyText<(Point, Outline)>>,
) -> Result<(Vec<BodyText<Point>>, Vec<Outline>), OutOfMemory>
    ensures code { IfOk result (λ r. body_texts_view r.0 ≡ map code_of (bodies_outlined bodies.items)) }
    ensures outlines { IfOk result (λ r. map outline_of r.1.items ≡ outlines_of (bodies_outlined bodies.items)) }
{
    let mut code = Vec::with_capacity(alloc, bodies.len())?;
    let mut outlines = Vec::new(alloc);
    for body in bodies {
        let (locals, points) = body.into_parts();
        let (points, more) = apart(alloc, points, outlines)?;
        outlines = more;
        code.push(BodyText { locals, points })?;
    }
    Ok((code, outlines))
}

/// The two numbers of each declared column.
fn start_numbers(
    alloc: Global,
    abstracts: &[Column],
    concretes: &[Concrete],
    auxiliaries: &[Column],
) -> Result<Vec<(i64, i64)>, OutOfMemory>
    ensures { IfOk result (λ numbers. numbers.items ≡ declared_numbers (map column_of abstracts.now) (map column_view concretes.now) (map column_of auxiliaries.now)) }
{
    let mut numbers = Vec::new(alloc);
    for column in abstracts {
        numbers.push((column.slope, column.start))?;
    }
    for column in concretes {
        numbers.push((column.slope, column.start))?;
    }
    for column in auxiliaries {
        numbers.push((column.slope, column.start))?;
    }
    Ok(numbers)
}

/// What its object's code sees of an operation.
fn signature_seen(alloc: Global, operation: &Operation) -> Result<Signature, OutOfMemory>
    ensures { IfOk result (λ signature. signature_view signature ≡ signature_seen (operation_of operation.now)) }
{
    Ok(Signature {
        name: operation.name,
        arguments: Vec::from_slice(alloc, &operation.arguments)?,
        replies: operation.replies,
    })
}

/// The names of columns.
fn names_of_columns(alloc: Global, columns: &[Column]) -> Result<Vec<Name>, OutOfMemory>
    ensures { IfOk result (λ names. names_of names.items ≡ map (λ c. c.name) (map column_of columns.now)) }
{
    let mut names = Vec::with_capacity(alloc, columns.len())?;
    for column in columns {
        names.push(column.name)?;
    }
    Ok(names)
}

/// What its object's code sees of each operation.
fn signatures_seen(alloc: Global, operations: &[Operation]) -> Result<Vec<Signature>, OutOfMemory>
    ensures { IfOk result (λ signatures. map signature_view signatures.items ≡ map signature_seen (map operation_of operations.now)) }
{
    let mut signatures = Vec::with_capacity(alloc, operations.len())?;
    for operation in operations {
        let signature = signature_seen(alloc, operation)?;
        signatures.push(signature)?;
    }
    Ok(signatures)
}

/// What its object's code sees of a specification.
fn text_seen(alloc: Global, specification: &TextSpec) -> Result<SpecificationText, OutOfMemory>
    ensures { IfOk result (λ text. specification_view text ≡ text_seen (specification_of specification.now)) }
{
    let abstracts = names_of_columns(alloc, specification.columns())?;
    let signatures = signatures_seen(alloc, specification.operations())?;
    Ok(SpecificationText {
        abstracts,
        signatures,
    })
}

/// The parts of the development of this specification and this object.
pub(crate) fn made_development(
    alloc: Global,
    specification: TextSpec,
    object: ObjectParts,
) -> Result<Parts, OutOfMemory>
    requires { is_object (development_of (specification_of specification) (object_parts_view object)).object ≡ true }
    ensures shown { IfOk result (λ parts. parts_view parts ≡ development_of (specification_of specification) (object_parts_view object)) }
    ensures initial { IfOk result (λ parts. numbers_in parts.tie ≡ start_numbers (parts_view parts)) }
{
    let text = text_seen(alloc, &specification)?;
    let ((tables, sides), bodies) = object;
    let (code, outlines) = code_and_outlines(alloc, bodies)?;
    let object = Object::of_parts(made_parts(alloc, text, (tables, code))?);
    let (auxiliaries, actions, conjuncts, idle) = sides.into_parts();
    let initial = start_numbers(
        alloc,
        specification.columns(),
        &object.parts().concretes,
        &auxiliaries,
    )?;
    Ok(Parts {
        specification,
        object,
        auxiliaries,
        actions,
        tie: Tie::new(conjuncts, initial),
        idle,
        outlines,
    })
}

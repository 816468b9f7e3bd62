//! The object of what was read.
ghost use Rattle.std.specs.Prelude.{◌≡◌, ◌+◌, ◌-◌, ◌≤◌, map, IfOk};
ghost use Rattle.lc_object.specs.View.{parts_of, columns_of, column_view, array_of, operation_of, point_of};
ghost use Rattle.lc_object.specs.WellFormed.{numbers_from};
ghost use Rattle.lc_object_text.specs.Objects as O;
ghost use Rattle.lc_object_text.specs.Objects.{concretes_of, arrays_from, operations_from, points_of};
ghost use Rattle.lc_object_text.specs.Texts.{array_view, signature_view, specification_view, body_texts_view, object_parts};

use crate::arrays::ArrayText;
use crate::body::BodyText;
use crate::signatures::{Signature, SpecificationText};
use crate::tables::Tables;
use lc_base::{ColId, OutOfMemory, PointId};
use lc_object::{Array, Column, Operation, Parts, Point};
use std::alloc::Global;

/// The numbers of columns from this one to that.
fn column_numbers(alloc: Global, first: u32, end: u32) -> Result<Vec<ColId>, OutOfMemory>
    requires { first ≤ end }
    ensures { IfOk result (λ columns. columns_of columns.items ≡ numbers_from first (end - first)) }
{
    let mut columns = Vec::new(alloc);
    for number in first..end {
        columns.push(ColId(number))?;
    }
    Ok(columns)
}

/// The number `count` after `first`.
fn behind(first: u32, count: usize) -> Result<u32, OutOfMemory>
    ensures { IfOk result (λ end. end ≡ first + count) }
{
    let Ok(count) = u32::try_from(count) else {
        return Err(OutOfMemory);
    };
    match first.checked_add(count) {
        Some(end) => Ok(end),
        None => Err(OutOfMemory),
    }
}

/// The arrays, the first one beginning at this column, and all their columns.
fn made_arrays(
    alloc: Global,
    first: u32,
    texts: Vec<ArrayText>,
) -> Result<(Vec<Array>, Vec<Column>), OutOfMemory>
    ensures arrays { IfOk result (λ r. map array_of r.0.items ≡ arrays_from first (map array_view texts.items)) }
    ensures columns { IfOk result (λ r. map column_view r.1.items ≡ concretes_of (map array_view texts.items)) }
{
    let mut arrays = Vec::with_capacity(alloc, texts.len())?;
    let mut concretes = Vec::new(alloc);
    let mut next = first;
    for text in texts {
        let ArrayText { name, mut columns } = text;
        let end = behind(next, columns.len())?;
        let numbers = column_numbers(alloc, next, end)?;
        next = end;
        arrays.push(Array {
            name,
            columns: numbers,
        })?;
        concretes.append(&mut columns)?;
    }
    Ok((arrays, concretes))
}

/// The operations with their bodies, and the points of all bodies.
fn made_code(
    alloc: Global,
    signatures: Vec<Signature>,
    bodies: Vec<BodyText<Point>>,
) -> Result<(Vec<Operation>, Vec<Point>), OutOfMemory>
    ensures operations { IfOk result (λ r. map operation_of r.0.items ≡ operations_from 0 (map signature_view signatures.items) (body_texts_view bodies)) }
    ensures points { IfOk result (λ r. map point_of r.1.items ≡ points_of (body_texts_view bodies)) }
{
    let mut operations = Vec::with_capacity(alloc, signatures.len())?;
    let mut points = Vec::new(alloc);
    let mut signatures = signatures.into_iter();
    for body in bodies {
        let (locals, mut own) = body.into_parts();
        let Ok(entry) = u32::try_from(points.len()) else {
            return Err(OutOfMemory);
        };
        points.append(&mut own)?;
        if let Some(signature) = signatures.next() {
            operations.push(Operation {
                name: signature.name,
                arguments: signature.arguments,
                replies: signature.replies,
                locals,
                entry: PointId(entry),
            })?;
        }
    }
    Ok((operations, points))
}

/// The parts of the object of a specification and of its own tables and bodies.
pub fn made_parts(
    alloc: Global,
    specification: SpecificationText,
    object: (Tables, Vec<BodyText<Point>>),
) -> Result<Parts, OutOfMemory>
    ensures { IfOk result (λ parts. parts_of parts ≡ O.object_of (specification_view specification) (object_parts object)) }
{
    let SpecificationText {
        abstracts,
        signatures,
    } = specification;
    let (tables, bodies) = object;
    let Tables {
        name,
        arrays,
        auxiliaries,
    } = tables;
    let first = behind(0, abstracts.len())?;
    let (arrays, concretes) = made_arrays(alloc, first, arrays)?;
    let (operations, points) = made_code(alloc, signatures, bodies)?;
    Ok(Parts {
        name,
        abstracts,
        concretes,
        auxiliaries,
        arrays,
        operations,
        points,
    })
}

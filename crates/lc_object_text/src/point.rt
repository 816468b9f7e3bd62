//! How a point is read, with what may be beside its instruction.
ghost use Rattle.std.specs.Prelude.{◌+◌, ℕ, List, map};
ghost use Rattle.lc_base.specs.Name.{bytes_of};
ghost use Rattle.lc_sexp.specs.Shown.{rest_of, number_of, owner_of};
ghost use Rattle.lc_object.specs.Syntax as S;
ghost use Rattle.lc_object.specs.View.{instruction_of, point_of};
ghost use Rattle.lc_reading.specs.Parts.{tree_of, place_of};
ghost use Rattle.lc_reading.specs.Readings.{Reading, both};
ghost use Rattle.lc_reading.specs.Results.{IsReading};
ghost use Rattle.lc_object_text.specs.DeclaredView.{declared_view, body_view};
ghost use Rattle.lc_object_text.specs.Points as P;
ghost use Rattle.lc_object_text.specs.Points.{IsShape, is_shaped, point_name_reading, point_parts, points_reading, sides_reading};

use crate::body_scope::InBody;
use crate::declaring::read_kth_name;
use crate::headed_lists::{Headed, read_headed};
use crate::instruction::read_instruction;
use crate::rows::{ReadsPlaced, read_placed};
use lc_base::{Name, OpId, POINT_LIMIT};
use lc_object::{Instr, Point};
use lc_reading::{Part, Pass, ReadFault, behind_word, both, limited, next_part, read_each, wrong};
use lc_sexp::Cursor;
use std::alloc::Global;

/// A way to read a point with what is beside its code.
pub trait ReadsBeside {
    ghost use Rattle.lc_sexp.specs.Shown.{rest_of, number_of, owner_of};
    ghost use Rattle.lc_object.specs.Syntax as S;
    ghost use Rattle.lc_object.specs.View.{point_of};
    ghost use Rattle.lc_reading.specs.Parts.{tree_of};
    ghost use Rattle.lc_reading.specs.Readings.{Reading};
    ghost use Rattle.lc_reading.specs.Results.{IsReading};
    ghost use Rattle.lc_object_text.specs.Points.{Beside};

    /// What a point is read into.
    type Value: Drop;

    /// What a value stands for.
    ghost Meaning: { Type 0 };

    ghost meaning: { Self.Value → Meaning };

    /// What a point reads as, by what its name and its instruction read as.
    ghost reading: { Self → Beside Meaning };

    /// The point of this name and instruction with the rest of its list after them. The instruction's item, and
    /// whether nothing is misshapen in it, determine which edges it has.
    fn read(
        &self,
        alloc: Global,
        code: Part<'_>,
        is_shaped: bool,
        point: Result<Point, ReadFault>,
        list: Cursor<'_>,
    ) -> Result<Self::Value, ReadFault>
        ensures { (r : Reading S.Point) → IsReading point_of r point →
            IsReading meaning (reading self.now (owner_of list.entry) (tree_of code.entry) is_shaped r (number_of list.entry) (rest_of list.entry)) result };
}

/// Whether nothing is misshapen in what was read.
fn is_shaped(read: &Result<Instr, ReadFault>) -> Result<bool, ReadFault>
    ensures { (r : Reading S.Instr) → IsReading instruction_of r read.now → IsShape r result }
{
    match read {
        Ok(_) => Ok(true),
        Err(ReadFault::Flawed(flaw)) => Ok(flaw.pass != Pass::Shape),
        Err(ReadFault::OutOfMemory) => Err(ReadFault::OutOfMemory),
    }
}

/// The point of this name and instruction.
fn made_point(
    operation: OpId,
    name: Result<Name, ReadFault>,
    instruction: Result<Instr, ReadFault>,
) -> Result<Point, ReadFault>
    ensures { (n : Reading (List ℕ)) (i : Reading S.Instr) → IsReading bytes_of n name → IsReading instruction_of i instruction → IsReading point_of (both (P.point_of operation.0) n i) result }
{
    match both(name, instruction) {
        Ok((name, instruction)) => Ok(Point {
            name,
            operation,
            instruction,
        }),
        Err(fault) => Err(fault),
    }
}

/// The points in the body of the operation of a number.
#[derive(Drop)]
pub struct Points<'a, 'b, 's, B> {
    pub scope: InBody<'a, 'b>,
    pub operation: OpId,
    pub beside: &'s B,
}

/// The name of a point, with `place` points of its body before it.
fn read_point_name(
    scope: InBody<'_, '_>,
    number: u64,
    place: u32,
    part: Part<'_>,
) -> Result<Name, ReadFault>
    ensures { IsReading bytes_of (point_name_reading (declared_view scope.entry.declared.now) (scope.entry.body.now.first + place) number (place_of part.entry) (tree_of part.entry)) result }
{
    let before = u64::from(scope.body.first) + u64::from(place);
    let name = read_kth_name(&scope.declared.points, before, part);
    limited(POINT_LIMIT as u64 <= before, number, name)
}

/// `NAME INSTR ..`
fn read_point_parts<B: ReadsBeside>(
    alloc: Global,
    reader: &Points<'_, '_, '_, B>,
    place: u32,
    list: Cursor<'_>,
) -> Result<B::Value, ReadFault>
    ensures { IsReading B.meaning (point_parts (declared_view reader.now.scope.declared.now) (body_view reader.now.scope.body.now) (B.reading reader.now.beside.now)
        reader.now.operation.0 place (owner_of list.entry) (number_of list.entry) (rest_of list.entry)) result }
{
    let mut rest = list;
    let name = next_part(&mut rest)?;
    let code = next_part(&mut rest)?;
    let name = read_point_name(reader.scope, list.owner(), place, name);
    let instruction = read_instruction(alloc, &reader.scope, code);
    let is_shaped = is_shaped(&instruction)?;
    let point = made_point(reader.operation, name, instruction);
    reader.beside.read(alloc, code, is_shaped, point, rest)
}

impl<B: ReadsBeside> ReadsPlaced for Points<'_, '_, '_, B> {
    ghost use Rattle.lc_object_text.specs.DeclaredView.{declared_view, body_view};
    ghost use Rattle.lc_object_text.specs.Points.{point_reading};

    type Value = B::Value;

    ghost Meaning = { B.Meaning };

    ghost meaning = { B.meaning };

    ghost reading = { λ reader. point_reading (declared_view reader.scope.declared.now) (body_view reader.scope.body.now) (B.reading reader.beside.now) reader.operation.0 };

    fn read(&self, alloc: Global, place: u32, part: Part<'_>) -> Result<B::Value, ReadFault> {
        let parts = behind_word(part, "point")?;
        read_point_parts(alloc, self, place, parts)
    }
}

/// The points that are left in a body, one at least.
pub(crate) fn read_points<B: ReadsBeside>(
    alloc: Global,
    reader: &Points<'_, '_, '_, B>,
    list: Cursor<'_>,
) -> Result<Vec<B::Value>, ReadFault>
    ensures { IsReading (λ points. map B.meaning points.items) (points_reading (declared_view reader.now.scope.declared.now) (body_view reader.now.scope.body.now)
        (B.reading reader.now.beside.now) reader.now.operation.0 (owner_of list.entry) (number_of list.entry) (rest_of list.entry)) result }
{
    if list.is_empty() {
        return Err(wrong(Pass::Shape, list.owner()));
    }
    read_placed(alloc, reader, list)
}

/// Only the first words are looked at of what is beside the code of a point: `(assert ..) (on ..) ..`.
#[derive(Clone, Copy)]
pub struct CodeAlone;

/// `(assert ..) (on ..) ..`
fn read_sides(alloc: Global, list: Cursor<'_>) -> Result<(), ReadFault>
    ensures { IsReading (λ u. u) (sides_reading (owner_of list.entry) (number_of list.entry) (rest_of list.entry)) result }
{
    let mut rest = list;
    let first = next_part(&mut rest)?;
    let asserts = read_headed(first, "assert");
    match both(asserts, read_each(alloc, &Headed("on"), rest)) {
        Ok(((), _)) => Ok(()),
        Err(fault) => Err(fault),
    }
}

impl ReadsBeside for CodeAlone {
    ghost use Rattle.lc_object.specs.Syntax as S;
    ghost use Rattle.lc_object.specs.View.{point_of};
    ghost use Rattle.lc_object_text.specs.Points.{code_alone};

    type Value = Point;

    ghost Meaning = { S.Point };

    ghost meaning = { point_of };

    ghost reading = { λ _. code_alone };

    fn read(
        &self,
        alloc: Global,
        _: Part<'_>,
        _: bool,
        point: Result<Point, ReadFault>,
        list: Cursor<'_>,
    ) -> Result<Point, ReadFault> {
        match both(point, read_sides(alloc, list)) {
            Ok((point, ())) => Ok(point),
            Err(fault) => Err(fault),
        }
    }
}

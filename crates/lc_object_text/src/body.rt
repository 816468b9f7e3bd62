//! How the body of an operation is read.
ghost use Rattle.std.specs.Prelude.{◌≡◌, map};
ghost use Rattle.lc_sexp.specs.Shown.{rest_of, number_of, owner_of};
ghost use Rattle.lc_object.specs.View.{names_of};
ghost use Rattle.lc_reading.specs.Parts.{tree_of, place_of};
ghost use Rattle.lc_reading.specs.Results.{IsReading};
ghost use Rattle.lc_reading.specs.TableView.{listed};
ghost use Rattle.lc_object_text.specs.DeclaredView.{declared_view, body_view};
ghost use Rattle.lc_object_text.specs.Objects.{bodies_reading};
ghost use Rattle.lc_object_text.specs.Points.{is_of_another, locals_reading, body_parts, body_reading};
ghost use Rattle.lc_object_text.specs.Texts.{body_text_view};

use crate::body_scope::InBody;
use crate::declared::{Body, Declared};
use crate::declared_names::bodies_due;
use crate::declaring::read_local_names;
use crate::point::{Points, ReadsBeside, read_points};
use crate::rows::{ReadsPlaced, read_placed};
use lc_base::{Name, OpId};
use lc_reading::{NameTable, Part, Pass, ReadFault, behind_word, both, next_part, read_use, wrong};
use lc_sexp::{Cursor, Item};
use std::alloc::Global;

/// The names of a body's locals, and its points.
pub struct BodyText<P> {
    pub locals: Vec<Name>,
    pub points: Vec<P>,
}

impl<P: Drop> Drop for BodyText<P> {
    fn drop(self) {
        let BodyText {
            locals: _,
            points: _,
        } = self;
    }
}

impl<P: Drop> BodyText<P> {
    ghost use Rattle.std.specs.Prelude.{◌≡◌};

    /// The locals, and the points.
    pub fn into_parts(self) -> (Vec<Name>, Vec<P>)
        ensures { result ≡ (self.locals, self.points) }
    {
        let BodyText { locals, points } = self;
        (locals, points)
    }
}

/// `OP (LOCAL ..)`
fn read_locals(
    alloc: Global,
    scope: InBody<'_, '_>,
    first: Part<'_>,
    second: Part<'_>,
) -> Result<Vec<Name>, ReadFault>
    ensures { IsReading (λ names. names_of names.items) (locals_reading (declared_view scope.entry.declared.now) (body_view scope.entry.body.now)
        (place_of first.entry) (tree_of first.entry) (place_of second.entry) (tree_of second.entry)) result }
{
    let operation = read_use(&scope.declared.operations, first);
    match both(operation, read_local_names(alloc, scope.body, second)) {
        Ok((_, locals)) => Ok(locals),
        Err(fault) => Err(fault),
    }
}

/// Whether an item names an operation other than the expected one.
fn is_of_another(names: &NameTable<'_>, due: &str, part: Part<'_>) -> bool
    ensures { result ≡ is_of_another (listed names.now) due.now (tree_of part.entry) }
{
    match part.item() {
        Item::Atom(atom) => names.contains(atom.text()) && atom.text() != due,
        Item::List(_) => false,
    }
}

/// `OP (LOCAL ..) POINT ..`
fn read_body_parts<B: ReadsBeside>(
    alloc: Global,
    reader: &Points<'_, '_, '_, B>,
    list: Cursor<'_>,
) -> Result<BodyText<B::Value>, ReadFault>
    ensures { IsReading (body_text_view B.meaning) (body_parts (declared_view reader.now.scope.declared.now) (body_view reader.now.scope.body.now) (B.reading reader.now.beside.now)
        reader.now.operation.0 (owner_of list.entry) (number_of list.entry) (rest_of list.entry)) result }
{
    let mut rest = list;
    let operation = next_part(&mut rest)?;
    let locals = next_part(&mut rest)?;
    let scope = reader.scope;
    if is_of_another(&scope.declared.operations, scope.body.operation, operation) {
        return Err(wrong(Pass::Shape, list.owner()));
    }
    let locals = read_locals(alloc, scope, operation, locals);
    match both(locals, read_points(alloc, reader, rest)) {
        Ok((locals, points)) => Ok(BodyText { locals, points }),
        Err(fault) => Err(fault),
    }
}

/// The body that an item reads as, given what it declares.
pub fn read_body<B: ReadsBeside>(
    alloc: Global,
    reader: &Points<'_, '_, '_, B>,
    part: Part<'_>,
) -> Result<BodyText<B::Value>, ReadFault>
    ensures { IsReading (body_text_view B.meaning) (body_reading (declared_view reader.now.scope.declared.now) (body_view reader.now.scope.body.now) (B.reading reader.now.beside.now)
        reader.now.operation.0 (place_of part.entry) (tree_of part.entry)) result }
{
    let parts = behind_word(part, "body")?;
    read_body_parts(alloc, reader, parts)
}

/// Reads the bodies of an object, each with its points and what is beside their code.
#[derive(Drop)]
pub struct Bodies<'a, 'b, 's, B> {
    pub declared: &'b Declared<'a>,
    pub beside: &'s B,
}

impl<B: ReadsBeside> ReadsPlaced for Bodies<'_, '_, '_, B> {
    ghost use Rattle.lc_object_text.specs.DeclaredView.{declared_view};
    ghost use Rattle.lc_object_text.specs.Objects.{ith_body_reading};
    ghost use Rattle.lc_object_text.specs.Points as P;
    ghost use Rattle.lc_object_text.specs.Texts.{body_text_view};

    type Value = BodyText<B::Value>;

    ghost Meaning = { P.BodyText B.Meaning };

    ghost meaning = { body_text_view B.meaning };

    ghost reading = { λ reader. ith_body_reading (declared_view reader.declared.now) (B.reading reader.beside.now) };

    fn read(
        &self,
        alloc: Global,
        place: u32,
        part: Part<'_>,
    ) -> Result<BodyText<B::Value>, ReadFault> {
        let Some(body) = self.declared.bodies.get(place as usize) else {
            return Err(wrong(Pass::Shape, part.number()));
        };
        let reader = Points {
            scope: InBody {
                declared: self.declared,
                body,
            },
            operation: OpId(place),
            beside: self.beside,
        };
        read_body(alloc, &reader, part)
    }
}

/// The bodies that are left in an object, one for each operation.
pub fn read_bodies<B: ReadsBeside>(
    alloc: Global,
    reader: &Bodies<'_, '_, '_, B>,
    object: u64,
    list: Cursor<'_>,
) -> Result<Vec<BodyText<B::Value>>, ReadFault>
    ensures { IsReading (λ bodies. map (body_text_view B.meaning) bodies.items) (bodies_reading (declared_view reader.now.declared.now) (B.reading reader.now.beside.now)
        object (number_of list.entry) (rest_of list.entry)) result }
{
    if list.len() < bodies_due(reader.declared.operations.len()) {
        return Err(wrong(Pass::Shape, object));
    }
    read_placed(alloc, reader, list)
}

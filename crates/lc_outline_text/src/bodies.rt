//! How the bodies of an object are read, with what is beside their code.
ghost use Rattle.std.specs.Prelude.{◌≡◌, map, option_map, slice_get};
ghost use Rattle.lc_object_text.specs.DeclaredView.{body_view};
ghost use Rattle.lc_sexp.specs.Shown.{rest_of, number_of};
ghost use Rattle.lc_reading.specs.Parts.{tree_of, place_of};
ghost use Rattle.lc_reading.specs.Results.{IsReading};
ghost use Rattle.lc_outline_text.specs.Bodies.{ith_reading, bodies_reading};
ghost use Rattle.lc_outline_text.specs.DeclarationsView.{declarations_view};
ghost use Rattle.lc_outline_text.specs.Views.{body_outlined};

use crate::declarations::Declarations;
use crate::point::Outlines;
use lc_base::OpId;
use lc_object::Point;
use lc_object_text::{
    Body, BodyText, InBody, Points, ReadsPlaced, bodies_due, read_body, read_placed,
};
use lc_outline::Outline;
use lc_reading::{Part, Pass, ReadFault, wrong};
use lc_rider_text::{Beside, Variables};
use lc_sexp::Cursor;
use std::alloc::Global;

/// Reads the bodies of an object, each with its points and their outlines.
#[derive(Clone, Copy)]
pub(crate) struct Bodies<'a, 'b>(pub(crate) &'b Declarations<'a>);

/// What the body at this place declares, if one is expected there.
fn due_body<'a, 'b>(declarations: &'b Declarations<'a>, place: u32) -> Option<&'b Body<'a>>
    ensures { option_map (λ body. body_view body.now) result ≡ slice_get (declarations_view declarations.now).declared.bodies place }
{
    declarations.declared.bodies.get(place as usize)
}

/// The body of the operation of this number.
fn read_ith(
    alloc: Global,
    declarations: &Declarations<'_>,
    place: u32,
    part: Part<'_>,
) -> Result<BodyText<(Point, Outline)>, ReadFault>
    ensures { IsReading body_outlined (ith_reading (declarations_view declarations.now) place (place_of part.entry) (tree_of part.entry)) result }
{
    let Some(body) = due_body(declarations, place) else {
        return Err(wrong(Pass::Shape, part.number()));
    };
    let known = declarations.known()?;
    let outlines = Outlines {
        known,
        scope: Beside {
            columns: known.columns,
            variables: Variables::of_body(&*body.argument_names, &body.locals)?,
        },
        own: declarations.own_ways(place),
    };
    let reader = Points {
        scope: InBody {
            declared: &declarations.declared,
            body,
        },
        operation: OpId(place),
        beside: &outlines,
    };
    read_body(alloc, &reader, part)
}

impl ReadsPlaced for Bodies<'_, '_> {
    ghost use Rattle.lc_object.specs.Syntax as O;
    ghost use Rattle.lc_outline.specs.Development as D;
    ghost use Rattle.lc_object_text.specs.Points as P;
    ghost use Rattle.lc_outline_text.specs.Bodies.{ith_reading};
    ghost use Rattle.lc_outline_text.specs.DeclarationsView.{declarations_view};
    ghost use Rattle.lc_outline_text.specs.Views.{body_outlined};

    type Value = BodyText<(Point, Outline)>;

    ghost Meaning = { P.BodyText (O.Point × D.Outline) };

    ghost meaning = { body_outlined };

    ghost reading = { λ reader. ith_reading (declarations_view reader.0.now) };

    fn read(
        &self,
        alloc: Global,
        place: u32,
        part: Part<'_>,
    ) -> Result<BodyText<(Point, Outline)>, ReadFault> {
        read_ith(alloc, self.0, place, part)
    }
}

/// The bodies that are left in the object of this number, one for each operation.
pub(crate) fn read_bodies(
    alloc: Global,
    declarations: &Declarations<'_>,
    object: u64,
    list: Cursor<'_>,
) -> Result<Vec<BodyText<(Point, Outline)>>, ReadFault>
    ensures { IsReading (λ bodies. map body_outlined bodies.items) (bodies_reading (declarations_view declarations.now) object (number_of list.entry) (rest_of list.entry)) result }
{
    if list.len() < bodies_due(declarations.declared.operations.len()) {
        return Err(wrong(Pass::Shape, object));
    }
    read_placed(alloc, &Bodies(declarations), list)
}

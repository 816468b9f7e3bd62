//! How a point is read with its assertions and its edges.
ghost use Rattle.lc_sexp.specs.Shown.{rest_of, number_of};
ghost use Rattle.lc_object.specs.Syntax as O;
ghost use Rattle.lc_object.specs.View.{point_of};
ghost use Rattle.lc_outline.specs.PartsView.{outline_of};
ghost use Rattle.lc_reading.specs.Parts.{tree_of, place_of};
ghost use Rattle.lc_reading.specs.Readings.{Reading, both};
ghost use Rattle.lc_reading.specs.Results.{IsReading};
ghost use Rattle.lc_rider_text.specs.KnownView.{known_view, names_beside, ways_there};
ghost use Rattle.lc_text.specs.Terms.{pair};
ghost use Rattle.lc_outline_text.specs.Needs.{edges_of};
ghost use Rattle.lc_outline_text.specs.Points.{outline_reading};
ghost use Rattle.lc_outline_text.specs.Views.{outlined_of};

use crate::formulas::read_formulas_in;
use crate::needs::{code_word, edges_of, lacks_on};
use lc_object::Point;
use lc_object_text::ReadsBeside;
use lc_outline::Outline;
use lc_reading::{Part, Pass, ReadFault, both, next_part, wrong};
use lc_rider_text::{Beside, Edges, Known, Ways, read_ons};
use lc_sexp::Cursor;
use std::alloc::Global;

/// Reads what is beside the code of the points of a body.
#[derive(Clone, Copy)]
pub(crate) struct Outlines<'a, 'b> {
    pub(crate) known: Known<'a, 'b>,
    pub(crate) scope: Beside<'a, 'b>,
    /// How the body's operation goes, if it is known.
    pub(crate) own: Option<&'b Ways<'a>>,
}

/// `(assert F ..) ON ..`, at a point with these edges.
fn read_outline(
    alloc: Global,
    reader: &Outlines<'_, '_>,
    edges: Edges,
    asserts: Part<'_>,
    ons: Cursor<'_>,
) -> Result<Outline, ReadFault>
    ensures { IsReading outline_of (outline_reading (known_view reader.now.known) (names_beside reader.now.scope) (ways_there reader.now.own) edges (place_of asserts.entry) (tree_of asserts.entry) (number_of ons.entry) (rest_of ons.entry)) result }
{
    let asserts = read_formulas_in(alloc, &reader.scope, "assert", asserts);
    let ons = read_ons(alloc, reader.known, &reader.scope, reader.own, edges, ons);
    match both(asserts, ons) {
        Ok((asserts, ons)) => Ok(Outline { asserts, ons }),
        Err(fault) => Err(fault),
    }
}

/// A point with `(assert F ..) ON ..`, which come after its instruction of this word.
fn read_outlined(
    alloc: Global,
    reader: &Outlines<'_, '_>,
    word: &str,
    point: Result<Point, ReadFault>,
    asserts: Part<'_>,
    ons: Cursor<'_>,
) -> Result<(Point, Outline), ReadFault>
    ensures { (r : Reading O.Point) → IsReading point_of r point → IsReading outlined_of
        (both pair r (outline_reading (known_view reader.now.known) (names_beside reader.now.scope) (ways_there reader.now.own) (edges_of word.now) (place_of asserts.entry) (tree_of asserts.entry) (number_of ons.entry) (rest_of ons.entry))) result }
{
    let outline = read_outline(alloc, reader, edges_of(word), asserts, ons);
    both(point, outline)
}

impl Outlines<'_, '_> {
    ghost use Rattle.std.specs.Prelude.{◌≡◌, ◌&&◌, codes};
    ghost use Rattle.lc_sexp.specs.Shown.{rest_of};
    ghost use Rattle.lc_object_text.specs.Sections.{forms_in};
    ghost use Rattle.lc_rider_text.specs.KnownView.{known_view};
    ghost use Rattle.lc_outline_text.specs.Needs.{lacks_on};

    /// Whether an edge of an instruction with this word, in which nothing is misshapen, lacks an `on` among the lists
    /// that come next.
    fn lacks_on(&self, is_shaped: bool, word: &str, list: Cursor<'_>) -> bool
        ensures { result ≡ (is_shaped && lacks_on (known_view self.now.known).actions word.now (forms_in (codes "on") (rest_of list.entry))) }
    {
        is_shaped && lacks_on(self.known.actions, word, list)
    }
}

impl ReadsBeside for Outlines<'_, '_> {
    ghost use Rattle.lc_object.specs.Syntax as O;
    ghost use Rattle.lc_outline.specs.Development as D;
    ghost use Rattle.lc_rider_text.specs.KnownView.{known_view, names_beside, ways_there};
    ghost use Rattle.lc_outline_text.specs.Points.{beside};
    ghost use Rattle.lc_outline_text.specs.Views.{outlined_of};

    type Value = (Point, Outline);

    ghost Meaning = { O.Point × D.Outline };

    ghost meaning = { outlined_of };

    ghost reading = { λ reader. beside (known_view reader.known) (names_beside reader.scope) (ways_there reader.own) };

    fn read(
        &self,
        alloc: Global,
        code: Part<'_>,
        is_shaped: bool,
        point: Result<Point, ReadFault>,
        list: Cursor<'_>,
    ) -> Result<(Point, Outline), ReadFault> {
        let mut rest = list;
        let asserts = next_part(&mut rest)?;
        let word = code_word(code);
        if self.lacks_on(is_shaped, word, rest) {
            return Err(wrong(Pass::Shape, list.owner()));
        }
        read_outlined(alloc, self, word, point, asserts, rest)
    }
}

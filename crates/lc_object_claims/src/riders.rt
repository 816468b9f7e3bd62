//! What is beside the code of an object: actions, riders, and what is done at edges.
ghost use Rattle.std.specs.Prelude.{◌≡◌, map, min};
ghost use Rattle.lc_action.specs.ActionView.{action_of};
ghost use Rattle.lc_outline.specs.PartsView.{on_of};
ghost use Rattle.lc_reading.specs.Parts.{tree_of, place_of};
ghost use Rattle.lc_reading.specs.Results.{IsReading};
ghost use Rattle.lc_rider.specs.RiderView.{rider_of};
ghost use Rattle.lc_rider_text.specs.Actions.{action_reading};
ghost use Rattle.lc_rider_text.specs.KnownView.{known_view, names_beside, ways_there};
ghost use Rattle.lc_rider_text.specs.Ons.{on_reading, ons_reading, path_cap};
ghost use Rattle.lc_rider_text.specs.Paths.{path_count};
ghost use Rattle.lc_rider_text.specs.Riders.{rider_reading};
ghost use Rattle.lc_sexp.specs.Shown.{rest_of, number_of};

use lc_action::Action;
use lc_object_text::ReadsPlaced;
use lc_outline::On;
use lc_reading::{Part, ReadFault};
use lc_rider::Rider;
use lc_rider_text::{
    Actions, Beside, Edges, Known, Ways, path_count, read_on, read_ons, read_rider,
};
use lc_sexp::Cursor;
use lc_text::Scope;
use std::alloc::Global;

/// An action reads as is defined.
pub fn reading_an_action(
    alloc: Global,
    known: Known<'_, '_>,
    place: u32,
    part: Part<'_>,
) -> Result<Action, ReadFault>
    ensures { IsReading action_of (action_reading (known_view known.entry) place (place_of part.entry) (tree_of part.entry)) result }
{
    Actions(known).read(alloc, place, part)
}

/// A rider reads as is defined.
pub fn reading_a_rider<S: Scope>(
    alloc: Global,
    known: Known<'_, '_>,
    scope: &S,
    own: Option<&Ways<'_>>,
    part: Part<'_>,
) -> Result<Rider, ReadFault>
    ensures { IsReading rider_of (rider_reading (known_view known.entry) (S.names scope.now) (ways_there own.entry) (place_of part.entry) (tree_of part.entry)) result }
{
    read_rider(alloc, known, scope, own, part)
}

/// What is done at an edge reads as is defined.
pub fn reading_an_edge<'a, 'b, S: Scope>(
    alloc: Global,
    known: Known<'a, 'b>,
    scope: &S,
    own: Option<&'b Ways<'a>>,
    edges: Edges,
    part: Part<'_>,
) -> Result<On, ReadFault>
    ensures { IsReading on_of (on_reading (known_view known.entry) (S.names scope.now) (ways_there own.entry) edges (place_of part.entry) (tree_of part.entry)) result }
{
    read_on(alloc, known, scope, own, edges, part)
}

/// What is done at the edges of an instruction reads as is defined.
pub fn reading_edges<'a, 'b, S: Scope>(
    alloc: Global,
    known: Known<'a, 'b>,
    scope: &S,
    own: Option<&'b Ways<'a>>,
    edges: Edges,
    list: Cursor<'_>,
) -> Result<Vec<On>, ReadFault>
    ensures { IsReading (λ ons. map on_of ons.items) (ons_reading (known_view known.entry) (S.names scope.now) (ways_there own.entry) edges (number_of list.entry) (rest_of list.entry)) result }
{
    read_ons(alloc, known, scope, own, edges, list)
}

/// Paths are counted up to the first count that is beyond their limit.
pub fn counting_paths(known: Known<'_, '_>, own: Option<&Ways<'_>>, list: Cursor<'_>) -> u64
    ensures { result ≡ min path_cap (path_count (known_view known.entry) (ways_there own.entry) (rest_of list.entry)) }
{
    path_count(known, own, list)
}

/// A variable beside the code is the number of clients, the client, or of what its names list, in their order.
pub fn finding_a_variable(beside: &Beside<'_, '_>, name: &str) -> Option<u32>
    ensures { result ≡ (names_beside beside.now).variable name.now }
{
    beside.variable(name)
}

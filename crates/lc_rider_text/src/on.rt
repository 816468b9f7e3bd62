//! How an `on` is read: its edge, the call of its action, its riders.
ghost use Rattle.std.specs.Prelude.{◌≡◌, ℕ, List, map, nat_lt};
ghost use Rattle.lc_object.specs.declared.instr.EdgeKind.{EdgeKind as Kind};
ghost use Rattle.lc_sexp.specs.Shown.{rest_of, number_of, owner_of};
ghost use Rattle.lc_outline.specs.PartsView.{on_of};
ghost use Rattle.lc_reading.specs.Parts.{tree_of, place_of};
ghost use Rattle.lc_reading.specs.Readings.{Reading, both};
ghost use Rattle.lc_reading.specs.Reserved.{is_action_name};
ghost use Rattle.lc_reading.specs.Results.{IsReading};
ghost use Rattle.lc_rider.specs.Rider as R;
ghost use Rattle.lc_rider.specs.RiderView.{riders_of};
ghost use Rattle.lc_term.specs.Syntax as T;
ghost use Rattle.lc_rider_text.specs.Known as K;
ghost use Rattle.lc_rider_text.specs.KnownView.{known_view, ways_there};
ghost use Rattle.lc_rider_text.specs.Ons.{action_use, arguments_due, call_parts_reading, call_reading, step_reading, the_on, on_parts_reading, on_reading, ons_reading};
ghost use Rattle.lc_rider_text.specs.Paths.{path_count};
ghost use Rattle.lc_rider_text.specs.Seen.{terms_of, call_parts, step_parts};

use crate::edge_words::{edge_in, edge_of, read_edge};
use crate::edges::Edges;
use crate::known::{Known, Ways};
use crate::numbers::number_at;
use crate::paths::path_count;
use crate::rider::read_riders;
use crate::terms::read_arguments;
use lc_base::PATH_LIMIT;
use lc_object::EdgeKind;
use lc_outline::{ActionId, On};
use lc_reading::{
    Part, Pass, ReadFault, behind_word, both, limited, next_part, pushed, read_use, wrong,
};
use lc_rider::Rider;
use lc_sexp::{Cursor, Item};
use lc_term::Term;
use lc_text::Scope;
use std::alloc::Global;

/// Whether an action of this name is built in.
#[tactic(auto, unfolding(lc_reading::specs::Reserved::is_action_name))]
fn is_built_in(name: &str) -> bool
    ensures { result ≡ is_action_name name.now }
{
    matches!(name, "skip" | "enter" | "leave")
}

/// The declared action that an item names.
fn read_action_use(known: Known<'_, '_>, part: Part<'_>) -> Result<ActionId, ReadFault>
    ensures { IsReading (λ action. action.0) (action_use (known_view known.entry) (place_of part.entry) (tree_of part.entry)) result }
{
    match part.item() {
        Item::Atom(atom) if is_built_in(atom.text()) => Err(wrong(Pass::Shape, atom.number())),
        Item::Atom(_) => Ok(ActionId(number_at(read_use(known.actions, part)?)?)),
        Item::List(list) => Err(wrong(Pass::Shape, list.owner())),
    }
}

/// How many terms the call of an action has, if an item names one.
fn arguments_due(known: Known<'_, '_>, part: Part<'_>) -> Option<u64>
    ensures { result ≡ arguments_due (known_view known.entry) (tree_of part.entry) }
{
    let atom = match part.item() {
        Item::Atom(atom) => atom,
        Item::List(_) => return None,
    };
    if is_built_in(atom.text()) {
        return None;
    }
    let place = known.actions.place(atom.text())?;
    known.parameters.get(place).copied()
}

/// `ACTION T*`
fn read_call_parts<S: Scope>(
    alloc: Global,
    known: Known<'_, '_>,
    scope: &S,
    list: Cursor<'_>,
) -> Result<(ActionId, Vec<Term>), ReadFault>
    ensures { IsReading call_parts (call_parts_reading (known_view known.entry) (S.names scope.now) (owner_of list.entry) (number_of list.entry) (rest_of list.entry)) result }
{
    let mut rest = list;
    let action = next_part(&mut rest)?;
    let due = arguments_due(known, action);
    both(
        read_action_use(known, action),
        read_arguments(alloc, scope, due, rest),
    )
}

/// `(ACTION T*)`
fn read_call<S: Scope>(
    alloc: Global,
    known: Known<'_, '_>,
    scope: &S,
    part: Part<'_>,
) -> Result<(ActionId, Vec<Term>), ReadFault>
    ensures { IsReading call_parts (call_reading (known_view known.entry) (S.names scope.now) (place_of part.entry) (tree_of part.entry)) result }
{
    match part.item() {
        Item::Atom(atom) => Err(wrong(Pass::Shape, atom.number())),
        Item::List(list) => read_call_parts(alloc, known, scope, list),
    }
}

/// What an `on` is read into before it is made: its edge, and the call of an action.
type Step = (EdgeKind, (ActionId, Vec<Term>));

/// `EDGE (ACTION T*)`
fn read_step<S: Scope>(
    alloc: Global,
    known: Known<'_, '_>,
    scope: &S,
    edge: Part<'_>,
    call: Part<'_>,
) -> Result<Step, ReadFault>
    ensures { IsReading step_parts (step_reading (known_view known.entry) (S.names scope.now) (place_of edge.entry) (tree_of edge.entry) (place_of call.entry) (tree_of call.entry)) result }
{
    both(read_edge(edge), read_call(alloc, known, scope, call))
}

/// What is done at an edge.
fn made_on(
    step: Result<Step, ReadFault>,
    riders: Result<Vec<Rider>, ReadFault>,
) -> Result<On, ReadFault>
    ensures { (s : Reading (Kind × (ℕ × List T.Term))) (r : Reading (List R.Rider)) → IsReading step_parts s step → IsReading (λ riders. riders_of riders.items) r riders →
        IsReading on_of (both the_on s r) result }
{
    match both(step, riders) {
        Ok(((edge, (action, arguments)), riders)) => Ok(On {
            edge,
            action,
            arguments,
            riders,
        }),
        Err(fault) => Err(fault),
    }
}

/// `EDGE (ACTION T*) RIDER*`
fn read_on_parts<'a, 'b, S: Scope>(
    alloc: Global,
    known: Known<'a, 'b>,
    scope: &S,
    own: Option<&'b Ways<'a>>,
    edges: Edges,
    list: Cursor<'_>,
) -> Result<On, ReadFault>
    ensures { IsReading on_of (on_parts_reading (known_view known.entry) (S.names scope.now) (ways_there own.entry) edges (owner_of list.entry) (number_of list.entry) (rest_of list.entry)) result }
{
    let mut rest = list;
    let edge = next_part(&mut rest)?;
    let call = next_part(&mut rest)?;
    if edges.is_refused(edge_of(edge)) {
        return Err(wrong(Pass::Shape, list.owner()));
    }
    let step = read_step(alloc, known, scope, edge, call);
    let riders = read_riders(alloc, known, scope, own, rest);
    let on = made_on(step, riders);
    limited(path_count(known, own, rest) > PATH_LIMIT, list.owner(), on)
}

/// What is done at an edge, `(on EDGE (ACTION T*) RIDER*)`: at one of these edges, in the body of an operation that goes
/// so, if it is known.
pub fn read_on<'a, 'b, S: Scope>(
    alloc: Global,
    known: Known<'a, 'b>,
    scope: &S,
    own: Option<&'b Ways<'a>>,
    edges: Edges,
    part: Part<'_>,
) -> Result<On, ReadFault>
    ensures { IsReading on_of (on_reading (known_view known.entry) (S.names scope.now) (ways_there own.entry) edges (place_of part.entry) (tree_of part.entry)) result }
{
    let list = behind_word(part, "on")?;
    read_on_parts(alloc, known, scope, own, edges, list)
}

/// What is done at the edges of an instruction, by the items that are left in a list: each at one of these edges, and at one
/// that those before it do not name.
pub fn read_ons<'a, 'b, S: Scope>(
    alloc: Global,
    known: Known<'a, 'b>,
    scope: &S,
    own: Option<&'b Ways<'a>>,
    edges: Edges,
    list: Cursor<'_>,
) -> Result<Vec<On>, ReadFault>
    ensures { IsReading (λ ons. map on_of ons.items) (ons_reading (known_view known.entry) (S.names scope.now) (ways_there own.entry) edges (number_of list.entry) (rest_of list.entry)) result }
{
    let mut rest = list;
    let mut left = edges;
    let mut ons = Ok(Vec::with_capacity(alloc, list.len())?);
    'ons: loop {
        let Ok(part) = next_part(&mut rest) else {
            return ons;
        };
        let on = read_on(alloc, known, scope, own, left, part);
        ons = pushed(ons, on);
        left = left.without(edge_in(part));
    }
}

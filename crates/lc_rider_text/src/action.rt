//! How an action is read.
ghost use Rattle.std.specs.Prelude.{ℕ, List};
ghost use Rattle.lc_sexp.specs.Shown.{rest_of, number_of, owner_of};
ghost use Rattle.lc_action.specs.ActionView.{action_of};
ghost use Rattle.lc_reading.specs.Parts.{tree_of, place_of};
ghost use Rattle.lc_reading.specs.Readings.{Reading, mapped, both, behind_reading};
ghost use Rattle.lc_reading.specs.Results.{IsReading};
ghost use Rattle.lc_term.specs.Syntax as T;
ghost use Rattle.lc_term.specs.Updates as U;
ghost use Rattle.lc_text.specs.Terms.{pair};
ghost use Rattle.lc_object_text.specs.Declaring.{kth_name_reading};
ghost use Rattle.lc_rider_text.specs.Actions.{effect_reading, action_parts_reading, the_action, headed_action_reading};
ghost use Rattle.lc_rider_text.specs.KnownView.{known_view};
ghost use Rattle.lc_rider_text.specs.Seen.{names_of, heading_view, effect_view, action_parts};

use crate::known::Known;
use crate::parameters::read_parameters;
use crate::scope::Beside;
use crate::update::Updates;
use crate::variables::Variables;
use lc_action::Action;
use lc_base::{ACTION_LIMIT, Name};
use lc_object_text::{ReadsPlaced, read_kth_name};
use lc_reading::{NameTable, Part, ReadFault, behind_word, both, limited, next_part, read_each};
use lc_sexp::Cursor;
use lc_term::{Formula, Update};
use lc_text::{Scope, read_formula};
use std::alloc::Global;

/// What an action is read into before it is made: its name with those of its parameters, and its guard with its updates.
type ActionParts = ((Name, Vec<Name>), (Formula, Vec<Update>));

/// The name of the action of this place, with its parameters.
fn read_heading(
    known: Known<'_, '_>,
    place: u32,
    name: Part<'_>,
    parameters: Result<Vec<Name>, ReadFault>,
) -> Result<(Name, Vec<Name>), ReadFault>
    ensures { (r : Reading (List (List ℕ))) → IsReading names_of r parameters →
        IsReading heading_view (both pair (kth_name_reading (known_view known.entry).actions place (place_of name.entry) (tree_of name.entry)) r) result }
{
    both(
        read_kth_name(known.actions, u64::from(place), name),
        parameters,
    )
}

/// `F UPDATE*`
fn read_effect<S: Scope>(
    alloc: Global,
    known: Known<'_, '_>,
    scope: &S,
    guard: Part<'_>,
    updates: Cursor<'_>,
) -> Result<(Formula, Vec<Update>), ReadFault>
    ensures { IsReading effect_view (effect_reading (known_view known.entry) (S.names scope.now) (place_of guard.entry) (tree_of guard.entry) (number_of updates.entry) (rest_of updates.entry)) result }
{
    let guard = read_formula(alloc, scope, guard);
    let known = known.expecting(updates);
    both(guard, read_each(alloc, &Updates { known, scope }, updates))
}

/// `NAME (PARAM*) F UPDATE*`, of the action of this place.
fn read_action_parts(
    alloc: Global,
    known: Known<'_, '_>,
    place: u32,
    list: Cursor<'_>,
) -> Result<ActionParts, ReadFault>
    ensures { IsReading action_parts (action_parts_reading (known_view known.entry) place (owner_of list.entry) (number_of list.entry) (rest_of list.entry)) result }
{
    let mut rest = list;
    let name = next_part(&mut rest)?;
    let parameters = next_part(&mut rest)?;
    let guard = next_part(&mut rest)?;
    let (others, parameters) = read_parameters(alloc, parameters)?;
    let scope = Beside {
        columns: known.columns,
        variables: Variables::of_client(&others)?,
    };
    let heading = read_heading(known, place, name, parameters);
    both(heading, read_effect(alloc, known, &scope, guard, rest))
}

/// The action of these parts.
fn made_action(parts: Result<ActionParts, ReadFault>) -> Result<Action, ReadFault>
    ensures { (r : Reading ((List ℕ × List (List ℕ)) × (T.Formula × List U.Update))) → IsReading action_parts r parts → IsReading action_of (mapped the_action r) result }
{
    let ((name, params), (guard, updates)) = parts?;
    Ok(Action {
        name,
        params,
        guard,
        updates,
    })
}

/// `(action NAME (PARAM*) F UPDATE*)`, of this place.
fn read_action(
    alloc: Global,
    known: Known<'_, '_>,
    place: u32,
    part: Part<'_>,
) -> Result<Action, ReadFault>
    ensures { IsReading action_of (headed_action_reading (known_view known.entry) place (place_of part.entry) (tree_of part.entry)) result }
{
    let list = behind_word(part, "action")?;
    made_action(read_action_parts(alloc, known, place, list))
}

/// Reads the actions of an object.
#[derive(Clone, Copy)]
pub struct Actions<'a, 'b>(pub Known<'a, 'b>);

impl ReadsPlaced for Actions<'_, '_> {
    ghost use Rattle.lc_action.specs.Action.{Action};
    ghost use Rattle.lc_action.specs.ActionView.{action_of};
    ghost use Rattle.lc_rider_text.specs.Actions.{action_reading};
    ghost use Rattle.lc_rider_text.specs.KnownView.{known_view};

    type Value = Action;

    ghost Meaning = { Action };

    ghost meaning = { action_of };

    ghost reading = { λ reader. action_reading (known_view reader.0) };

    fn read(&self, alloc: Global, place: u32, part: Part<'_>) -> Result<Action, ReadFault> {
        let action = read_action(alloc, self.0, place, part);
        limited(ACTION_LIMIT <= u64::from(place), part.number(), action)
    }
}

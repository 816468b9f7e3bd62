//! Where a client is, and what becomes of it by a step.
ghost use Rattle.std.specs.Prelude.{◌≡◌, ◌≤◌, length, true};
ghost use Rattle.lc_term.specs.State.{state_of, column_count};
ghost use Rattle.lc_object.specs.Objects.{object_view};
ghost use Rattle.lc_machine.specs.World.{initial_numbers};
ghost use Rattle.lc_machine.specs.Placed.{is_placed};
ghost use Rattle.lc_machine.specs.View.{client_of};
ghost use Rattle.lc_machine.specs.Moved.{IsStepped};

use crate::effects::{Fate, Place, commit};
use crate::fault::StepFault;
use crate::instruction::effect;
use lc_base::PointId;
use lc_object::{EdgeKind, Object};
use lc_term::State;
use std::alloc::Global;

/// Where a client is.
#[derive(Drop)]
pub enum Client {
    /// In no call.
    Idle,
    /// In a call.
    In(Place),
}

/// What became of a client that took a step of its call.
#[derive(Drop)]
pub enum Moved {
    /// It went by this edge, and is at this point.
    Went { point: PointId, edge: EdgeKind },
    /// Its call returned these numbers.
    Returned(Vec<i64>),
}

// One step of a client's call.
pub(crate) fn step(
    alloc: Global,
    object: &Object,
    state: &mut State,
    client: &mut Client,
) -> Result<Moved, StepFault>
    requires placed { is_placed (object_view object.now) (client_of client.old) ≡ true }
    requires columns { length (initial_numbers (object_view object.now)) ≤ column_count state.old }
    ensures stepped { IsStepped (object_view object.now) (state_of state.old) (client_of client.old) (state_of state.new) (client_of client.new) result }
    ensures placed { is_placed (object_view object.now) (client_of client.new) ≡ true }
    ensures columns { column_count state.new ≡ column_count state.old }
{
    let Client::In(place) = client else {
        return Err(StepFault::Idle);
    };
    let effect = effect(alloc, object, state, place)?;
    let edge = effect.edge;
    match commit(alloc, state, effect)? {
        Fate::Goes(place) => {
            let point = place.point;
            *client = Client::In(place);
            Ok(Moved::Went { point, edge })
        }
        Fate::Answers(reply) => {
            *client = Client::Idle;
            Ok(Moved::Returned(reply))
        }
    }
}

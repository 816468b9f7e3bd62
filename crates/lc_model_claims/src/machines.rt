//! The bare machine of an object: its steps, and what an instruction does before it is done.
ghost use Rattle.std.specs.Prelude.{◌≡◌, ◌≤◌, ◌<◌, Some, length, slice_get, FitsSigned, IfOk, OkIff, OnErr, OnOk};
ghost use Rattle.std.specs.Int.{w64};
ghost use Rattle.lc_machine.specs.Answered.{IsAdvanced, IsInvoked};
ghost use Rattle.lc_machine.specs.Effects.{writes_in, outcome_of, IsEffect};
ghost use Rattle.lc_machine.specs.Machine.{object_in, world_of};
ghost use Rattle.lc_machine.specs.MayRun.{variables_at};
ghost use Rattle.lc_machine.specs.View.{variables_of};
ghost use Rattle.lc_machine.specs.World.{initial_numbers, initial_world};
ghost use Rattle.lc_object.specs.Objects.{object_view};
ghost use Rattle.lc_object.specs.Syntax as S;
ghost use Rattle.lc_term.specs.State.{state_of, column_count, variable_count};
ghost use Rattle.lc_term.specs.Updates.{stored_all, AreWithin};

use lc_base::{ColId, OpId, OutOfMemory};
use lc_machine::{Bare, Effect, Fate, Moved, Place, StepFault, commit, effect};
use lc_object::Object;
use lc_term::{EvalFault, State};
use std::alloc::Global;

/// A machine begins in the initial world.
pub fn starting<'a>(
    alloc: Global,
    object: &'a Object,
    clients: u32,
) -> Result<Bare<'a>, OutOfMemory>
    ensures object { IfOk result (λ bare. object_in bare ≡ object_view object.entry.now) }
    ensures world { IfOk result (λ bare. world_of bare ≡ initial_world (object_view object.entry.now) clients) }
{
    Bare::new(alloc, object, clients)
}

/// A client begins a call, or the fault is reported.
pub fn invoking(
    bare: &mut Bare<'_>,
    client: u32,
    op: OpId,
    numbers: &[i64],
) -> Result<(), StepFault>
    ensures invoked { IsInvoked (object_in bare.old) (world_of bare.old) client op.0 numbers.now (world_of bare.new) result }
    ensures object { object_in bare.new ≡ object_in bare.old }
{
    bare.invoke(client, op, numbers)
}

/// A client takes the step of its instruction, or the fault is reported.
pub fn advancing(bare: &mut Bare<'_>, client: u32) -> Result<Moved, StepFault>
    ensures advanced { IsAdvanced (object_in bare.old) (world_of bare.old) client (world_of bare.new) result }
    ensures object { object_in bare.new ≡ object_in bare.old }
{
    bare.advance(client)
}

/// A cell of the machine is read.
pub fn reading_a_cell(bare: &Bare<'_>, column: ColId, index: i64) -> Result<i64, EvalFault>
    requires { column.0 < length (initial_numbers (object_in bare.now)) }
    ensures { let number = (world_of bare.now).columns column.0 index in OkIff result (FitsSigned w64 number) number }
{
    bare.cell(column, index)
}

/// What an instruction does is reported before it is done.
pub fn foreseeing(
    alloc: Global,
    object: &Object,
    state: &State,
    place: &Place,
) -> Result<Effect, StepFault>
    requires place { variables_at (object_view object.now) place.now.point.0 ≡ Some (variable_count place.now.variables) }
    requires columns { length (initial_numbers (object_view object.now)) ≤ column_count state.now }
    ensures { (point : S.Point) → slice_get (object_view object.now).points place.now.point.0 ≡ Some point →
        IsEffect (object_view object.now) point.instruction (state_of state.now) (variables_of place.now) result }
{
    effect(alloc, object, state, place)
}

/// An effect is done to the columns: all that it stores, or nothing.
pub fn committing(alloc: Global, state: &mut State, effect: Effect) -> Result<Fate, OutOfMemory>
    requires { AreWithin (column_count state.old) (writes_in effect) }
    ensures ok { OnOk result (state_of state.new ≡ stored_all (state_of state.old) (writes_in effect)) }
    ensures fate { IfOk result (λ fate. outcome_of fate ≡ outcome_of effect.fate) }
    ensures err { OnErr result (state_of state.new ≡ state_of state.old) }
    ensures columns { column_count state.new ≡ column_count state.old }
{
    commit(alloc, state, effect)
}

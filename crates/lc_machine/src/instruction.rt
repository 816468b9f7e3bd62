//! What each instruction does to the numbers of a client's variables and to the columns.
ghost use Rattle.std.specs.Prelude.{◌≡◌, ◌≤◌, ◌<◌, length, Some, slice_get};
ghost use Rattle.lc_base.specs.Limits.{width_limit};
ghost use Rattle.lc_term.specs.State.{state_of, column_count, variable_count};
ghost use Rattle.lc_term.specs.View.{term_of, formula_of};
ghost use Rattle.lc_object.specs.Objects.{object_view};
ghost use Rattle.lc_object.specs.Syntax as S;
ghost use Rattle.lc_object.specs.View.{columns_of, locals_of, terms_of, instruction_of};
ghost use Rattle.lc_machine.specs.World.{initial_numbers};
ghost use Rattle.lc_object.specs.Edges.{array_columns};
ghost use Rattle.lc_machine.specs.MayRun.{MayRun, variables_at};
ghost use Rattle.lc_machine.specs.Below.{AreBelow};
ghost use Rattle.lc_machine.specs.Effects.{IsEffect};
ghost use Rattle.lc_machine.specs.View.{variables_of};

use crate::effects::{Effect, Place, answering, assigning, moving};
use crate::fault::StepFault;
use crate::numbers::{add, compute};
use crate::rows::{is_row, read_row, row_writes};
use arrayvec::ArrayVec;
use lc_base::{ColId, PointId};
use lc_object::{ArrayId, EdgeKind, Instr, LocalId, Object};
use lc_term::{Env, Formula, State, Term, eval, eval_term};
use std::alloc::Global;

// The columns of an array.
fn row_columns(object: &Object, array: ArrayId) -> &[ColId]
    requires { array.0 < length (object_view object.now).arrays }
    ensures columns { columns_of result.now ≡ array_columns (object_view object.now) array.0 }
    ensures few { length result.now ≤ width_limit }
    ensures there { AreBelow (length (initial_numbers (object_view object.now))) (columns_of result.now) }
{
    &object.parts().arrays[array.0 as usize].columns
}

#[tactic(auto, using(crate::proofs::Known::known_term, crate::proofs::Lengths::below_more))]
fn load_effect(
    alloc: Global,
    object: &Object,
    state: &State,
    variables: &Env,
    array: ArrayId,
    index: &Term,
    targets: &[LocalId],
    next: PointId,
) -> Result<Effect, StepFault>
    requires may_run { MayRun (object_view object.now) (variable_count variables.now) (S.Load array.0 (term_of index.now) (locals_of targets.now) next.0) }
    requires columns { length (initial_numbers (object_view object.now)) ≤ column_count state.now }
    ensures { IsEffect (object_view object.now) (S.Load array.0 (term_of index.now) (locals_of targets.now) next.0) (state_of state.now) variables.now.values.items result }
{
    let index = eval_term(index, state, variables)?;
    let numbers = read_row(state, row_columns(object, array), index)?;
    Ok(assigning(alloc, variables, targets, &numbers, next)?)
}

#[tactic(auto, using(crate::proofs::Known::known_term, crate::proofs::Lengths::below_more))]
fn store_effect(
    alloc: Global,
    object: &Object,
    state: &State,
    variables: &Env,
    array: ArrayId,
    index: &Term,
    values: &[Term],
    next: PointId,
) -> Result<Effect, StepFault>
    requires may_run { MayRun (object_view object.now) (variable_count variables.now) (S.Store array.0 (term_of index.now) (terms_of values.now) next.0) }
    requires columns { length (initial_numbers (object_view object.now)) ≤ column_count state.now }
    ensures { IsEffect (object_view object.now) (S.Store array.0 (term_of index.now) (terms_of values.now) next.0) (state_of state.now) variables.now.values.items result }
{
    let index = eval_term(index, state, variables)?;
    let numbers = compute(values, state, variables)?;
    let writes = row_writes(row_columns(object, array), index, &numbers);
    Ok(moving(alloc, variables, EdgeKind::Next, writes, next)?)
}

#[tactic(auto, using(crate::proofs::Known::known_term, crate::proofs::Lengths::below_more))]
fn faa_effect(
    alloc: Global,
    object: &Object,
    state: &State,
    variables: &Env,
    array: ArrayId,
    index: &Term,
    targets: &[LocalId],
    added: &[Term],
    next: PointId,
) -> Result<Effect, StepFault>
    requires may_run { MayRun (object_view object.now) (variable_count variables.now) (S.Faa array.0 (term_of index.now) (locals_of targets.now) (terms_of added.now) next.0) }
    requires columns { length (initial_numbers (object_view object.now)) ≤ column_count state.now }
    ensures { IsEffect (object_view object.now) (S.Faa array.0 (term_of index.now) (locals_of targets.now) (terms_of added.now) next.0) (state_of state.now) variables.now.values.items result }
{
    let index = eval_term(index, state, variables)?;
    let added = compute(added, state, variables)?;
    let columns = row_columns(object, array);
    let numbers = read_row(state, columns, index)?;
    let sums = add(&numbers, &added)?;
    let writes = row_writes(columns, index, &sums);
    let mut effect = assigning(alloc, variables, targets, &numbers, next)?;
    effect.writes = writes;
    Ok(effect)
}

// The points after an instruction of two edges.
#[derive(Clone, Copy)]
struct Labels {
    then: PointId,
    otherwise: PointId,
}

#[tactic(auto, using(crate::proofs::Known::known_term, crate::proofs::Lengths::below_more))]
fn cas_effect(
    alloc: Global,
    object: &Object,
    state: &State,
    variables: &Env,
    array: ArrayId,
    index: &Term,
    old: &[Term],
    new: &[Term],
    labels: Labels,
) -> Result<Effect, StepFault>
    requires may_run { MayRun (object_view object.now) (variable_count variables.now) (S.Cas array.0 (term_of index.now) (terms_of old.now) (terms_of new.now) labels.then.0 labels.otherwise.0) }
    requires columns { length (initial_numbers (object_view object.now)) ≤ column_count state.now }
    ensures { IsEffect (object_view object.now) (S.Cas array.0 (term_of index.now) (terms_of old.now) (terms_of new.now) labels.then.0 labels.otherwise.0) (state_of state.now) variables.now.values.items result }
{
    let index = eval_term(index, state, variables)?;
    let old = compute(old, state, variables)?;
    let columns = row_columns(object, array);
    if !is_row(state, columns, index, &old)? {
        return Ok(moving(
            alloc,
            variables,
            EdgeKind::Else,
            ArrayVec::new(),
            labels.otherwise,
        )?);
    }
    let new = compute(new, state, variables)?;
    let writes = row_writes(columns, index, &new);
    Ok(moving(alloc, variables, EdgeKind::Then, writes, labels.then)?)
}

fn set_effect(
    alloc: Global,
    object: &Object,
    state: &State,
    variables: &Env,
    targets: &[LocalId],
    values: &[Term],
    next: PointId,
) -> Result<Effect, StepFault>
    requires { MayRun (object_view object.now) (variable_count variables.now) (S.Set (locals_of targets.now) (terms_of values.now) next.0) }
    ensures { IsEffect (object_view object.now) (S.Set (locals_of targets.now) (terms_of values.now) next.0) (state_of state.now) variables.now.values.items result }
{
    let assigned = compute(values, state, variables)?;
    Ok(assigning(alloc, variables, targets, &assigned, next)?)
}

#[tactic(auto, using(crate::proofs::Known::known_formula, crate::proofs::Known::ground_formula))]
fn if_effect(
    alloc: Global,
    object: &Object,
    state: &State,
    variables: &Env,
    condition: &Formula,
    labels: Labels,
) -> Result<Effect, StepFault>
    requires { MayRun (object_view object.now) (variable_count variables.now) (S.If (formula_of condition.now) labels.then.0 labels.otherwise.0) }
    ensures { IsEffect (object_view object.now) (S.If (formula_of condition.now) labels.then.0 labels.otherwise.0) (state_of state.now) variables.now.values.items result }
{
    if eval(condition, state, variables)? {
        Ok(moving(
            alloc,
            variables,
            EdgeKind::Then,
            ArrayVec::new(),
            labels.then,
        )?)
    } else {
        Ok(moving(
            alloc,
            variables,
            EdgeKind::Else,
            ArrayVec::new(),
            labels.otherwise,
        )?)
    }
}

fn return_effect(
    alloc: Global,
    object: &Object,
    state: &State,
    variables: &Env,
    values: &[Term],
) -> Result<Effect, StepFault>
    requires { MayRun (object_view object.now) (variable_count variables.now) (S.Return (terms_of values.now)) }
    ensures { IsEffect (object_view object.now) (S.Return (terms_of values.now)) (state_of state.now) variables.now.values.items result }
{
    let numbers = compute(values, state, variables)?;
    Ok(answering(alloc, &numbers)?)
}

fn effect_of(
    alloc: Global,
    object: &Object,
    state: &State,
    variables: &Env,
    instruction: &Instr,
) -> Result<Effect, StepFault>
    requires may_run { MayRun (object_view object.now) (variable_count variables.now) (instruction_of instruction.now) }
    requires columns { length (initial_numbers (object_view object.now)) ≤ column_count state.now }
    ensures { IsEffect (object_view object.now) (instruction_of instruction.now) (state_of state.now) variables.now.values.items result }
{
    match instruction {
        Instr::Load {
            array,
            index,
            targets,
            next,
        } => load_effect(
            alloc, object, state, variables, *array, index, targets, *next,
        ),
        Instr::Store {
            array,
            index,
            values,
            next,
        } => store_effect(
            alloc, object, state, variables, *array, index, values, *next,
        ),
        Instr::Cas {
            array,
            index,
            old,
            new,
            equal: then,
            different: otherwise,
        } => {
            let labels = Labels {
                then: *then,
                otherwise: *otherwise,
            };
            cas_effect(
                alloc, object, state, variables, *array, index, old, new, labels,
            )
        }
        Instr::Set {
            targets,
            values,
            next,
        } => set_effect(alloc, object, state, variables, targets, values, *next),
        Instr::Faa {
            array,
            index,
            targets,
            added,
            next,
        } => faa_effect(
            alloc, object, state, variables, *array, index, targets, added, *next,
        ),
        Instr::If {
            condition,
            holds,
            fails,
        } => {
            let labels = Labels {
                then: *holds,
                otherwise: *fails,
            };
            if_effect(alloc, object, state, variables, condition, labels)
        }
        Instr::Return { values } => return_effect(alloc, object, state, variables, values),
    }
}

/// What the instruction at a client's place does. It reads the columns and changes nothing. `Overflow` is returned
/// exactly if a number that is reached leaves 64 bits.
///
/// The state has the object's columns, and may have more after them.
pub fn effect(
    alloc: Global,
    object: &Object,
    state: &State,
    place: &Place,
) -> Result<Effect, StepFault>
    requires place { variables_at (object_view object.now) place.now.point.0 ≡ Some (variable_count place.now.variables) }
    requires columns { length (initial_numbers (object_view object.now)) ≤ column_count state.now }
    ensures { (point : S.Point) → slice_get (object_view object.now).points place.now.point.0 ≡ Some point →
        IsEffect (object_view object.now) point.instruction (state_of state.now) (variables_of place.now) result }
{
    let point = &object.parts().points[place.point.0 as usize];
    effect_of(alloc, object, state, &place.variables, &point.instruction)
}

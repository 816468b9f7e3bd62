//! What a step does: where its client goes or what it returns, and what is stored.
ghost use Rattle.std.specs.Prelude.{◌≡◌, [], length, OnOk, OnErr, IfOk};
ghost use Rattle.lc_term.specs.State.{state_of, column_count};
ghost use Rattle.lc_term.specs.Updates.{stored_all, AreWithin};
ghost use Rattle.lc_machine.specs.Effects.{writes_in, outcome_of, HasParts};
ghost use Rattle.lc_term.specs.UpdateView.{writes_view};
ghost use Rattle.lc_object.specs.declared.instr.EdgeKind.TheVariants.{Next};
ghost use Rattle.lc_machine.specs.Step.{Goes, Answers, assigned};
ghost use Rattle.lc_object.specs.View.{locals_of};
ghost use Rattle.lc_term.specs.State.{variable_count};
ghost use Rattle.lc_machine.specs.Below.{AreBelow};

use crate::numbers::assign;
use arrayvec::ArrayVec;
use lc_base::{OutOfMemory, PointId, WIDTH_LIMIT};
use lc_object::{EdgeKind, LocalId};
use lc_term::{Env, State, Write};
use std::alloc::Global;

/// Where a client in a call is: a point, and the numbers of its variables. These are how many clients there are, which
/// of them it is, the arguments, and the locals.
#[derive(Drop)]
pub struct Place {
    pub point: PointId,
    pub variables: Env,
}

/// What becomes of a client.
#[derive(Drop)]
pub enum Fate {
    /// It goes to this place.
    Goes(Place),
    /// Its call returns these numbers.
    Answers(Vec<i64>),
}

/// What an instruction does: by which edge its client goes, what is stored, in order, and what becomes of the client.
#[derive(Drop)]
pub struct Effect {
    pub edge: EdgeKind,
    pub writes: ArrayVec<Write, WIDTH_LIMIT>,
    pub fate: Fate,
}

fn copied(alloc: Global, variables: &Env) -> Result<Env, OutOfMemory>
    ensures { IfOk result (λ copy. copy.values.items ≡ variables.now.values.items) }
{
    Ok(Env {
        values: Vec::from_slice(alloc, &variables.values)?,
    })
}

/// Numbers are put to locals, one to each.
pub(crate) fn assigning(
    alloc: Global,
    variables: &Env,
    targets: &[LocalId],
    numbers: &[i64],
    next: PointId,
) -> Result<Effect, OutOfMemory>
    requires each { length targets.now ≡ length numbers.now }
    requires there { AreBelow (variable_count variables.now) (locals_of targets.now) }
    ensures { IfOk result (HasParts Next [] (Goes next.0 (assigned variables.now.values.items (locals_of targets.now) numbers.now))) }
{
    let mut variables = copied(alloc, variables)?;
    assign(&mut variables, targets, numbers);
    let place = Place {
        point: next,
        variables,
    };
    Ok(Effect {
        edge: EdgeKind::Next,
        writes: ArrayVec::new(),
        fate: Fate::Goes(place),
    })
}

/// The variables stay.
pub(crate) fn moving(
    alloc: Global,
    variables: &Env,
    edge: EdgeKind,
    writes: ArrayVec<Write, WIDTH_LIMIT>,
    next: PointId,
) -> Result<Effect, OutOfMemory>
    ensures { IfOk result (HasParts edge (writes_view writes.items) (Goes next.0 variables.now.values.items)) }
{
    let place = Place {
        point: next,
        variables: copied(alloc, variables)?,
    };
    Ok(Effect {
        edge,
        writes,
        fate: Fate::Goes(place),
    })
}

/// A call returns numbers.
pub(crate) fn answering(alloc: Global, numbers: &[i64]) -> Result<Effect, OutOfMemory>
    ensures { IfOk result (HasParts Next [] (Answers numbers.now)) }
{
    let reply = Vec::from_slice(alloc, numbers)?;
    Ok(Effect {
        edge: EdgeKind::Next,
        writes: ArrayVec::new(),
        fate: Fate::Answers(reply),
    })
}

/// Does what an effect says to the columns, and returns what becomes of the client. On `OutOfMemory` the columns
/// stay as they were.
pub fn commit(alloc: Global, state: &mut State, effect: Effect) -> Result<Fate, OutOfMemory>
    requires { AreWithin (column_count state.old) (writes_in effect) }
    ensures ok { OnOk result (state_of state.new ≡ stored_all (state_of state.old) (writes_in effect)) }
    ensures fate { IfOk result (λ fate. outcome_of fate ≡ outcome_of effect.fate) }
    ensures err { OnErr result (state_of state.new ≡ state_of state.old) }
    ensures columns { column_count state.new ≡ column_count state.old }
{
    state.write_all(alloc, &effect.writes)?;
    Ok(effect.fate)
}

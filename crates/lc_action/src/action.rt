//! Declared actions: what a step may do to the columns.
ghost use Rattle.std.specs.Prelude.{◌≡◌, ◌≤◌, true, [], ◌∷◌, pos, length, map, codes, IfOk};
ghost use Rattle.lc_base.specs.Name.{bytes_of};
ghost use Rattle.lc_base.specs.NameText.{is_name};
ghost use Rattle.lc_base.specs.Limits.{name_limit};
ghost use Rattle.lc_term.specs.Said.{at_client};
ghost use Rattle.lc_term.specs.Syntax.{Number, Variable, Read, Base, Eq};
ghost use Rattle.lc_term.specs.SystemColumns.{pend};
ghost use Rattle.lc_term.specs.View.{term_of, formula_of};
ghost use Rattle.lc_term.specs.UpdateView.{updates_of};
ghost use Rattle.lc_action.specs.Action.{skip, enter, leave};
ghost use Rattle.lc_action.specs.ActionView.{action_of, first_of};

use crate::system_columns::SystemColumns;
use lc_base::{ColId, Name, OutOfMemory};
use lc_term::{ColExpr, Formula, Term, Update};
use std::alloc::Global;

/// What a step may do to the columns: if the guard holds, the updates are taken together and stored in their order.
/// Variable 0 is the number of clients, variable 1 the client that acts, and the parameters follow.
pub struct Action {
    pub name: Name,
    pub params: Vec<Name>,
    pub guard: Formula,
    pub updates: Vec<Update>,
}

// Written out, so that dropping an action is one call.
impl Drop for Action {
    fn drop(self) {
        let Action {
            name: _,
            params: _,
            guard: _,
            updates: _,
        } = self;
    }
}

/// Updates that store these terms in the cells of client 1, one in each column.
pub fn at_client(
    alloc: Global,
    columns: &[ColId],
    values: &[Term],
) -> Result<Vec<Update>, OutOfMemory>
    ensures { IfOk result (λ us. updates_of us.items ≡ at_client (map (λ c. c.0) columns.now) (map term_of values.now)) }
{
    let mut updates = Vec::with_capacity(alloc, columns.len())?;
    for (i, column) in columns.iter().enumerate() {
        let Some(value) = values.get(i) else {
            return Ok(updates);
        };
        updates.push(Update {
            column: *column,
            index: Term::Variable(1),
            value: value.try_clone(alloc)?,
        })?;
    }
    Ok(updates)
}

// The acting client is in no call.
fn is_idle(alloc: Global, system: SystemColumns) -> Result<Formula, OutOfMemory>
    ensures { IfOk result (λ f. formula_of f ≡ Eq (Read (Base (pend (first_of system))) (Variable 1)) (Number (pos 0))) }
{
    let call = Term::read(alloc, ColExpr::Base(system.pend()), Term::Variable(1))?;
    Ok(Formula::Eq(call, Term::Number(0)))
}

// The name of this text.
fn name_of(text: &str) -> Name
    requires name { is_name text.now ≡ true }
    requires limit { length text.now ≤ name_limit }
    ensures { bytes_of result ≡ text.now }
{
    match Name::new(text) {
        Some(name) => name,
        None => unreachable!(),
    }
}

/// Nothing is done.
#[tactic(auto, unfolding(lc_base::specs::NameText::begins_name, lc_base::specs::NameText::continues_name))]
pub fn skip(alloc: Global) -> Action
    ensures { action_of result ≡ skip }
{
    Action {
        name: name_of("skip"),
        params: Vec::new(alloc),
        guard: Formula::And(Vec::new(alloc)),
        updates: Vec::new(alloc),
    }
}

// The parameters of `enter`: the operation, and its arguments.
#[tactic(auto, unfolding(lc_base::specs::NameText::begins_name, lc_base::specs::NameText::continues_name))]
fn enter_params(alloc: Global) -> Result<Vec<Name>, OutOfMemory>
    ensures { IfOk result (λ names. map bytes_of names.items ≡ codes "o" ∷ codes "x1" ∷ codes "x2" ∷ codes "x3" ∷ []) }
{
    let mut names = Vec::with_capacity(alloc, 4)?;
    names.push(name_of("o"))?;
    names.push(name_of("x1"))?;
    names.push(name_of("x2"))?;
    names.push(name_of("x3"))?;
    Ok(names)
}

// What `enter` stores: the call is pending, its operation and arguments, and nothing is noted.
fn enter_values(alloc: Global) -> Result<Vec<Term>, OutOfMemory>
    ensures { IfOk result (λ ts. map term_of ts.items ≡ Number (pos 1) ∷ Variable 2 ∷ Variable 3 ∷ Variable 4 ∷ Variable 5 ∷ Number (pos 0) ∷ []) }
{
    let mut values = Vec::with_capacity(alloc, 6)?;
    values.push(Term::Number(1))?;
    values.push(Term::Variable(2))?;
    values.push(Term::Variable(3))?;
    values.push(Term::Variable(4))?;
    values.push(Term::Variable(5))?;
    values.push(Term::Number(0))?;
    Ok(values)
}

/// A call begins, of the operation and with the arguments that the parameters say.
#[tactic(auto, unfolding(lc_base::specs::NameText::begins_name, lc_base::specs::NameText::continues_name))]
pub fn enter(alloc: Global, system: SystemColumns) -> Result<Action, OutOfMemory>
    ensures { IfOk result (λ action. action_of action ≡ enter (first_of system)) }
{
    let values = enter_values(alloc)?;
    Ok(Action {
        name: name_of("enter"),
        params: enter_params(alloc)?,
        guard: is_idle(alloc, system)?,
        updates: at_client(alloc, &system.entered(), &values)?,
    })
}

/// A call ends.
#[tactic(auto, unfolding(lc_base::specs::NameText::begins_name, lc_base::specs::NameText::continues_name))]
pub fn leave(alloc: Global, system: SystemColumns) -> Result<Action, OutOfMemory>
    ensures { IfOk result (λ action. action_of action ≡ leave (first_of system)) }
{
    let idle = Box::new(alloc, is_idle(alloc, system)?)?;
    Ok(Action {
        name: name_of("leave"),
        params: Vec::new(alloc),
        guard: Formula::Not(idle),
        updates: at_client(alloc, &[system.pend()], &[Term::Number(0)])?,
    })
}

//! A goal at numbers for the variables of its `forall`s.
ghost use Rattle.std.specs.Prelude.{◌≡◌, IfOk, IfSome};
ghost use Rattle.lc_term.specs.Substitution.{instantiated};
ghost use Rattle.lc_term.specs.Syntax.{Number, Implies};
ghost use Rattle.lc_term.specs.View.{formula_of};
ghost use Rattle.lc_proof_state.specs.Instance.{at_number, instance_at};

use lc_base::OutOfMemory;
use lc_term::{Env, Formula, Term, instantiate};
use std::alloc::Global;

/// Numbers, and the goal with them for the variables of its `forall`s, the outermost first.
#[derive(Drop)]
pub(crate) struct Instance {
    pub numbers: Vec<i64>,
    pub goal: Formula,
}

/// An implication of these.
fn implication(alloc: Global, left: &Formula, right: Formula) -> Result<Formula, OutOfMemory>
    ensures { IfOk result (λ made. formula_of made ≡ Implies (formula_of left.now) (formula_of right)) }
{
    let left = Box::new(alloc, left.try_clone(alloc)?)?;
    let right = Box::new(alloc, right)?;
    Ok(Formula::Implies(left, right))
}

/// The body of a quantifier with a number for the quantifier's variable.
fn with_number(alloc: Global, body: &Formula, number: i64) -> Result<Formula, OutOfMemory>
    ensures { IfOk result (λ put. formula_of put ≡ instantiated (Number number) (formula_of body.now)) }
{
    let number = Term::Number(number);
    instantiate(alloc, body, &number)
}

/// A formula with a number for the variable of the `forall` that it is, or that it is under premises, if it is one.
#[cycle(at_number)]
fn at_number(alloc: Global, formula: &Formula, number: i64) -> Result<Option<Formula>, OutOfMemory>
    ensures { IfOk result (λ found. IfSome found (λ put. formula_of put ≡ at_number number (formula_of formula.now))) }
{
    match formula {
        Formula::Forall(body) => Ok(Some(with_number(alloc, body, number)?)),
        Formula::Implies(left, right) => {
            let Some(right) = at_number(alloc, right, number)? else {
                return Ok(None);
            };
            Ok(Some(implication(alloc, left, right)?))
        }
        _ => Ok(None),
    }
}

/// A goal with the numbers of these variables for those of its `forall`s, as far as it has any.
pub(crate) fn instance_of(
    alloc: Global,
    goal: &Formula,
    witnesses: &[u32],
    env: &Env,
) -> Result<Instance, OutOfMemory>
    ensures { IfOk result (λ made. formula_of made.goal ≡ instance_at made.numbers.items (formula_of goal.now)) }
{
    let mut instance = Instance {
        numbers: Vec::new(alloc),
        goal: goal.try_clone(alloc)?,
    };
    for witness in witnesses {
        let number = env.values.get(*witness as usize).copied().unwrap_or(0);
        let Some(goal) = at_number(alloc, &instance.goal, number)? else {
            return Ok(instance);
        };
        instance.numbers.push(number)?;
        instance.goal = goal;
    }
    Ok(instance)
}

//! The numbers of a row, of locals or of a reply, which one step computes.
ghost use Rattle.std.specs.Prelude.{◌≡◌, ◌≤◌, ◌<◌, true, length};
ghost use Rattle.lc_base.specs.Limits.{local_limit};
ghost use Rattle.lc_object.specs.View.{terms_of, locals_of};
ghost use Rattle.lc_object.specs.WellFormed.{are_code_terms};
ghost use Rattle.lc_term.specs.State.{state_of, variable_count};
ghost use Rattle.lc_machine.specs.Step.{numbers, sums, assigned};
ghost use Rattle.lc_machine.specs.Fits.{NumbersFit};
ghost use Rattle.lc_term.specs.Computed.{IsComputed, overflow_says};
ghost use Rattle.lc_term.specs.Reached.{TermsFit};
ghost use Rattle.lc_machine.specs.World.{variable};
ghost use Rattle.lc_machine.specs.Below.{AreBelow};

use arrayvec::ArrayVec;
use lc_base::LOCAL_LIMIT;
use lc_object::LocalId;
use lc_term::{Env, EvalFault, State, Term, eval_term};

/// The numbers that one step computes: of a row, of locals, or of a reply.
pub type Numbers = ArrayVec<i64, LOCAL_LIMIT>;

/// The numbers of terms, computed from the left.
pub(crate) fn compute(terms: &[Term], state: &State, variables: &Env) -> Result<Numbers, EvalFault>
    requires few { length terms.now ≤ local_limit }
    requires code { are_code_terms (variable_count variables.now) (terms_of terms.now) ≡ true }
    ensures { let s = state_of state.now in
        let vs = variables.now.values.items in
        let ts = terms_of terms.now in
        IsComputed overflow_says (λ numbers. numbers.items) (TermsFit s (variable vs) ts) (numbers s vs ts) result }
{
    let mut numbers = ArrayVec::new();
    for term in terms {
        numbers.push(eval_term(term, state, variables)?);
    }
    Ok(numbers)
}

/// These numbers with others added to them, one to each.
pub(crate) fn add(numbers: &[i64], added: &[i64]) -> Result<Numbers, EvalFault>
    requires few { length numbers.now ≤ local_limit }
    requires each { length numbers.now ≡ length added.now }
    ensures { IsComputed overflow_says (λ numbers. numbers.items) (NumbersFit (sums numbers.now added.now)) (sums numbers.now added.now) result }
{
    let mut sums = ArrayVec::new();
    for (i, number) in numbers.iter().enumerate() {
        let Some(sum) = number.checked_add(added[i]) else {
            return Err(EvalFault::Overflow);
        };
        sums.push(sum);
    }
    Ok(sums)
}

/// Puts numbers to locals, one to each.
pub(crate) fn assign(variables: &mut Env, targets: &[LocalId], numbers: &[i64])
    requires each { length targets.now ≡ length numbers.now }
    requires there { AreBelow (variable_count variables.old) (locals_of targets.now) }
    ensures { variables.new.values.items ≡ assigned variables.old.values.items (locals_of targets.now) numbers.now }
{
    for (i, target) in targets.iter().enumerate() {
        variables.values[target.0 as usize] = numbers[i];
    }
}

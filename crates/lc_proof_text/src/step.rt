//! The parts of a step that come before its proofs. Parts too many are reported when the proofs are read.
ghost use Rattle.std.specs.Prelude.{◌≡◌, [], IfOk, IfErr};
ghost use Rattle.lc_sexp.specs.Shown.{rest_of, number_of, owner_of};
ghost use Rattle.lc_kernel.specs.Proofs as S;
ghost use Rattle.lc_kernel.specs.View.{step_of};
ghost use Rattle.lc_term.specs.View.{term_of, column_of};
ghost use Rattle.lc_reading.specs.declared.flaw.ReadFault.TheVariants.{OutOfMemory};
ghost use Rattle.lc_reading.specs.Parts.{tree_of, place_of};
ghost use Rattle.lc_reading.specs.Results.{IsReading};
ghost use Rattle.lc_text.specs.Seen.{numbers_of, terms_of, access_parts};
ghost use Rattle.lc_text.specs.Terms.{term_reading};
ghost use Rattle.lc_proof_text.specs.Heads.{own_parts};
ghost use Rattle.lc_proof_text.specs.Own.{IsOwn, boxed_term};
ghost use Rattle.lc_proof_text.specs.Steps.{hypothesis_step, two_numbers, two_terms, cell_reading, hypothesis_reading, instantiate_reading, cut_reading, written_reading, same_reading, affine_reading, divide_reading, opposite_reading, step_reading};

use crate::head::Head;
use crate::numbers::{first_number, first_numbers};
use lc_kernel::{SameAccess, Step, StoredAccess};
use lc_reading::{Part, ReadFault, both, next_part, one, two};
use lc_sexp::{Cursor, Misfit};
use lc_term::{ColExpr, Term};
use lc_text::{Scope, read_boxed_formula, read_column, read_number, read_term};
use std::alloc::Global;

/// The step that the first parts of a list read as, or what is wrong in them, and the rest after them.
type Own<'a> = (Result<Step, ReadFault>, Cursor<'a>);

/// The step that begins so and has a hypothesis alone.
fn step_of_hypothesis(head: Head, hypothesis: i64) -> Step
    ensures { step_of result ≡ hypothesis_step head hypothesis }
{
    match head {
        Head::Split => Step::Split { hypothesis },
        Head::Cases => Step::Cases { hypothesis },
        Head::Push => Step::Push { hypothesis },
        Head::Fresh => Step::Fresh { hypothesis },
        _ => Step::Trichotomy { hypothesis },
    }
}

fn read_hypothesis<'a>(head: Head, list: Cursor<'a>) -> Result<Own<'a>, Misfit>
    ensures { IsOwn (hypothesis_reading head (owner_of list.entry) (number_of list.entry) (rest_of list.entry)) 1 list.entry result }
{
    if let Some((hypothesis, rest)) = first_number(list) {
        return Ok((Ok(step_of_hypothesis(head, hypothesis)), rest));
    }
    let (part, rest) = one(list)?;
    let step = match read_number(part) {
        Ok(hypothesis) => Ok(step_of_hypothesis(head, hypothesis)),
        Err(fault) => Err(fault),
    };
    Ok((step, rest))
}

fn read_instantiation<'a, S: Scope>(
    alloc: Global,
    scope: &S,
    list: Cursor<'a>,
) -> Result<Own<'a>, Misfit>
    ensures { IsOwn (instantiate_reading (S.names scope.now) (owner_of list.entry) (number_of list.entry) (rest_of list.entry)) 2 list.entry result }
{
    let (first, second, rest) = two(list)?;
    let parts = both(read_number(first), read_boxed_term(alloc, scope, second));
    let step = match parts {
        Ok((hypothesis, term)) => Ok(Step::Instantiate { hypothesis, term }),
        Err(fault) => Err(fault),
    };
    Ok((step, rest))
}

fn read_cut<'a, S: Scope>(alloc: Global, scope: &S, list: Cursor<'a>) -> Result<Own<'a>, Misfit>
    ensures { IsOwn (cut_reading (S.names scope.now) (owner_of list.entry) (number_of list.entry) (rest_of list.entry)) 1 list.entry result }
{
    let (part, rest) = one(list)?;
    let step = match read_boxed_formula(alloc, scope, part) {
        Ok(formula) => Ok(Step::Cut { formula }),
        Err(fault) => Err(fault),
    };
    Ok((step, rest))
}

/// The term that an item reads as, in a box.
fn read_boxed_term<S: Scope>(
    alloc: Global,
    scope: &S,
    part: Part<'_>,
) -> Result<Box<Term>, ReadFault>
    ensures { IsReading boxed_term (term_reading (S.names scope.now) [] (place_of part.entry) (tree_of part.entry)) result }
{
    Ok(Box::new(alloc, read_term(alloc, scope, part)?)?)
}

/// A column and an index. A column that may not be read there is reported at the reader.
fn read_cell<S: Scope>(
    alloc: Global,
    scope: &S,
    reader: u64,
    first: Part<'_>,
    second: Part<'_>,
) -> Result<(ColExpr, Term), ReadFault>
    ensures { IsReading access_parts (cell_reading (S.names scope.now) reader (place_of first.entry) (tree_of first.entry) (place_of second.entry) (tree_of second.entry)) result }
{
    both(
        read_column(alloc, scope, reader, first),
        read_term(alloc, scope, second),
    )
}

fn read_terms<S: Scope>(
    alloc: Global,
    scope: &S,
    first: Part<'_>,
    second: Part<'_>,
) -> Result<(Term, Term), ReadFault>
    ensures { IsReading terms_of (two_terms (S.names scope.now) (place_of first.entry) (tree_of first.entry) (place_of second.entry) (tree_of second.entry)) result }
{
    both(
        read_term(alloc, scope, first),
        read_term(alloc, scope, second),
    )
}

fn read_numbers(first: Part<'_>, second: Part<'_>) -> Result<(i64, i64), ReadFault>
    ensures { IsReading numbers_of (two_numbers (place_of first.entry) (tree_of first.entry) (place_of second.entry) (tree_of second.entry)) result }
{
    both(read_number(first), read_number(second))
}

/// The axiom of a stored value, of these parts.
fn made_written(alloc: Global, parts: ((ColExpr, Term), (Term, Term))) -> Result<Step, ReadFault>
    ensures made { IfOk result (λ step. step_of step ≡ S.Written (column_of parts.0.0) (term_of parts.0.1) (term_of parts.1.0) (term_of parts.1.1)) }
    ensures fault { IfErr result (λ fault. fault ≡ OutOfMemory) }
{
    let ((column, index), (value, other)) = parts;
    let access = StoredAccess {
        column,
        index,
        value,
        other,
    };
    Ok(Step::Written {
        access: Box::new(alloc, access)?,
    })
}

/// The axiom of equal indexes, of these parts.
fn made_same(alloc: Global, parts: ((ColExpr, Term), Term)) -> Result<Step, ReadFault>
    ensures made { IfOk result (λ step. step_of step ≡ S.Same (column_of parts.0.0) (term_of parts.0.1) (term_of parts.1)) }
    ensures fault { IfErr result (λ fault. fault ≡ OutOfMemory) }
{
    let ((column, index), other) = parts;
    let access = SameAccess {
        column,
        index,
        other,
    };
    Ok(Step::Same {
        access: Box::new(alloc, access)?,
    })
}

fn read_written<'a, S: Scope>(alloc: Global, scope: &S, list: Cursor<'a>) -> Result<Own<'a>, Misfit>
    ensures { IsOwn (written_reading (S.names scope.now) (owner_of list.entry) (number_of list.entry) (rest_of list.entry)) 4 list.entry result }
{
    let mut rest = list;
    let first = next_part(&mut rest)?;
    let second = next_part(&mut rest)?;
    let third = next_part(&mut rest)?;
    let fourth = next_part(&mut rest)?;
    let cell = read_cell(alloc, scope, list.owner(), first, second);
    let step = match both(cell, read_terms(alloc, scope, third, fourth)) {
        Ok(parts) => made_written(alloc, parts),
        Err(fault) => Err(fault),
    };
    Ok((step, rest))
}

fn read_same<'a, S: Scope>(alloc: Global, scope: &S, list: Cursor<'a>) -> Result<Own<'a>, Misfit>
    ensures { IsOwn (same_reading (S.names scope.now) (owner_of list.entry) (number_of list.entry) (rest_of list.entry)) 3 list.entry result }
{
    let mut rest = list;
    let first = next_part(&mut rest)?;
    let second = next_part(&mut rest)?;
    let third = next_part(&mut rest)?;
    let cell = read_cell(alloc, scope, list.owner(), first, second);
    let step = match both(cell, read_term(alloc, scope, third)) {
        Ok(parts) => made_same(alloc, parts),
        Err(fault) => Err(fault),
    };
    Ok((step, rest))
}

fn read_affine<'a, S: Scope>(alloc: Global, scope: &S, list: Cursor<'a>) -> Result<Own<'a>, Misfit>
    ensures { IsOwn (affine_reading (S.names scope.now) (owner_of list.entry) (number_of list.entry) (rest_of list.entry)) 3 list.entry result }
{
    let mut rest = list;
    let first = next_part(&mut rest)?;
    let second = next_part(&mut rest)?;
    let third = next_part(&mut rest)?;
    let numbers = read_numbers(first, second);
    let step = match both(numbers, read_boxed_term(alloc, scope, third)) {
        Ok(((slope, start), index)) => Ok(Step::Affine {
            slope,
            start,
            index,
        }),
        Err(fault) => Err(fault),
    };
    Ok((step, rest))
}

fn read_division<'a, S: Scope>(
    alloc: Global,
    scope: &S,
    list: Cursor<'a>,
) -> Result<Own<'a>, Misfit>
    ensures { IsOwn (divide_reading (S.names scope.now) (owner_of list.entry) (number_of list.entry) (rest_of list.entry)) 3 list.entry result }
{
    let mut rest = list;
    let first = next_part(&mut rest)?;
    let second = next_part(&mut rest)?;
    let third = next_part(&mut rest)?;
    let numbers = read_numbers(first, second);
    let step = match both(numbers, read_boxed_formula(alloc, scope, third)) {
        Ok(((hypothesis, divisor), quotient)) => Ok(Step::Divide {
            hypothesis,
            divisor,
            quotient,
        }),
        Err(fault) => Err(fault),
    };
    Ok((step, rest))
}

fn read_opposite<'a>(list: Cursor<'a>) -> Result<Own<'a>, Misfit>
    ensures { IsOwn (opposite_reading (owner_of list.entry) (number_of list.entry) (rest_of list.entry)) 2 list.entry result }
{
    if let Some((hypothesis, negation, rest)) = first_numbers(list) {
        let step = Step::Opposite {
            hypothesis,
            negation,
        };
        return Ok((Ok(step), rest));
    }
    let (first, second, rest) = two(list)?;
    let step = match both(read_number(first), read_number(second)) {
        Ok((hypothesis, negation)) => Ok(Step::Opposite {
            hypothesis,
            negation,
        }),
        Err(fault) => Err(fault),
    };
    Ok((step, rest))
}

/// The step that begins so, of its own parts.
pub(crate) fn read_own<'a, S: Scope>(
    alloc: Global,
    scope: &S,
    head: Head,
    list: Cursor<'a>,
) -> Result<Own<'a>, Misfit>
    ensures { IsOwn (step_reading (S.names scope.now) head (owner_of list.entry) (number_of list.entry) (rest_of list.entry)) (own_parts head) list.entry result }
{
    match head {
        Head::Split | Head::Cases | Head::Push | Head::Fresh | Head::Trichotomy => {
            read_hypothesis(head, list)
        }
        Head::Instantiate => read_instantiation(alloc, scope, list),
        Head::Cut => read_cut(alloc, scope, list),
        Head::Written => read_written(alloc, scope, list),
        Head::Same => read_same(alloc, scope, list),
        Head::Affine => read_affine(alloc, scope, list),
        Head::Divide => read_division(alloc, scope, list),
        Head::Opposite => read_opposite(list),
        Head::Open => Ok((Ok(Step::Open), list)),
    }
}

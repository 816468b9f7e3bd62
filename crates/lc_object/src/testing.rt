//! Whether the parts of an object are well-formed.
ghost use Rattle.std.specs.Prelude.{◌≡◌, ◌<◌, ◌+◌, ◌^◌, ◌-◌, ◌==◌, ◌&&◌, not, nat_le, nat_lt, true, length, map};
ghost use Rattle.std.specs.List.{list_all, list_any};
ghost use Rattle.lc_term.specs.Syntax.{formulas};
ghost use Rattle.lc_term.specs.View.{term_of, formula_of, formulas_of};
ghost use Rattle.lc_object.specs.Syntax as S;
ghost use Rattle.lc_object.specs.View.{locals_of, columns_of, terms_of, instruction_of, array_of, operation_of, point_of, parts_of};
ghost use Rattle.lc_object.specs.WellFormed.{variable_count, has_limits, is_code_term, are_code_terms, is_code_formula, are_code_formulas, are_distinct, are_targets, has_width, is_label, is_instruction, is_point, is_first, are_operations, is_array, stands_in, are_apart, is_object};

use crate::instr::{ArrayId, Instr, LocalId};
use crate::parts::{Array, Operation, Parts, Point};
use lc_base::{
    ARGUMENT_LIMIT, ColId, LOCAL_LIMIT, OPERATION_LIMIT, OpId, POINT_LIMIT, PointId, REPLY_LIMIT,
    WIDTH_LIMIT,
};
use lc_term::{Formula, Term};

fn has_limits(operation: &Operation) -> bool
    ensures { result ≡ has_limits (operation_of operation.now) }
{
    operation.arguments.len() <= ARGUMENT_LIMIT
        && operation.replies <= REPLY_LIMIT
        && operation.locals.len() <= LOCAL_LIMIT
}

// How many variables there are in an operation's code.
fn variable_count(operation: &Operation) -> usize
    requires { has_limits (operation_of operation.now) ≡ true }
    ensures { result ≡ variable_count (operation_of operation.now) }
{
    2 + operation.arguments.len() + operation.locals.len()
}

fn is_code_term(term: &Term, variables: usize) -> bool
    ensures { result ≡ is_code_term variables (term_of term.now) }
{
    match term {
        Term::Number(_) => true,
        Term::Variable(number) => 0 < *number && (*number as usize) < variables,
        Term::Bound(_) | Term::Read(..) => false,
        Term::Add(left, right) | Term::Subtract(left, right) => is_code_term(left, variables)
            && is_code_term(right, variables),
        Term::Multiply(_, term) => is_code_term(term, variables),
    }
}

fn all_are_code(terms: &[Term], variables: usize) -> bool
    ensures { result ≡ list_all (λ t. is_code_term variables (term_of t)) terms.now }
{
    terms.iter().all(|term| is_code_term(term, variables))
}

#[tactic(auto, using(crate::proofs::Passing::terms_test))]
fn are_code_terms(terms: &[Term], variables: usize) -> bool
    ensures { result ≡ are_code_terms variables (terms_of terms.now) }
{
    all_are_code(terms, variables)
}

#[cycle(is_code_formula)]
fn is_code_formula(formula: &Formula, variables: usize) -> bool
    ensures { result ≡ is_code_formula variables (formula_of formula.now) }
{
    match formula {
        Formula::Le(left, right) | Formula::Eq(left, right) => is_code_term(left, variables)
            && is_code_term(right, variables),
        Formula::Not(formula) => is_code_formula(formula, variables),
        Formula::And(parts) | Formula::Or(parts) => are_code_formulas(parts, variables),
        Formula::Implies(left, right) => is_code_formula(left, variables)
            && is_code_formula(right, variables),
        Formula::Forall(_) | Formula::Exists(_) => false,
    }
}

#[cycle(is_code_formula)]
fn are_code_formulas(parts: &[Formula], variables: usize) -> bool
    ensures { result ≡ are_code_formulas variables (formulas (formulas_of parts.now)) }
{
    for part in parts {
        if !is_code_formula(part, variables) {
            return false;
        }
    }
    true
}

fn is_among(locals: &[LocalId], local: LocalId) -> bool
    ensures { result ≡ list_any (λ other. other == local.0) (locals_of locals.now) }
{
    locals
        .iter()
        .map(|other| other.0)
        .any(|other| other == local.0)
}

fn are_distinct(locals: &[LocalId]) -> bool
    ensures { result ≡ are_distinct (locals_of locals.now) }
{
    match locals.split_first() {
        None => true,
        Some((local, others)) => !is_among(others, *local) && are_distinct(others),
    }
}

fn is_column_among(columns: &[ColId], column: ColId) -> bool
    ensures { result ≡ list_any (λ other. other == column.0) (columns_of columns.now) }
{
    columns
        .iter()
        .map(|other| other.0)
        .any(|other| other == column.0)
}

fn are_distinct_columns(columns: &[ColId]) -> bool
    ensures { result ≡ are_distinct (columns_of columns.now) }
{
    match columns.split_first() {
        None => true,
        Some((column, others)) => !is_column_among(others, *column) && are_distinct_columns(others),
    }
}

fn are_between(locals: &[LocalId], first: usize, end: usize) -> bool
    ensures { result ≡ list_all (λ local. nat_le first local && nat_lt local end) (locals_of locals.now) }
{
    locals
        .iter()
        .map(|local| local.0 as usize)
        .all(|local| first <= local && local < end)
}

fn are_targets(operation: &Operation, targets: &[LocalId]) -> bool
    requires { has_limits (operation_of operation.now) ≡ true }
    ensures { result ≡ are_targets (operation_of operation.now) (locals_of targets.now) }
{
    let first = 2 + operation.arguments.len();
    let end = variable_count(operation);
    targets.len() <= LOCAL_LIMIT && are_between(targets, first, end) && are_distinct(targets)
}

fn has_width(parts: &Parts, array: ArrayId, width: usize) -> bool
    ensures { result ≡ has_width (parts_of parts.now) array.0 width }
{
    match parts.arrays.get(array.0 as usize) {
        None => false,
        Some(array) => array.columns.len() == width,
    }
}

fn is_label(parts: &Parts, operation: OpId, label: PointId) -> bool
    ensures { result ≡ is_label (parts_of parts.now) operation.0 label.0 }
{
    match parts.points.get(label.0 as usize) {
        None => false,
        Some(point) => point.operation == operation,
    }
}

// Whether a load in an operation's body names only what exists.
fn is_load(
    parts: &Parts,
    number: OpId,
    operation: &Operation,
    array: ArrayId,
    index: &Term,
    targets: &[LocalId],
    next: PointId,
) -> bool
    requires { has_limits (operation_of operation.now) ≡ true }
    ensures { result ≡ is_instruction (parts_of parts.now) number.0 (operation_of operation.now) (S.Load array.0 (term_of index.now) (locals_of targets.now) next.0) }
{
    has_width(parts, array, targets.len())
        && is_code_term(index, variable_count(operation))
        && are_targets(operation, targets)
        && is_label(parts, number, next)
}

// Whether a store in an operation's body names only what exists.
fn is_store(
    parts: &Parts,
    number: OpId,
    operation: &Operation,
    array: ArrayId,
    index: &Term,
    values: &[Term],
    next: PointId,
) -> bool
    requires { has_limits (operation_of operation.now) ≡ true }
    ensures { result ≡ is_instruction (parts_of parts.now) number.0 (operation_of operation.now) (S.Store array.0 (term_of index.now) (terms_of values.now) next.0) }
{
    let variables = variable_count(operation);
    has_width(parts, array, values.len())
        && is_code_term(index, variables)
        && are_code_terms(values, variables)
        && is_label(parts, number, next)
}

// Whether a compare-and-swap in an operation's body names only what exists.
fn is_cas(
    parts: &Parts,
    number: OpId,
    operation: &Operation,
    array: ArrayId,
    index: &Term,
    old: &[Term],
    new: &[Term],
    equal: PointId,
    different: PointId,
) -> bool
    requires { has_limits (operation_of operation.now) ≡ true }
    ensures { result ≡ is_instruction (parts_of parts.now) number.0 (operation_of operation.now) (S.Cas array.0 (term_of index.now) (terms_of old.now) (terms_of new.now) equal.0 different.0) }
{
    let variables = variable_count(operation);
    has_width(parts, array, old.len())
        && has_width(parts, array, new.len())
        && is_code_term(index, variables)
        && are_code_terms(old, variables)
        && are_code_terms(new, variables)
        && is_label(parts, number, equal)
        && is_label(parts, number, different)
}

// Whether an assignment in an operation's body names only what exists.
fn is_set(
    parts: &Parts,
    number: OpId,
    operation: &Operation,
    targets: &[LocalId],
    values: &[Term],
    next: PointId,
) -> bool
    requires { has_limits (operation_of operation.now) ≡ true }
    ensures { result ≡ is_instruction (parts_of parts.now) number.0 (operation_of operation.now) (S.Set (locals_of targets.now) (terms_of values.now) next.0) }
{
    values.len() == targets.len()
        && are_targets(operation, targets)
        && are_code_terms(values, variable_count(operation))
        && is_label(parts, number, next)
}

// Whether a fetch-and-add in an operation's body names only what exists.
fn is_faa(
    parts: &Parts,
    number: OpId,
    operation: &Operation,
    array: ArrayId,
    index: &Term,
    targets: &[LocalId],
    added: &[Term],
    next: PointId,
) -> bool
    requires { has_limits (operation_of operation.now) ≡ true }
    ensures { result ≡ is_instruction (parts_of parts.now) number.0 (operation_of operation.now) (S.Faa array.0 (term_of index.now) (locals_of targets.now) (terms_of added.now) next.0) }
{
    let variables = variable_count(operation);
    has_width(parts, array, targets.len())
        && has_width(parts, array, added.len())
        && is_code_term(index, variables)
        && are_targets(operation, targets)
        && are_code_terms(added, variables)
        && is_label(parts, number, next)
}

// Whether a test in an operation's body names only what exists.
fn is_if(
    parts: &Parts,
    number: OpId,
    operation: &Operation,
    condition: &Formula,
    holds: PointId,
    fails: PointId,
) -> bool
    requires { has_limits (operation_of operation.now) ≡ true }
    ensures { result ≡ is_instruction (parts_of parts.now) number.0 (operation_of operation.now) (S.If (formula_of condition.now) holds.0 fails.0) }
{
    is_code_formula(condition, variable_count(operation))
        && is_label(parts, number, holds)
        && is_label(parts, number, fails)
}

// Whether a return in an operation's body has the operation's replies, and names only what exists.
fn is_return(parts: &Parts, number: OpId, operation: &Operation, values: &[Term]) -> bool
    requires { has_limits (operation_of operation.now) ≡ true }
    ensures { result ≡ is_instruction (parts_of parts.now) number.0 (operation_of operation.now) (S.Return (terms_of values.now)) }
{
    values.len() == operation.replies as usize && are_code_terms(values, variable_count(operation))
}

// Whether an instruction in an operation's body names only what exists.
fn is_instruction(parts: &Parts, number: OpId, operation: &Operation, instruction: &Instr) -> bool
    requires { has_limits (operation_of operation.now) ≡ true }
    ensures { result ≡ is_instruction (parts_of parts.now) number.0 (operation_of operation.now) (instruction_of instruction.now) }
{
    match instruction {
        Instr::Load {
            array,
            index,
            targets,
            next,
        } => is_load(parts, number, operation, *array, index, targets, *next),
        Instr::Store {
            array,
            index,
            values,
            next,
        } => is_store(parts, number, operation, *array, index, values, *next),
        Instr::Cas {
            array,
            index,
            old,
            new,
            equal,
            different,
        } => is_cas(
            parts, number, operation, *array, index, old, new, *equal, *different,
        ),
        Instr::Set {
            targets,
            values,
            next,
        } => is_set(parts, number, operation, targets, values, *next),
        Instr::Faa {
            array,
            index,
            targets,
            added,
            next,
        } => is_faa(
            parts, number, operation, *array, index, targets, added, *next,
        ),
        Instr::If {
            condition,
            holds,
            fails,
        } => is_if(parts, number, operation, condition, *holds, *fails),
        Instr::Return { values } => is_return(parts, number, operation, values),
    }
}

fn is_point(parts: &Parts, point: &Point) -> bool
    ensures { result ≡ is_point (parts_of parts.now) (point_of point.now) }
{
    match parts.operations.get(point.operation.0 as usize) {
        None => false,
        Some(operation) => {
            has_limits(operation)
                && is_instruction(parts, point.operation, operation, &point.instruction)
        }
    }
}

fn are_concrete(columns: &[ColId], first: usize, count: usize) -> bool
    ensures { result ≡ list_all (λ column. nat_le first column && nat_lt (column - first) count) (columns_of columns.now) }
{
    columns
        .iter()
        .map(|column| column.0 as usize)
        .all(|column| first <= column && column - first < count)
}

fn is_array(parts: &Parts, array: &Array) -> bool
    ensures { result ≡ is_array (parts_of parts.now) (array_of array.now) }
{
    !array.columns.is_empty()
        && array.columns.len() <= WIDTH_LIMIT
        && are_distinct_columns(&array.columns)
        && are_concrete(&array.columns, parts.abstracts.len(), parts.concretes.len())
}

// Whether a column of this number is in one of these arrays.
fn stands_in(arrays: &[Array], column: ColId) -> bool
    ensures { result ≡ stands_in (map array_of arrays.now) column.0 }
{
    match arrays.split_first() {
        None => false,
        Some((array, others)) => {
            is_column_among(&array.columns, column) || stands_in(others, column)
        }
    }
}

fn any_stands_in(arrays: &[Array], columns: &[ColId]) -> bool
    ensures { result ≡ list_any (stands_in (map array_of arrays.now)) (columns_of columns.now) }
{
    match columns.split_first() {
        None => false,
        Some((column, others)) => stands_in(arrays, *column) || any_stands_in(arrays, others),
    }
}

// Whether no two arrays share a column.
fn are_apart(arrays: &[Array]) -> bool
    ensures { result ≡ are_apart (map array_of arrays.now) }
{
    match arrays.split_first() {
        None => true,
        Some((array, others)) => !any_stands_in(others, &array.columns) && are_apart(others),
    }
}

fn all_are_arrays(parts: &Parts) -> bool
    ensures { result ≡ list_all (λ array. is_array (parts_of parts.now) (array_of array)) parts.now.arrays.items }
{
    parts.arrays.iter().all(|array| is_array(parts, array))
}

#[tactic(auto, using(crate::proofs::Passing::arrays_test))]
fn are_arrays(parts: &Parts) -> bool
    ensures { result ≡ list_all (is_array (parts_of parts.now)) (map array_of parts.now.arrays.items) }
{
    all_are_arrays(parts)
}

fn all_are_points(parts: &Parts) -> bool
    ensures { result ≡ list_all (λ point. is_point (parts_of parts.now) (point_of point)) parts.now.points.items }
{
    parts.points.iter().all(|point| is_point(parts, point))
}

#[tactic(auto, using(crate::proofs::Passing::points_test))]
fn are_points(parts: &Parts) -> bool
    ensures { result ≡ list_all (is_point (parts_of parts.now)) (map point_of parts.now.points.items) }
{
    all_are_points(parts)
}

// Whether the first of the points of the operation's body is at this place.
fn is_first(points: &[Point], operation: OpId, place: usize) -> bool
    ensures { result ≡ is_first (map point_of points.now) operation.0 place }
{
    match points.split_first() {
        None => false,
        Some((point, _)) if place == 0 => point.operation == operation,
        Some((point, others)) => {
            point.operation != operation && is_first(others, operation, place - 1)
        }
    }
}

// Whether operations from this number on have limits, and the first points of their bodies.
fn are_operations(parts: &Parts, first: u32, operations: &[Operation]) -> bool
    requires { first + length operations.now < 2 ^ 32 }
    ensures { result ≡ are_operations (parts_of parts.now) first (map operation_of operations.now) }
{
    match operations.split_first() {
        None => true,
        Some((operation, others)) => {
            has_limits(operation)
                && is_first(&parts.points, OpId(first), operation.entry.0 as usize)
                && are_operations(parts, first + 1, others)
        }
    }
}

// Whether the parts of an object name only what exists.
pub(crate) fn is_object(parts: &Parts) -> bool
    ensures { result ≡ is_object (parts_of parts.now) }
{
    are_apart(&parts.arrays)
        && parts.operations.len() <= OPERATION_LIMIT
        && parts.points.len() <= POINT_LIMIT
        && are_arrays(parts)
        && are_operations(parts, 0, &parts.operations)
        && are_points(parts)
}

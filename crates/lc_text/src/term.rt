//! How terms are read.
ghost use Rattle.std.specs.Prelude.{◌≡◌, []};
ghost use Rattle.lc_sexp.specs.Shown.{rest_of, number_of, owner_of, text_of, atom_number};
ghost use Rattle.lc_reading.specs.Parts.{tree_of, place_of};
ghost use Rattle.lc_reading.specs.Results.{IsReading};
ghost use Rattle.lc_reading.specs.Words.{names_in};
ghost use Rattle.lc_term.specs.View.{term_of};
ghost use Rattle.lc_text.specs.Seen.{terms_of};
ghost use Rattle.lc_reading.specs.Readings.{mapped};
ghost use Rattle.lc_text.specs.Terms.{bound_index, variable_reading, number_reading, numbered_reading, word_reading, atom_reading, term_reading, terms_reading, product_reading, access_reading, operation_with, sum_of, product_of, access_of};

use crate::column::read_bound_column;
use crate::made::{whole_access, whole_product, whole_sum};
use crate::scope::{Extra, Scope};
use crate::words::{Operation, operation_of};
use lc_base::is_name;
use lc_reading::{Part, Pass, ReadFault, Reads, both, ended, headed, two, within, wrong};
use lc_sexp::{Atom, Cursor, Item, Misfit};
use lc_term::{ColExpr, Term};
use std::alloc::Global;

/// How many quantifiers are between a place and the innermost one that binds a name.
fn bound_index(bound: &[&str], text: &str) -> Option<usize>
    ensures { result ≡ bound_index (names_in bound.now) text.now }
{
    for inside in 0..bound.len() {
        if text == bound[bound.len() - 1 - inside] {
            return Some(inside);
        }
    }
    None
}

/// The variable of a name.
fn read_variable<S: Scope>(scope: &S, bound: &[&str], name: &Atom<'_>) -> Result<Term, ReadFault>
    ensures { IsReading term_of (variable_reading (S.names scope.now) (names_in bound.now) (atom_number name.now) (text_of name.now)) result }
{
    let term = match bound_index(bound, name.text()) {
        Some(index) => match u32::try_from(index) {
            Ok(index) => Term::Bound(index),
            Err(_) => return Err(ReadFault::OutOfMemory),
        },
        None => match scope.variable(name.text()) {
            Some(variable) => Term::Variable(variable),
            None => return Err(wrong(Pass::Unknown, name.number())),
        },
    };
    within(*name, term)
}

/// A NUMBER.
pub fn read_number(part: Part<'_>) -> Result<i64, ReadFault>
    ensures { IsReading (λ z. z) (number_reading (place_of part.entry) (tree_of part.entry)) result }
{
    match part.item() {
        Item::Atom(atom) => Ok(atom.integer()?),
        Item::List(list) => Err(wrong(Pass::Shape, list.owner())),
    }
}

/// A variable `?k`, where such variables are allowed.
fn read_numbered<S: Scope>(scope: &S, atom: &Atom<'_>) -> Result<Term, ReadFault>
    ensures { IsReading term_of (numbered_reading (S.names scope.now) (atom_number atom.now) (text_of atom.now)) result }
{
    if scope.allows(Extra::NumberedVariables) {
        Ok(Term::Variable(atom.variable()?))
    } else {
        Err(wrong(Pass::Shape, atom.number()))
    }
}

/// A NAME or a variable `?k`.
fn read_word<S: Scope>(scope: &S, bound: &[&str], atom: &Atom<'_>) -> Result<Term, ReadFault>
    ensures { IsReading term_of (word_reading (S.names scope.now) (names_in bound.now) (atom_number atom.now) (text_of atom.now)) result }
{
    if is_name(atom.text().as_bytes()) {
        read_variable(scope, bound, atom)
    } else {
        read_numbered(scope, atom)
    }
}

/// A NUMBER, a NAME or a variable `?k`. It is separate from the readers of terms, which call one another.
#[inline(never)]
fn read_atom<S: Scope>(scope: &S, bound: &[&str], atom: &Atom<'_>) -> Result<Term, ReadFault>
    ensures { IsReading term_of (atom_reading (S.names scope.now) (names_in bound.now) (atom_number atom.now) (text_of atom.now)) result }
{
    match atom.integer() {
        Ok(number) => Ok(Term::Number(number)),
        Err(Misfit::Bound(item)) => Err(wrong(Pass::Bound, item)),
        Err(Misfit::Shape(_)) => read_word(scope, bound, atom),
    }
}

/// The term that an item reads as.
pub fn read_term<S: Scope>(alloc: Global, scope: &S, part: Part<'_>) -> Result<Term, ReadFault>
    ensures { IsReading term_of (term_reading (S.names scope.now) [] (place_of part.entry) (tree_of part.entry)) result }
{
    read_bound_term(alloc, scope, &[], &part)
}

/// The term that an item reads as, where quantifiers bind these names.
#[cycle(read_term)]
pub(crate) fn read_bound_term<S: Scope>(
    alloc: Global,
    scope: &S,
    bound: &[&str],
    part: &Part<'_>,
) -> Result<Term, ReadFault>
    ensures { IsReading term_of (term_reading (S.names scope.now) (names_in bound.now) (place_of part.now) (tree_of part.now)) result }
{
    let list = match part.item() {
        Item::Atom(atom) => return read_atom(scope, bound, &atom),
        Item::List(list) => list,
    };
    let (word, operands) = headed(list)?;
    match operation_of(word) {
        Some(operation) => read_operation(alloc, scope, bound, operation, operands),
        None => Err(wrong(Pass::Shape, list.owner())),
    }
}

/// The term of a list's other parts that begins so.
#[cycle(read_term)]
fn read_operation<S: Scope>(
    alloc: Global,
    scope: &S,
    bound: &[&str],
    operation: Operation,
    list: Cursor<'_>,
) -> Result<Term, ReadFault>
    ensures { IsReading term_of (operation_with (S.names scope.now) (names_in bound.now) operation (owner_of list.entry) (number_of list.entry) (rest_of list.entry)) result }
{
    match operation {
        Operation::Add | Operation::Subtract => read_sum(alloc, scope, bound, operation, list),
        Operation::Multiply => read_product(alloc, scope, bound, list),
        Operation::Read => read_access(alloc, scope, bound, list),
    }
}

/// The sum or the difference of two terms, which must be the whole rest of a list.
#[cycle(read_term)]
#[inline(never)]
fn read_sum<S: Scope>(
    alloc: Global,
    scope: &S,
    bound: &[&str],
    operation: Operation,
    list: Cursor<'_>,
) -> Result<Term, ReadFault>
    ensures { IsReading term_of (mapped (sum_of operation) (terms_reading (S.names scope.now) (names_in bound.now) (owner_of list.entry) (number_of list.entry) (rest_of list.entry))) result }
{
    let (first, second, rest) = two(list)?;
    let left = read_bound_term(alloc, scope, bound, &first);
    let right = read_bound_term(alloc, scope, bound, &second);
    whole_sum(alloc, operation, left, right, rest)
}

/// Two terms, which must be the whole rest of a list.
pub(crate) fn read_terms<S: Scope>(
    alloc: Global,
    scope: &S,
    bound: &[&str],
    list: Cursor<'_>,
) -> Result<(Term, Term), ReadFault>
    ensures { IsReading terms_of (terms_reading (S.names scope.now) (names_in bound.now) (owner_of list.entry) (number_of list.entry) (rest_of list.entry)) result }
{
    let (first, second, rest) = two(list)?;
    let left = read_bound_term(alloc, scope, bound, &first);
    let right = read_bound_term(alloc, scope, bound, &second);
    ended(both(left, right), rest)
}

/// The product of a number and a term, which must be the whole rest of a list.
#[cycle(read_term)]
#[inline(never)]
fn read_product<S: Scope>(
    alloc: Global,
    scope: &S,
    bound: &[&str],
    list: Cursor<'_>,
) -> Result<Term, ReadFault>
    ensures { IsReading term_of (mapped product_of (product_reading (S.names scope.now) (names_in bound.now) (owner_of list.entry) (number_of list.entry) (rest_of list.entry))) result }
{
    let (first, second, rest) = two(list)?;
    let factor = read_number(first);
    let term = read_bound_term(alloc, scope, bound, &second);
    whole_product(alloc, factor, term, rest)
}

/// The cell of a column at an index, which must be the whole rest of a list.
#[cycle(read_term)]
#[inline(never)]
fn read_access<S: Scope>(
    alloc: Global,
    scope: &S,
    bound: &[&str],
    list: Cursor<'_>,
) -> Result<Term, ReadFault>
    ensures { IsReading term_of (mapped access_of (access_reading (S.names scope.now) (names_in bound.now) (owner_of list.entry) (number_of list.entry) (rest_of list.entry))) result }
{
    let (first, second, rest) = two(list)?;
    let column = read_bound_column(alloc, scope, bound, list.owner(), &first);
    let index = read_bound_term(alloc, scope, bound, &second);
    whole_access(alloc, column, index, rest)
}

/// Reads terms, with the names of this scope.
#[derive(Drop)]
pub struct Terms<'s, S>(pub &'s S);

impl<S: Scope> Reads for Terms<'_, S> {
    ghost use Rattle.std.specs.Prelude.{[]};
    ghost use Rattle.lc_term.specs.Syntax.{Term};
    ghost use Rattle.lc_term.specs.View.{term_of};
    ghost use Rattle.lc_text.specs.Terms.{term_reading};

    type Value = Term;

    ghost Meaning = { Term };

    ghost meaning = { term_of };

    ghost reading = { λ reader. term_reading (S.names reader.0.now) [] };

    fn read(&self, alloc: Global, part: Part<'_>) -> Result<Term, ReadFault> {
        read_term(alloc, self.0, part)
    }
}

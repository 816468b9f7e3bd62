//! How formulas are read.
ghost use Rattle.std.specs.Prelude.{◌≡◌, [], ◌∷◌, ◌++◌};
ghost use Rattle.lc_sexp.specs.Shown.{rest_of, number_of, owner_of};
ghost use Rattle.lc_reading.specs.Parts.{tree_of, place_of};
ghost use Rattle.lc_reading.specs.Results.{IsReading};
ghost use Rattle.lc_reading.specs.Words.{names_in};
ghost use Rattle.lc_term.specs.View.{formula_of};
ghost use Rattle.lc_term.specs.Syntax as T;
ghost use Rattle.lc_reading.specs.Readings.{mapped};
ghost use Rattle.lc_text.specs.Formulas.{binder_reading, bound_inside, comparison_of, joined_by, implication_of, quantified_by, formula_reading, formulas_reading, only_reading, both_reading, body_reading, connective_with};
ghost use Rattle.lc_text.specs.Seen.{boxed, boxed_pair, row_of};
ghost use Rattle.lc_text.specs.Terms.{terms_reading};

use crate::made::{
    made_comparison, made_implication, made_negation, made_quantifier, made_row, out_of_box,
    pushed_out,
};
use crate::scope::Scope;
use crate::term::read_terms;
use crate::words::{Connective, connective_due};
use lc_reading::{
    Part, Pass, ReadFault, both, ended, headed, is_reserved, name_at, next_part, one, two, within,
    wrong,
};
use lc_sexp::{Cursor, Item};
use lc_term::Formula;
use std::alloc::Global;

/// The formula that an item reads as.
pub fn read_formula<S: Scope>(
    alloc: Global,
    scope: &S,
    part: Part<'_>,
) -> Result<Formula, ReadFault>
    ensures { IsReading formula_of (formula_reading (S.names scope.now) [] (place_of part.entry) (tree_of part.entry)) result }
{
    out_of_box(read_boxed_formula(alloc, scope, part))
}

/// The same in a box.
pub fn read_boxed_formula<S: Scope>(
    alloc: Global,
    scope: &S,
    part: Part<'_>,
) -> Result<Box<Formula>, ReadFault>
    ensures { IsReading boxed (formula_reading (S.names scope.now) [] (place_of part.entry) (tree_of part.entry)) result }
{
    let mut bound = Vec::new(alloc);
    read_bound_formula(alloc, scope, &mut bound, part)
}

/// The formulas that the items read as that are left in a list.
pub fn read_formulas<S: Scope>(
    alloc: Global,
    scope: &S,
    list: Cursor<'_>,
) -> Result<Vec<Formula>, ReadFault>
    ensures { IsReading row_of (formulas_reading (S.names scope.now) [] (number_of list.entry) (rest_of list.entry)) result }
{
    let mut bound = Vec::new(alloc);
    read_bound_formulas(alloc, scope, &mut bound, list)
}

/// The formula that an item reads as, where quantifiers bind these names.
#[cycle(read_formula)]
fn read_bound_formula<'a, S: Scope>(
    alloc: Global,
    scope: &S,
    bound: &mut Vec<&'a str>,
    part: Part<'a>,
) -> Result<Box<Formula>, ReadFault>
    ensures read { IsReading boxed (formula_reading (S.names scope.now) (names_in bound.old.items) (place_of part.entry) (tree_of part.entry)) result }
    ensures bound { bound.new.items ≡ bound.old.items }
{
    let list = match part.item() {
        Item::Atom(atom) => return Err(wrong(Pass::Shape, atom.number())),
        Item::List(list) => list,
    };
    let (word, parts) = headed(list)?;
    match connective_due(scope, word) {
        Some(connective) => read_connective(alloc, scope, bound, connective, parts),
        None => Err(wrong(Pass::Shape, list.owner())),
    }
}

/// The formula of a list's other parts that begins so.
#[cycle(read_formula)]
fn read_connective<'a, S: Scope>(
    alloc: Global,
    scope: &S,
    bound: &mut Vec<&'a str>,
    connective: Connective,
    list: Cursor<'a>,
) -> Result<Box<Formula>, ReadFault>
    ensures read { IsReading boxed (connective_with (S.names scope.now) (names_in bound.old.items) connective (owner_of list.entry) (number_of list.entry) (rest_of list.entry)) result }
    ensures bound { bound.new.items ≡ bound.old.items }
{
    match connective {
        Connective::Le | Connective::Eq => read_comparison(alloc, scope, bound, connective, list),
        Connective::Not => read_negation(alloc, scope, bound, list),
        Connective::And | Connective::Or => read_row(alloc, scope, bound, connective, list),
        Connective::Implies => read_implication(alloc, scope, bound, list),
        Connective::Forall | Connective::Exists => {
            read_quantifier(alloc, scope, bound, connective, list)
        }
    }
}

/// A comparison of two terms, which must be the whole rest of a list.
#[inline(never)]
fn read_comparison<S: Scope>(
    alloc: Global,
    scope: &S,
    bound: &[&str],
    connective: Connective,
    list: Cursor<'_>,
) -> Result<Box<Formula>, ReadFault>
    ensures { IsReading boxed (mapped (comparison_of connective) (terms_reading (S.names scope.now) (names_in bound.now) (owner_of list.entry) (number_of list.entry) (rest_of list.entry))) result }
{
    made_comparison(alloc, connective, read_terms(alloc, scope, bound, list))
}

/// The negation of a formula, which must be the whole rest of a list.
#[cycle(read_formula)]
#[inline(never)]
fn read_negation<'a, S: Scope>(
    alloc: Global,
    scope: &S,
    bound: &mut Vec<&'a str>,
    list: Cursor<'a>,
) -> Result<Box<Formula>, ReadFault>
    ensures read { IsReading boxed (mapped T.Not (only_reading (S.names scope.now) (names_in bound.old.items) (owner_of list.entry) (number_of list.entry) (rest_of list.entry))) result }
    ensures bound { bound.new.items ≡ bound.old.items }
{
    made_negation(alloc, read_only(alloc, scope, bound, list))
}

/// The conjunction or the disjunction of the formulas that are left in a list.
#[cycle(read_formula)]
#[inline(never)]
fn read_row<'a, S: Scope>(
    alloc: Global,
    scope: &S,
    bound: &mut Vec<&'a str>,
    connective: Connective,
    list: Cursor<'a>,
) -> Result<Box<Formula>, ReadFault>
    ensures read { IsReading boxed (mapped (joined_by connective) (formulas_reading (S.names scope.now) (names_in bound.old.items) (number_of list.entry) (rest_of list.entry))) result }
    ensures bound { bound.new.items ≡ bound.old.items }
{
    made_row(
        alloc,
        connective,
        read_bound_formulas(alloc, scope, bound, list),
    )
}

/// The implication of two formulas, which must be the whole rest of a list.
#[cycle(read_formula)]
#[inline(never)]
fn read_implication<'a, S: Scope>(
    alloc: Global,
    scope: &S,
    bound: &mut Vec<&'a str>,
    list: Cursor<'a>,
) -> Result<Box<Formula>, ReadFault>
    ensures read { IsReading boxed (mapped implication_of (both_reading (S.names scope.now) (names_in bound.old.items) (owner_of list.entry) (number_of list.entry) (rest_of list.entry))) result }
    ensures bound { bound.new.items ≡ bound.old.items }
{
    made_implication(alloc, read_both(alloc, scope, bound, list))
}

/// The quantifier of a name over the formula in which it is bound, which must be the whole rest of a list.
#[cycle(read_formula)]
#[inline(never)]
fn read_quantifier<'a, S: Scope>(
    alloc: Global,
    scope: &S,
    bound: &mut Vec<&'a str>,
    connective: Connective,
    list: Cursor<'a>,
) -> Result<Box<Formula>, ReadFault>
    ensures read { IsReading boxed (mapped (quantified_by connective) (body_reading (S.names scope.now) (names_in bound.old.items) (owner_of list.entry) (number_of list.entry) (rest_of list.entry))) result }
    ensures bound { bound.new.items ≡ bound.old.items }
{
    made_quantifier(alloc, connective, read_body(alloc, scope, bound, list))
}

/// One formula, which must be the whole rest of a list.
#[cycle(read_formula)]
fn read_only<'a, S: Scope>(
    alloc: Global,
    scope: &S,
    bound: &mut Vec<&'a str>,
    list: Cursor<'a>,
) -> Result<Box<Formula>, ReadFault>
    ensures read { IsReading boxed (only_reading (S.names scope.now) (names_in bound.old.items) (owner_of list.entry) (number_of list.entry) (rest_of list.entry)) result }
    ensures bound { bound.new.items ≡ bound.old.items }
{
    let (part, rest) = one(list)?;
    let formula = read_bound_formula(alloc, scope, bound, part);
    ended(formula, rest)
}

/// Two formulas, which must be the whole rest of a list.
#[cycle(read_formula)]
fn read_both<'a, S: Scope>(
    alloc: Global,
    scope: &S,
    bound: &mut Vec<&'a str>,
    list: Cursor<'a>,
) -> Result<(Box<Formula>, Box<Formula>), ReadFault>
    ensures read { IsReading boxed_pair (both_reading (S.names scope.now) (names_in bound.old.items) (owner_of list.entry) (number_of list.entry) (rest_of list.entry)) result }
    ensures bound { bound.new.items ≡ bound.old.items }
{
    let (first, second, rest) = two(list)?;
    let left = read_bound_formula(alloc, scope, bound, first);
    let right = read_bound_formula(alloc, scope, bound, second);
    ended(both(left, right), rest)
}

/// The formulas that the items read as that are left in a list.
#[cycle(read_formula)]
fn read_bound_formulas<'a, S: Scope>(
    alloc: Global,
    scope: &S,
    bound: &mut Vec<&'a str>,
    list: Cursor<'a>,
) -> Result<Vec<Formula>, ReadFault>
    ensures read { IsReading row_of (formulas_reading (S.names scope.now) (names_in bound.old.items) (number_of list.entry) (rest_of list.entry)) result }
    ensures bound { bound.new.items ≡ bound.old.items }
{
    let mut rest = list;
    let mut formulas = Ok(Vec::with_capacity(alloc, list.len())?);
    'parts: loop {
        let Ok(part) = next_part(&mut rest) else {
            return formulas;
        };
        let formula = read_bound_formula(alloc, scope, bound, part);
        formulas = pushed_out(formulas, formula);
    }
}

/// The name that a quantifier binds.
fn read_binder(part: Part<'_>) -> Result<(), ReadFault>
    ensures { IsReading (λ u. u) (binder_reading (place_of part.entry) (tree_of part.entry)) result }
{
    let name = name_at(part)?;
    if is_reserved(name.text()) {
        return Err(wrong(Pass::Repeated, name.number()));
    }
    within(name, ())
}

/// A name and the formula in which it is bound, which must be the whole rest of a list.
#[cycle(read_formula)]
fn read_body<'a, S: Scope>(
    alloc: Global,
    scope: &S,
    bound: &mut Vec<&'a str>,
    list: Cursor<'a>,
) -> Result<Box<Formula>, ReadFault>
    ensures read { IsReading boxed (body_reading (S.names scope.now) (names_in bound.old.items) (owner_of list.entry) (number_of list.entry) (rest_of list.entry)) result }
    ensures bound { bound.new.items ≡ bound.old.items }
{
    let (first, second, rest) = two(list)?;
    let name = read_binder(first);
    let body = read_inside(alloc, scope, bound, first, second);
    let ((), body) = ended(both(name, body), rest)?;
    Ok(body)
}

/// The formula that an item reads as inside a quantifier that binds what its first part is.
#[cycle(read_formula)]
fn read_inside<'a, S: Scope>(
    alloc: Global,
    scope: &S,
    bound: &mut Vec<&'a str>,
    binder: Part<'a>,
    part: Part<'a>,
) -> Result<Box<Formula>, ReadFault>
    ensures read { IsReading boxed (formula_reading (S.names scope.now) (bound_inside (tree_of binder.entry) (names_in bound.old.items)) (place_of part.entry) (tree_of part.entry)) result }
    ensures bound { bound.new.items ≡ bound.old.items }
{
    match binder.item() {
        Item::List(_) => read_bound_formula(alloc, scope, bound, part),
        Item::Atom(atom) => read_named(alloc, scope, bound, atom.text(), part),
    }
}

/// The formula that an item reads as inside a quantifier that binds a name.
#[cycle(read_formula)]
fn read_named<'a, S: Scope>(
    alloc: Global,
    scope: &S,
    bound: &mut Vec<&'a str>,
    name: &'a str,
    part: Part<'a>,
) -> Result<Box<Formula>, ReadFault>
    ensures read { IsReading boxed (formula_reading (S.names scope.now) (names_in bound.old.items ++ (name.now ∷ [])) (place_of part.entry) (tree_of part.entry)) result }
    ensures bound { bound.new.items ≡ bound.old.items }
{
    bound.push(name)?;
    let body = read_bound_formula(alloc, scope, bound, part);
    bound.pop();
    body
}

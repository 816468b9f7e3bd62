//! The types of terms and column expressions: copies, and whether two are the same.
ghost use Rattle.std.specs.Prelude.{◌≡◌, IfOk, IsTrue, ◌↔◌};
ghost use Rattle.lc_term.specs.Syntax.{Read};
ghost use Rattle.lc_term.specs.View.{term_of, column_of};
ghost use Rattle.lc_term.specs.Equal.{term_eq, column_eq};
ghost use Rattle.lc_term.specs.EqualLaws.{term_eq_equiv, column_eq_equiv};
ghost use Rattle.std.specs.Cmp.{on_equiv, partial_equiv_from_equiv};

use crate::chain::{base_of, chain_of, with_store};
use lc_base::{ColId, OutOfMemory};
use std::alloc::Global;

/// A whole number, as a function of the columns and the variables.
#[cycle(term)]
pub enum Term {
    /// A number.
    Number(i64),
    /// A free variable, by its number.
    Variable(u32),
    /// A bound variable, by the number of quantifiers between it and its own.
    Bound(u32),
    /// A sum.
    Add(Box<Term>, Box<Term>),
    /// A difference.
    Subtract(Box<Term>, Box<Term>),
    /// A product by a number.
    Multiply(i64, Box<Term>),
    /// What a column has at an index.
    Read(Box<ColExpr>, Box<Term>),
}

/// A column: a whole number in each cell, the cells being numbered by the whole numbers.
#[cycle(term)]
pub enum ColExpr {
    /// A column of the state.
    Base(ColId),
    /// A column with a value, the last part, stored at an index, the second.
    Store(Box<ColExpr>, Box<Term>, Box<Term>),
    /// The column `Affine(a, b)` with `a * i + b` in cell i.
    Affine(i64, i64),
}

// Written out and not derived, so that dropping a term is one call, and not a case for each variant: the
// proofs of all that holds terms are shorter by it.
impl Drop for Term {
    #[cycle(drop_term)]
    fn drop(self) {
        match self {
            Term::Number(_) | Term::Variable(_) | Term::Bound(_) => {}
            Term::Add(_, _) | Term::Subtract(_, _) => {}
            Term::Multiply(_, _) => {}
            Term::Read(_, _) => {}
        }
    }
}

// By a loop, so that a long chain of stores is dropped with little stack.
impl Drop for ColExpr {
    #[cycle(drop_term)]
    fn drop(mut self) {
        loop {
            match self {
                ColExpr::Base(_) | ColExpr::Affine(_, _) => return,
                ColExpr::Store(column, _, _) => self = Box::into_inner(column),
            }
        }
    }
}

impl Term {
    /// What a column has at an index.
    pub fn read(alloc: Global, column: ColExpr, index: Term) -> Result<Term, OutOfMemory>
        ensures { IfOk result (λ read. term_of read ≡ Read (column_of column) (term_of index)) }
    {
        let column = Box::new(alloc, column)?;
        Ok(Term::Read(column, Box::new(alloc, index)?))
    }

    /// The same term, in memory of its own.
    #[cycle(copy_term)]
    pub fn try_clone(&self, alloc: Global) -> Result<Term, OutOfMemory>
        ensures { IfOk result (λ copy. term_of copy ≡ term_of self.now) }
    {
        match self {
            Term::Number(number) => Ok(Term::Number(*number)),
            Term::Variable(number) => Ok(Term::Variable(*number)),
            Term::Bound(number) => Ok(Term::Bound(*number)),
            Term::Add(left, right) => {
                Ok(Term::Add(boxed_copy(alloc, left)?, boxed_copy(alloc, right)?))
            }
            Term::Subtract(left, right) => Ok(Term::Subtract(
                boxed_copy(alloc, left)?,
                boxed_copy(alloc, right)?,
            )),
            Term::Multiply(factor, term) => Ok(Term::Multiply(*factor, boxed_copy(alloc, term)?)),
            Term::Read(column, index) => Ok(Term::Read(
                Box::new(alloc, column.try_clone(alloc)?)?,
                boxed_copy(alloc, index)?,
            )),
        }
    }
}

// The same term in a box. It is a function of its own, so that each level of a term takes little of the stack.
#[cycle(copy_term)]
#[inline(never)]
fn boxed_copy(alloc: Global, term: &Term) -> Result<Box<Term>, OutOfMemory>
    ensures { IfOk result (λ copy. term_of copy.value ≡ term_of term.now) }
{
    Ok(Box::new(alloc, term.try_clone(alloc)?)?)
}

impl ColExpr {
    /// The same column expression, in memory of its own. It is a function of its own for the same reason.
    #[cycle(copy_term)]
    #[inline(never)]
    pub fn try_clone(&self, alloc: Global) -> Result<ColExpr, OutOfMemory>
        ensures { IfOk result (λ copy. column_of copy ≡ column_of self.now) }
    {
        let mut chain = chain_of(alloc, self)?;
        let mut copy = base_of(chain.base);
        'stores: while let Some(store) = chain.stores.pop() {
            let index = store.index.try_clone(alloc)?;
            let value = store.value.try_clone(alloc)?;
            copy = with_store(alloc, copy, index, value)?;
        }
        Ok(copy)
    }
}

impl PartialEq for Term {
    ghost eq = { λ left right. term_eq (term_of left) (term_of right) };

    ghost laws = { partial_equiv_from_equiv (on_equiv term_of term_eq_equiv) };

    fn eq(&self, other: &Term) -> bool {
        is_same_term(self, other)
    }
}

impl Eq for Term {
    ghost laws = { on_equiv term_of term_eq_equiv };
}

impl PartialEq for ColExpr {
    ghost eq = { λ left right. column_eq (column_of left) (column_of right) };

    ghost laws = { partial_equiv_from_equiv (on_equiv column_of column_eq_equiv) };

    fn eq(&self, other: &ColExpr) -> bool {
        is_same_column(self, other)
    }
}

impl Eq for ColExpr {
    ghost laws = { on_equiv column_of column_eq_equiv };
}

#[cycle(is_same_term)]
fn is_same_term(left: &Term, right: &Term) -> bool
    ensures { result ≡ term_eq (term_of left.now) (term_of right.now) }
{
    match (left, right) {
        (Term::Number(n), Term::Number(m)) => n == m,
        (Term::Variable(n), Term::Variable(m)) => n == m,
        (Term::Bound(n), Term::Bound(m)) => n == m,
        (Term::Add(t, u), Term::Add(v, w)) => is_same_term(t, v) && is_same_term(u, w),
        (Term::Subtract(t, u), Term::Subtract(v, w)) => is_same_term(t, v) && is_same_term(u, w),
        (Term::Multiply(n, t), Term::Multiply(m, v)) => n == m && is_same_term(t, v),
        (Term::Read(c, i), Term::Read(d, j)) => is_same_column(c, d) && is_same_term(i, j),
        _ => false,
    }
}

#[cycle(is_same_term)]
fn is_same_column(left: &ColExpr, right: &ColExpr) -> bool
    ensures { result ≡ column_eq (column_of left.now) (column_of right.now) }
{
    let (mut mine, mut other) = (left, right);
    'stores: loop {
        match (mine, other) {
            (ColExpr::Base(c), ColExpr::Base(d)) => return c == d,
            (ColExpr::Store(c, i, v), ColExpr::Store(d, j, w)) => {
                if !is_same_term(i, j) || !is_same_term(v, w) {
                    return false;
                }
                mine = c;
                other = d;
            }
            (ColExpr::Affine(a, b), ColExpr::Affine(c, d)) => return a == c && b == d,
            _ => return false,
        }
    }
}

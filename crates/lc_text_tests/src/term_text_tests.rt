//! What texts read as and print as, and their flaws, are cases of the program `lc_cases`.
ghost use Rattle.std.specs.Prelude.{IfOk};
ghost use Rattle.lc_table.specs.Tables.{IsTerm};

use lc_base::{ColId, OutOfMemory};
use lc_copy::formula_tree;
use lc_put::{Put, PutColumns, PutVariables, nothing_replaced, replace, replace_term};
use lc_table::{TermId, Terms};
use lc_term::{ColExpr, Formula, Term};
use lc_text::{Spelling, write_formula};
use std::alloc::Global;
use std::test::Fail;

/// Variables as `?k`, and columns by a letter and their numbers.
#[derive(Clone, Copy)]
struct Numbers;

impl Spelling for Numbers {
    ghost use Rattle.std.specs.Prelude.{codes, ◌++◌};
    ghost use Rattle.std.specs.Fmt.{decimal};

    ghost spelled = { λ _. record {
      variable = λ k. codes "?" ++ decimal k;
      column = λ c. codes "c" ++ decimal c;
    } };

    fn variable(&self, out: &mut String, number: u32) -> Result<(), OutOfMemory> {
        write!(out, "?{number}")?;
        Ok(())
    }

    fn column(&self, out: &mut String, column: ColId) -> Result<(), OutOfMemory> {
        let number = column.0;
        write!(out, "c{number}")?;
        Ok(())
    }
}

/// `(forall b1 (<= (rd c0 b1) ?0))` and `(<= (rd c0 ?1) ?0)`, below one quantifier.
fn comparisons(alloc: Global) -> Result<Formula, OutOfMemory> {
    let cell = Term::read(alloc, ColExpr::Base(ColId(0)), Term::Bound(0))?;
    let each = Formula::Forall(Box::new(alloc, Formula::Le(cell, Term::Variable(0)))?);
    let cell = Term::read(alloc, ColExpr::Base(ColId(0)), Term::Variable(1))?;
    let one = Formula::Le(cell, Term::Variable(0));
    Ok(Formula::And(Vec::from_array(alloc, [each, one])?))
}

/// The formula in text, below one quantifier, where columns and variables are replaced over numbers.
#[tactic(auto, using(lc_table::proofs::Later::is_formula_later, lc_table::proofs::Later::keeps_itself))]
fn replaced_text(alloc: Global, formula: &Formula, put: &Put<'_>) -> Result<String, OutOfMemory> {
    let mut terms = Terms::new(alloc);
    let formula = terms.enter_formula(alloc, formula)?;
    let formula = replace(
        &mut terms,
        alloc,
        put,
        &mut nothing_replaced(alloc),
        formula,
    )?;
    let mut text = String::new(alloc);
    write_formula(
        &mut text,
        &Numbers,
        1,
        &formula_tree(&terms, alloc, formula)?,
    )?;
    Ok(text)
}

/// `(store c0 ?0 7)`
fn stored_column(alloc: Global) -> Result<ColExpr, OutOfMemory> {
    let column = Box::new(alloc, ColExpr::Base(ColId(0)))?;
    let index = Box::new(alloc, Term::Variable(0))?;
    Ok(ColExpr::Store(column, index, Box::new(alloc, Term::Number(7))?))
}

/// Column 0 is stored in, and variable 0 is what the quantifier binds.
fn is_replaced(alloc: Global, formula: &Formula) -> Result<bool, OutOfMemory> {
    let columns = [(ColId(0), stored_column(alloc)?)];
    let put = Put {
        columns: PutColumns::Stored(&columns),
        variables: PutVariables::Terms(&[Term::Bound(0)]),
    };
    let want = "(and (forall b1 (<= (rd (store c0 ?0 7) b1) b0)) (<= (rd (store c0 ?0 7) 0) b0))";
    Ok(replaced_text(alloc, formula, &put)?.as_str() == want)
}

/// No column is given.
fn is_without_columns(alloc: Global, formula: &Formula) -> Result<bool, OutOfMemory> {
    let put = Put {
        columns: PutColumns::All(&[]),
        variables: PutVariables::Own,
    };
    let want = "(and (forall b1 (<= (rd (affine 0 0) b1) ?0)) (<= (rd (affine 0 0) ?1) ?0))";
    Ok(replaced_text(alloc, formula, &put)?.as_str() == want)
}

#[test]
fn replaces_columns_and_variables_at_once(rt: HostRuntime) -> Result<(), Fail> {
    let formula = comparisons(rt.alloc())?;
    assert!(rt; is_replaced(rt.alloc(), &formula)? & is_without_columns(rt.alloc(), &formula)?);
    Ok(())
}

/// A variable added to itself, and the result again, `times` times.
#[tactic(auto, using(lc_table::proofs::Later::is_term_later, lc_table::proofs::Later::keeps_itself))]
fn doubled(terms: &mut Terms, times: u32) -> Result<TermId, OutOfMemory>
    ensures { IfOk result (λ k. IsTerm terms.new k) }
{
    let mut sum = terms.variable(0)?;
    for _ in 0..times {
        sum = terms.add(sum, sum)?;
    }
    Ok(sum)
}

/// Whether a sum of 2 ^ 60 variables is replaced node by node, and but once.
#[tactic(auto, using(lc_table::proofs::Later::is_term_still, lc_table::proofs::Later::keeps_itself))]
fn is_replaced_once(alloc: Global) -> Result<bool, OutOfMemory> {
    let mut terms = Terms::new(alloc);
    let sum = doubled(&mut terms, 60)?;
    let ones = [Term::Number(1)];
    let put = Put {
        columns: PutColumns::Stored(&[]),
        variables: PutVariables::Terms(&ones),
    };
    let mut done = nothing_replaced(alloc);
    let entered = terms.len();
    let replaced = replace_term(&mut terms, alloc, &put, &mut done, sum)?;
    let grown = terms.len();
    let again = replace_term(&mut terms, alloc, &put, &mut done, sum)?;
    Ok((entered == 61) & (grown == 122) & (again == replaced) & (terms.len() == 122))
}

#[test]
fn what_is_shared_is_replaced_once(rt: HostRuntime) -> Result<(), Fail> {
    assert!(rt; is_replaced_once(rt.alloc())?);
    Ok(())
}

/// A formula is written after a text: whether it is there whole, or, on `OutOfMemory`, nothing of it.
fn is_whole_or_nothing(alloc: Global) -> Result<bool, OutOfMemory> {
    let formula = comparisons(alloc)?;
    let mut text = String::from_str(alloc, "so: ")?;
    let want = match write_formula(&mut text, &Numbers, 1, &formula) {
        Ok(()) => "so: (and (forall b1 (<= (rd c0 b1) ?0)) (<= (rd c0 ?1) ?0))",
        Err(OutOfMemory) => "so: ",
    };
    Ok(text.as_str() == want)
}

/// With any allocation refused: `OutOfMemory`, or the answer with ample memory.
#[test]
fn formula_with_memory_refused(rt: HostRuntime) {
    assert!(rt; is_whole_or_nothing(rt.alloc()).unwrap_or(true));
}

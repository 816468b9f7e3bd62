//! The type of paths past the riders of an edge.
ghost use Rattle.std.specs.Prelude.{◌≡◌, IfOk, length};
ghost use Rattle.lc_rider.specs.DutyView.{AreKnown, known_once};

use crate::duty::{Duty, Owing};
use crate::stored::store_in;
use lc_base::{ColId, OutOfMemory};
use lc_put::{PutNumbers, nothing_replaced, put_in_formula, put_in_term};
use lc_table::{ColExprId, FormulaId, TermId, Terms};
use lc_term::{Formula, Term};
use std::alloc::Global;

/// One way in which the riders of an edge may go, said in the state before the edge by numbers of a table: the facts that
/// distinguish it from the others, the columns after the riders, and what the marks on it ask for.
pub struct Path {
    facts: Vec<FormulaId>,
    columns: Vec<(ColId, ColExprId)>,
    marks: Vec<Duty>,
    ghost are_known: { AreKnown (length facts.items) marks.items } by { known_once (length facts.items) marks.items },
}

impl Drop for Path {
    fn drop(self) {
        let Path {
            facts: _,
            columns: _,
            marks: _,
        } = self;
    }
}

impl Path {
    ghost use Rattle.std.specs.Prelude.{◌≡◌, [], IfOk, length, map};
    ghost use Rattle.lc_table.specs.NodeTables.{Table};
    ghost use Rattle.lc_put.specs.PutNumbers.{columns_at, AreColumns, terms_in, AreTerms};
    ghost use Rattle.lc_term.specs.Replacement.{replacing, replace_term};
    ghost use Rattle.lc_term.specs.Said.{put, term_at, told};
    ghost use Rattle.lc_term.specs.Syntax as T;
    ghost use Rattle.lc_table.specs.Tables.{term_in, formulas_in, IsTerm, AreFormulas, HasTerm, HasFormula, Keeps};
    ghost use Rattle.lc_term.specs.View.{term_of, formula_of};
    ghost use Rattle.lc_rider.specs.Paths as S;
    ghost use Rattle.lc_rider.specs.Paths.{with_fact};
    ghost use Rattle.lc_rider.specs.DutyView.{AreKnown, AreGoals, owing_of, owed_in, duty_in};
    ghost use Rattle.lc_rider.specs.PathView.{path_in, IsPath, HasPath, with_columns, with_duty};

    /// What holds if this way is taken, in order.
    pub fn facts(&self) -> &[FormulaId]
        ensures trees { (ts : Table) → formulas_in ts result.now ≡ (path_in ts self.now).facts }
        ensures are { (ts : Table) → IsPath ts self.now → AreFormulas ts result.now }
    {
        &self.facts
    }

    /// The columns after the riders, over those before the edge: those in which something is stored, each with what it
    /// holds then.
    pub fn columns(&self) -> &[(ColId, ColExprId)]
        ensures trees { (ts : Table) → columns_at ts result.now ≡ (path_in ts self.now).columns }
        ensures are { (ts : Table) → IsPath ts self.now → AreColumns ts result.now }
    {
        &self.columns
    }

    /// What the marks ask for, in order.
    pub fn marks(&self) -> &[Duty]
        ensures duties { (ts : Table) → map (duty_in (path_in ts self.now).facts) (map (owed_in ts) result.now) ≡ (path_in ts self.now).duties }
        ensures goals { (ts : Table) → IsPath ts self.now → AreGoals ts result.now }
        ensures known { (ts : Table) → AreKnown (length (path_in ts self.now).facts) result.now }
    {
        &self.marks
    }

    // A term over the columns of this path and these variables, said of the state before the edge.
    pub(crate) fn said_before(
        &self,
        alloc: Global,
        terms: &mut Terms,
        variables: &[TermId],
        term: &Term,
    ) -> Result<TermId, OutOfMemory>
        requires path { IsPath terms.old self.now }
        requires variables { AreTerms terms.old variables.now }
        ensures id { IfOk result (λ k. HasTerm terms.new k
            (replace_term (replacing (path_in terms.old self.now).columns (term_at (terms_in terms.old variables.now))) (term_of term.now))) }
        ensures kept { Keeps terms.old terms.new }
    {
        let columns = &self.columns;
        let term = terms.enter_term(term)?;
        put_in_term(terms, alloc, PutNumbers { columns, variables }, term)
    }

    // A formula, said in the state before the edge.
    pub(crate) fn told_before(
        &self,
        alloc: Global,
        terms: &mut Terms,
        variables: &[TermId],
        formula: &Formula,
    ) -> Result<FormulaId, OutOfMemory>
        requires path { IsPath terms.old self.now }
        requires variables { AreTerms terms.old variables.now }
        ensures id { IfOk result (λ k. HasFormula terms.new k (told (path_in terms.old self.now).columns (terms_in terms.old variables.now) (formula_of formula.now))) }
        ensures kept { Keeps terms.old terms.new }
    {
        let columns = &self.columns;
        let formula = terms.enter_formula(alloc, formula)?;
        let mut done = nothing_replaced(alloc);
        put_in_formula(
            terms,
            alloc,
            PutNumbers { columns, variables },
            &mut done,
            formula,
        )
    }

    // The path that has these columns, and on which nothing is known and asked for.
    pub(crate) fn new(alloc: Global, columns: Vec<(ColId, ColExprId)>) -> Path
        ensures { (ts : Table) → AreColumns ts columns.items → HasPath ts result (record { columns = columns_at ts columns.items; facts = []; duties = [] }) }
    {
        Path {
            facts: Vec::new(alloc),
            columns,
            marks: Vec::new(alloc),
        }
    }

    // The same path in each table, in memory of its own.
    pub(crate) fn try_clone(&self, alloc: Global) -> Result<Path, OutOfMemory>
        ensures { IfOk result (λ path. (ts : Table) (q : S.Path) → HasPath ts self.now q → HasPath ts path q) }
    {
        Ok(Path {
            facts: Vec::from_slice(alloc, &self.facts)?,
            columns: Vec::from_slice(alloc, &self.columns)?,
            marks: Vec::from_slice(alloc, &self.marks)?,
        })
    }

    // One more fact, after the others.
    pub(crate) fn with_fact(self, fact: FormulaId) -> Result<Path, OutOfMemory>
        ensures { IfOk result (λ path. (ts : Table) (q : S.Path) (f : T.Formula) → HasPath ts self q → HasFormula ts fact f → HasPath ts path (with_fact q f)) }
    {
        let Path {
            mut facts,
            columns,
            marks,
        } = self;
        facts.push(fact)?;
        Ok(Path {
            facts,
            columns,
            marks,
        })
    }

    // One more thing that the rider at this place asks for, if all facts so far are known.
    pub(crate) fn with_duty(
        self,
        kind: Owing,
        rider: usize,
        goal: FormulaId,
    ) -> Result<Path, OutOfMemory>
        ensures { IfOk result (λ path. (ts : Table) (q : S.Path) (g : T.Formula) → HasPath ts self q → HasFormula ts goal g → HasPath ts path (with_duty q (owing_of kind) rider g)) }
    {
        let Path {
            facts,
            columns,
            mut marks,
        } = self;
        let known = facts.len();
        marks.push(Duty {
            kind,
            rider,
            known,
            goal,
        })?;
        Ok(Path {
            facts,
            columns,
            marks,
        })
    }

    // The same path with these columns.
    pub(crate) fn with_columns(self, columns: Vec<(ColId, ColExprId)>) -> Path
        ensures { (ts : Table) (q : S.Path) → HasPath ts self q → AreColumns ts columns.items → HasPath ts result (with_columns q (columns_at ts columns.items)) }
    {
        let Path {
            facts,
            columns: _,
            marks,
        } = self;
        Path {
            facts,
            columns,
            marks,
        }
    }

    // A value is stored in a column at an index.
    pub(crate) fn with_store(
        self,
        terms: &mut Terms,
        column: ColId,
        index: TermId,
        value: TermId,
    ) -> Result<Path, OutOfMemory>
        requires path { IsPath terms.old self }
        requires index { IsTerm terms.old index }
        requires value { IsTerm terms.old value }
        ensures path { IfOk result (λ path. HasPath terms.new path (with_columns (path_in terms.old self)
            (put (path_in terms.old self).columns (record { column = column.0; index = term_in terms.old index; value = term_in terms.old value })))) }
        ensures kept { Keeps terms.old terms.new }
    {
        let Path {
            facts,
            mut columns,
            marks,
        } = self;
        store_in(terms, &mut columns, column, index, value)?;
        Ok(Path {
            facts,
            columns,
            marks,
        })
    }
}

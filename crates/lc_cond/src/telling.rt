//! Conditions of formulas in which columns and variables are replaced.
ghost use Rattle.std.specs.Prelude.{map, OnOk};
ghost use Rattle.lc_put.specs.Put.{Remembers, replacement_of};
ghost use Rattle.lc_put.specs.PutNumbers.{AreColumns, AreTerms, replacement_at};
ghost use Rattle.lc_term.specs.Replacement.{replace};
ghost use Rattle.lc_table.specs.Tables.{formulas_in, AreFormulas, Keeps};
ghost use Rattle.lc_cond.specs.Adding.{Adds, Under};
ghost use Rattle.lc_cond.specs.Conditions.{conditions_of};
ghost use Rattle.lc_cond.specs.Heads.{head_of, MakesTold, MakesBothTold};

use crate::condition::Condition;
use crate::entering::{told, told_by_number};
use crate::making::{Head, push_each};
use lc_base::OutOfMemory;
use lc_kernel::Hypotheses;
use lc_put::{Put, PutNumbers, ReplacedNodes, nothing_replaced};
use lc_table::{FormulaId, Terms};
use std::alloc::Global;

/// A condition for each of these formulas, with what is put in.
pub(crate) fn push_all_told(
    alloc: Global,
    terms: &mut Terms,
    head: Head,
    put: &Put<'_>,
    known: &Hypotheses,
    formulas: &[FormulaId],
    conditions: &mut Vec<Condition>,
) -> Result<(), OutOfMemory>
    requires { AreFormulas terms.old formulas.now }
    ensures list { OnOk result (Under terms.old known.now (λ hs. Adds conditions.old.items terms.new conditions.new.items
        (conditions_of (head_of head) hs (map (replace (replacement_of put.now)) (formulas_in terms.old formulas.now))))) }
    ensures kept { Keeps terms.old terms.new }
{
    let mut done = nothing_replaced(alloc);
    let goals = told(alloc, terms, put, &mut done, formulas)?;
    push_each(head, known, &goals, conditions)
}

// A condition for each of these formulas, with columns and variables put in by their numbers.
fn push_told(
    alloc: Global,
    terms: &mut Terms,
    head: Head,
    put: PutNumbers<'_>,
    done: &mut ReplacedNodes,
    known: &Hypotheses,
    formulas: &[FormulaId],
    conditions: &mut Vec<Condition>,
) -> Result<(), OutOfMemory>
    requires columns { AreColumns terms.old put.columns.now }
    requires variables { AreTerms terms.old put.variables.now }
    requires formulas { AreFormulas terms.old formulas.now }
    requires done { Remembers (replacement_at terms.old put.columns.now put.variables.now) terms.old done.old }
    ensures list { OnOk result (MakesTold head terms.old terms.new put.entry.columns.now put.entry.variables.now known.now formulas.now conditions.old.items conditions.new.items) }
    ensures kept { Keeps terms.old terms.new }
    ensures done { OnOk result (Remembers (replacement_at terms.new put.entry.columns.now put.entry.variables.now) terms.new done.new) }
{
    let goals = told_by_number(alloc, terms, put, done, formulas)?;
    push_each(head, known, &goals, conditions)
}

/// A condition for each of some formulas, then for each of others, with columns and variables put in by their
/// numbers.
pub(crate) fn push_both_told(
    alloc: Global,
    terms: &mut Terms,
    heads: (Head, Head),
    put: PutNumbers<'_>,
    known: &Hypotheses,
    first: &[FormulaId],
    second: &[FormulaId],
    conditions: &mut Vec<Condition>,
) -> Result<(), OutOfMemory>
    requires columns { AreColumns terms.old put.columns.now }
    requires variables { AreTerms terms.old put.variables.now }
    requires first { AreFormulas terms.old first.now }
    requires second { AreFormulas terms.old second.now }
    ensures list { OnOk result (MakesBothTold heads.0 heads.1 terms.old terms.new put.entry.columns.now put.entry.variables.now known.now first.now second.now
        conditions.old.items conditions.new.items) }
    ensures kept { Keeps terms.old terms.new }
{
    let mut done = nothing_replaced(alloc);
    push_told(
        alloc, terms, heads.0, put, &mut done, known, first, conditions,
    )?;
    push_told(
        alloc, terms, heads.1, put, &mut done, known, second, conditions,
    )
}

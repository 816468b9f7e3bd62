//! How a branch is read.
ghost use Rattle.std.specs.Prelude.{ℕ, List};
ghost use Rattle.lc_sexp.specs.Shown.{rest_of, number_of, owner_of};
ghost use Rattle.lc_term.specs.Syntax as T;
ghost use Rattle.lc_reading.specs.Parts.{tree_of, place_of};
ghost use Rattle.lc_reading.specs.Readings.{Reading, mapped};
ghost use Rattle.lc_reading.specs.Results.{IsReading};
ghost use Rattle.lc_seq.specs.Specification as S;
ghost use Rattle.lc_seq.specs.SpecView.{branch_of};
ghost use Rattle.lc_spec_text.specs.Branches.{updates_reading, replies_reading, branch_parts_reading, the_branch, branch_reading};
ghost use Rattle.lc_spec_text.specs.ScopeView.{columns_view};
ghost use Rattle.lc_spec_text.specs.Seen.{updates_of, terms_of, branch_parts};

use crate::scope::Columns;
use crate::update::Updates;
use lc_reading::{
    Part, Pass, ReadFault, Reads, behind_word, both, ended, read_counted, read_each, three, wrong,
};
use lc_seq::{Branch, Label};
use lc_sexp::{Cursor, Item};
use lc_term::{Formula, Term, Update};
use lc_text::{Scope, Terms, read_formula};
use std::alloc::Global;

/// `(UPDATE*)`
fn read_updates<S: Scope>(
    alloc: Global,
    columns: Columns<'_, '_>,
    scope: &S,
    part: Part<'_>,
) -> Result<Vec<Update>, ReadFault>
    ensures { IsReading updates_of (updates_reading (columns_view columns.entry) (S.names scope.now) (place_of part.entry) (tree_of part.entry)) result }
{
    match part.item() {
        Item::Atom(atom) => Err(wrong(Pass::Shape, atom.number())),
        Item::List(list) => read_each(alloc, &Updates { columns, scope }, list),
    }
}

/// `(T*)`, with exactly `count` terms. Without a count no list has as many.
fn read_replies<S: Scope>(
    alloc: Global,
    scope: &S,
    count: Option<u64>,
    part: Part<'_>,
) -> Result<Vec<Term>, ReadFault>
    ensures { IsReading terms_of (replies_reading (S.names scope.now) count (place_of part.entry) (tree_of part.entry)) result }
{
    let Some(count) = count else {
        return Err(wrong(Pass::Shape, part.number()));
    };
    match part.item() {
        Item::Atom(atom) => Err(wrong(Pass::Shape, atom.number())),
        Item::List(list) => read_counted(alloc, &Terms(scope), count, list),
    }
}

/// `F (UPDATE*) (T*)`, which must be the whole rest of a list.
pub(crate) fn read_branch_parts<S: Scope>(
    alloc: Global,
    columns: Columns<'_, '_>,
    scope: &S,
    count: Option<u64>,
    list: Cursor<'_>,
) -> Result<((Formula, Vec<Update>), Vec<Term>), ReadFault>
    ensures { IsReading branch_parts (branch_parts_reading (columns_view columns.entry) (S.names scope.now) count (owner_of list.entry) (number_of list.entry) (rest_of list.entry)) result }
{
    let (first, second, third, rest) = three(list)?;
    let guard = read_formula(alloc, scope, first);
    let updates = read_updates(alloc, columns, scope, second);
    let replies = read_replies(alloc, scope, count, third);
    ended(both(both(guard, updates), replies), rest)
}

/// The branch of these parts.
fn made_branch(
    parts: Result<((Formula, Vec<Update>), Vec<Term>), ReadFault>,
) -> Result<Branch, ReadFault>
    ensures { (r : Reading ((T.Formula × List S.Update) × List T.Term)) → IsReading branch_parts r parts → IsReading branch_of (mapped the_branch r) result }
{
    let ((guard, updates), replies) = parts?;
    Ok(Branch {
        label: Label::First,
        guard,
        updates,
        replies,
    })
}

/// `(branch F (UPDATE*) (T*))`
fn read_branch<S: Scope>(
    alloc: Global,
    columns: Columns<'_, '_>,
    scope: &S,
    count: Option<u64>,
    part: Part<'_>,
) -> Result<Branch, ReadFault>
    ensures { IsReading branch_of (branch_reading (columns_view columns.entry) (S.names scope.now) count (place_of part.entry) (tree_of part.entry)) result }
{
    let list = behind_word(part, "branch")?;
    made_branch(read_branch_parts(alloc, columns, scope, count, list))
}

/// Reads branches, each with `count` replies.
#[derive(Drop)]
pub(crate) struct Branches<'a, 'b, 's, S> {
    pub(crate) columns: Columns<'a, 'b>,
    pub(crate) scope: &'s S,
    pub(crate) count: Option<u64>,
}

impl<S: Scope> Reads for Branches<'_, '_, '_, S> {
    ghost use Rattle.lc_seq.specs.SpecView.{branch_of};
    ghost use Rattle.lc_seq.specs.Specification.{Branch};
    ghost use Rattle.lc_spec_text.specs.Branches.{branch_reading};
    ghost use Rattle.lc_spec_text.specs.ScopeView.{columns_view};

    type Value = Branch;

    ghost Meaning = { Branch };

    ghost meaning = { branch_of };

    ghost reading = { λ reader. branch_reading (columns_view reader.columns) (S.names reader.scope.now) reader.count };

    fn read(&self, alloc: Global, part: Part<'_>) -> Result<Branch, ReadFault> {
        read_branch(alloc, self.columns, self.scope, self.count, part)
    }
}

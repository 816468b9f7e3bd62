//! How the conjuncts of an invariant are read.
ghost use Rattle.std.specs.Prelude.{ℕ, List};
ghost use Rattle.lc_sexp.specs.Shown.{rest_of, number_of, owner_of};
ghost use Rattle.lc_reading.specs.Parts.{tree_of, place_of};
ghost use Rattle.lc_reading.specs.Readings.{Reading, mapped};
ghost use Rattle.lc_reading.specs.Results.{IsReading};
ghost use Rattle.lc_term.specs.Syntax as T;
ghost use Rattle.lc_tie.specs.TieView.{conjunct_of};
ghost use Rattle.lc_rider_text.specs.Conjuncts.{conjunct_parts_reading, the_conjunct, conjunct_reading};
ghost use Rattle.lc_rider_text.specs.Seen.{conjunct_parts};

use lc_base::Name;
use lc_reading::{NameTable, Part, Pass, ReadFault, Reads, both, ended, read_name, two, wrong};
use lc_sexp::{Cursor, Item};
use lc_term::Formula;
use lc_text::{Scope, read_formula};
use lc_tie::Conjunct;
use std::alloc::Global;

/// A name and a formula, which must be the whole rest of a list.
fn read_conjunct_parts<S: Scope>(
    alloc: Global,
    scope: &S,
    list: Cursor<'_>,
) -> Result<(Name, Formula), ReadFault>
    ensures { IsReading conjunct_parts (conjunct_parts_reading (S.names scope.now) (owner_of list.entry) (number_of list.entry) (rest_of list.entry)) result }
{
    let (first, second, rest) = two(list)?;
    let name = read_name(None, &NameTable::new(alloc), first);
    let formula = read_formula(alloc, scope, second);
    ended(both(name, formula), rest)
}

/// The conjunct of a name and a formula.
fn made_conjunct(parts: Result<(Name, Formula), ReadFault>) -> Result<Conjunct, ReadFault>
    ensures { (r : Reading (List ℕ × T.Formula)) → IsReading conjunct_parts r parts → IsReading conjunct_of (mapped the_conjunct r) result }
{
    let (name, formula) = parts?;
    Ok(Conjunct { name, formula })
}

/// `(NAME F)`
fn read_conjunct<S: Scope>(alloc: Global, scope: &S, part: Part<'_>) -> Result<Conjunct, ReadFault>
    ensures { IsReading conjunct_of (conjunct_reading (S.names scope.now) (place_of part.entry) (tree_of part.entry)) result }
{
    match part.item() {
        Item::Atom(atom) => Err(wrong(Pass::Shape, atom.number())),
        Item::List(list) => made_conjunct(read_conjunct_parts(alloc, scope, list)),
    }
}

/// Reads conjuncts of the invariant.
#[derive(Drop)]
pub struct Conjuncts<'s, S>(pub &'s S);

impl<S: Scope> Reads for Conjuncts<'_, S> {
    ghost use Rattle.lc_tie.specs.Tie.{Conjunct};
    ghost use Rattle.lc_tie.specs.TieView.{conjunct_of};
    ghost use Rattle.lc_rider_text.specs.Conjuncts.{conjunct_reading};

    type Value = Conjunct;

    ghost Meaning = { Conjunct };

    ghost meaning = { conjunct_of };

    ghost reading = { λ reader. conjunct_reading (S.names reader.0.now) };

    fn read(&self, alloc: Global, part: Part<'_>) -> Result<Conjunct, ReadFault> {
        read_conjunct(alloc, self.0, part)
    }
}

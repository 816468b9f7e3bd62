//! How the names of arrays, points and locals are read in an instruction.
ghost use Rattle.std.specs.Prelude.{◌≡◌};
ghost use Rattle.lc_sexp.specs.Shown.{rest_of, number_of, owner_of};
ghost use Rattle.lc_reading.specs.Parts.{tree_of, place_of};
ghost use Rattle.lc_reading.specs.Results.{IsReading};
ghost use Rattle.lc_reading.specs.TableView.{listed};
ghost use Rattle.lc_object.specs.View.{locals_of, terms_of};
ghost use Rattle.lc_object_text.specs.Cells.{array_reading, label_reading, row_width, target_reading, targets_reading, values_reading, assignment_parts, assignment_reading, assignments_reading};
ghost use Rattle.lc_object_text.specs.Own.{assigned_view, assignments_view};

use crate::code_scope::CodeScope;
use crate::counts::read_count;
use lc_base::{OutOfMemory, PointId};
use lc_object::{ArrayId, LocalId};
use lc_reading::{
    Declares, NameTable, Part, Pass, ReadFault, both, ended, known_name, name_at, read_declared,
    read_each, two, wrong,
};
use lc_sexp::{Cursor, Item};
use lc_term::Term;
use lc_text::{Scope, Terms, read_term};
use std::alloc::Global;

/// The array of a name.
pub(crate) fn read_array<S: CodeScope>(scope: &S, part: Part<'_>) -> Result<ArrayId, ReadFault>
    ensures { IsReading (λ array. array.0) (array_reading (S.code scope.now) (place_of part.entry) (tree_of part.entry)) result }
{
    let name = name_at(part)?;
    let row = known_name(name, scope.array(name.text()))?;
    Ok(row.array)
}

/// The point of a name.
pub(crate) fn read_label<S: CodeScope>(scope: &S, part: Part<'_>) -> Result<PointId, ReadFault>
    ensures { IsReading (λ point. point.0) (label_reading (S.code scope.now) (place_of part.entry) (tree_of part.entry)) result }
{
    let name = name_at(part)?;
    known_name(name, scope.label(name.text()))
}

/// How many columns the array has that an item names, if it names one.
pub(crate) fn row_width<S: CodeScope>(scope: &S, part: Part<'_>) -> Option<u64>
    ensures { result ≡ row_width (S.code scope.now) (tree_of part.entry) }
{
    match part.item() {
        Item::List(_) => None,
        Item::Atom(atom) => {
            let row = scope.array(atom.text())?;
            Some(row.width)
        }
    }
}

/// The local of a name, which is written, and not before these.
fn read_target<S: CodeScope>(
    scope: &S,
    before: &NameTable<'_>,
    part: Part<'_>,
) -> Result<LocalId, ReadFault>
    ensures { IsReading (λ local. local.0) (target_reading (S.code scope.now) (listed before.now) (place_of part.entry) (tree_of part.entry)) result }
{
    let name = name_at(part)?;
    match scope.target(name.text()) {
        Some(_) if before.contains(name.text()) => Err(wrong(Pass::Repeated, name.number())),
        local => known_name(name, local),
    }
}

/// Reads the names of locals that are written.
#[derive(Drop)]
struct Targets<'s, S>(&'s S);

impl<S: CodeScope> Declares for Targets<'_, S> {
    ghost use Rattle.std.specs.Prelude.{ℕ};
    ghost use Rattle.lc_reading.specs.Listed.{declared_by};
    ghost use Rattle.lc_object_text.specs.Cells.{target_reading};

    type Value = LocalId;

    ghost Meaning = { ℕ };

    ghost meaning = { λ local. local.0 };

    ghost declares = { declared_by };

    ghost reading = { λ reader. target_reading (S.code reader.0.now) };

    fn read(
        &self,
        _: Global,
        before: &NameTable<'_>,
        part: Part<'_>,
    ) -> Result<LocalId, ReadFault> {
        read_target(self.0, before, part)
    }

    fn enter<'a>(
        &self,
        names: NameTable<'a>,
        part: Part<'a>,
    ) -> Result<NameTable<'a>, OutOfMemory> {
        names.enter_part(part)
    }
}

/// `(r ..)`: as many locals as are expected, each once.
pub(crate) fn read_targets<S: CodeScope>(
    alloc: Global,
    scope: &S,
    width: Option<u64>,
    part: Part<'_>,
) -> Result<Vec<LocalId>, ReadFault>
    ensures { IsReading (λ locals. locals_of locals.items) (targets_reading (S.code scope.now) width (place_of part.entry) (tree_of part.entry)) result }
{
    let list = match part.item() {
        Item::Atom(atom) => return Err(wrong(Pass::Shape, atom.number())),
        Item::List(list) => list,
    };
    let names = NameTable::new(alloc);
    let (_, targets) = read_declared(alloc, &Targets(scope), names, list)?;
    match both(read_count(width, list), targets) {
        Ok(((), targets)) => Ok(targets),
        Err(fault) => Err(fault),
    }
}

/// `(T ..)`: as many terms as are expected.
pub(crate) fn read_values<S: Scope>(
    alloc: Global,
    scope: &S,
    width: Option<u64>,
    part: Part<'_>,
) -> Result<Vec<Term>, ReadFault>
    ensures { IsReading (λ values. terms_of values.items) (values_reading (S.names scope.now) width (place_of part.entry) (tree_of part.entry)) result }
{
    let list = match part.item() {
        Item::Atom(atom) => return Err(wrong(Pass::Shape, atom.number())),
        Item::List(list) => list,
    };
    let values = read_each(alloc, &Terms(scope), list);
    match both(read_count(width, list), values) {
        Ok(((), values)) => Ok(values),
        Err(fault) => Err(fault),
    }
}

/// `r T`: a local and its value, which must be the whole rest of a list.
fn read_assignment_parts<S: Scope + CodeScope>(
    alloc: Global,
    scope: &S,
    before: &NameTable<'_>,
    list: Cursor<'_>,
) -> Result<(LocalId, Term), ReadFault>
    ensures { IsReading assigned_view (assignment_parts (S.names scope.now) (S.code scope.now) (listed before.now) (owner_of list.entry) (number_of list.entry) (rest_of list.entry)) result }
{
    let (first, second, rest) = two(list)?;
    let target = read_target(scope, before, first);
    let value = read_term(alloc, scope, second);
    ended(both(target, value), rest)
}

/// `(r T)`
fn read_assignment<S: Scope + CodeScope>(
    alloc: Global,
    scope: &S,
    before: &NameTable<'_>,
    part: Part<'_>,
) -> Result<(LocalId, Term), ReadFault>
    ensures { IsReading assigned_view (assignment_reading (S.names scope.now) (S.code scope.now) (listed before.now) (place_of part.entry) (tree_of part.entry)) result }
{
    match part.item() {
        Item::Atom(atom) => Err(wrong(Pass::Shape, atom.number())),
        Item::List(list) => read_assignment_parts(alloc, scope, before, list),
    }
}

/// Reads locals with their values.
#[derive(Drop)]
struct Assignments<'s, S>(&'s S);

impl<S: Scope + CodeScope> Declares for Assignments<'_, S> {
    ghost use Rattle.std.specs.Prelude.{ℕ};
    ghost use Rattle.lc_term.specs.Syntax.{Term};
    ghost use Rattle.lc_reading.specs.Rows.{first_name};
    ghost use Rattle.lc_object_text.specs.Cells.{assignment_reading};
    ghost use Rattle.lc_object_text.specs.Own.{assigned_view};

    type Value = (LocalId, Term);

    ghost Meaning = { ℕ × Term };

    ghost meaning = { assigned_view };

    ghost declares = { first_name };

    ghost reading = { λ reader. assignment_reading (S.names reader.0.now) (S.code reader.0.now) };

    fn read(
        &self,
        alloc: Global,
        before: &NameTable<'_>,
        part: Part<'_>,
    ) -> Result<(LocalId, Term), ReadFault> {
        read_assignment(alloc, self.0, before, part)
    }

    fn enter<'a>(
        &self,
        names: NameTable<'a>,
        part: Part<'a>,
    ) -> Result<NameTable<'a>, OutOfMemory> {
        names.enter_first(part)
    }
}

/// `((r T) ..)`: locals with their values, each once.
pub(crate) fn read_assignments<S: Scope + CodeScope>(
    alloc: Global,
    scope: &S,
    part: Part<'_>,
) -> Result<Vec<(LocalId, Term)>, ReadFault>
    ensures { IsReading assignments_view (assignments_reading (S.names scope.now) (S.code scope.now) (place_of part.entry) (tree_of part.entry)) result }
{
    let list = match part.item() {
        Item::Atom(atom) => return Err(wrong(Pass::Shape, atom.number())),
        Item::List(list) => list,
    };
    let names = NameTable::new(alloc);
    let (_, cells) = read_declared(alloc, &Assignments(scope), names, list)?;
    cells
}

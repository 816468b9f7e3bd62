//! How a choice is read: a branch with a name and parameters.
ghost use Rattle.std.specs.Prelude.{◌≡◌, ◌+◌, ◌++◌, ℕ, List, [], length, Some, None, IfOk};
ghost use Rattle.lc_sexp.specs.Shown.{rest_of, number_of, owner_of};
ghost use Rattle.lc_base.specs.Name.{bytes_of};
ghost use Rattle.lc_base.specs.Limits.{parameter_limit};
ghost use Rattle.lc_term.specs.Syntax as T;
ghost use Rattle.lc_reading.specs.Naming.{name_reading};
ghost use Rattle.lc_reading.specs.Parts.{tree_of, place_of};
ghost use Rattle.lc_reading.specs.Readings.{Reading, mapped, both};
ghost use Rattle.lc_reading.specs.Results.{IsReading};
ghost use Rattle.lc_reading.specs.Rows.{second_name, declared_reading};
ghost use Rattle.lc_reading.specs.TableView.{listed};
ghost use Rattle.lc_text.specs.Terms.{pair};
ghost use Rattle.lc_seq.specs.Specification as S;
ghost use Rattle.lc_seq.specs.SpecView.{branch_of};
ghost use Rattle.lc_spec_text.specs.Choices.{is_one_of, parameters_reading, parameters_in, choice_parts_reading, the_choice, choice_reading};
ghost use Rattle.lc_spec_text.specs.ScopeView.{columns_view};
ghost use Rattle.lc_spec_text.specs.Seen.{names_of, branches_of, label_parts, choice_parts};

use crate::branch::read_branch_parts;
use crate::scope::{Columns, InBranch};
use lc_base::{Name, OutOfMemory, PARAMETER_LIMIT, is_name};
use lc_reading::{
    Declares, NameTable, Part, Pass, ReadFault, behind_word, both, next_part, read_declared,
    read_name, three, wrong,
};
use lc_seq::{Branch, Label};
use lc_sexp::{Cursor, Item};
use lc_term::{Formula, Term, Update};
use std::alloc::Global;

/// Whether an item is a name, and one of these.
fn is_one_of(names: &NameTable<'_>, part: Part<'_>) -> bool
    ensures { result ≡ is_one_of (listed names.now) (tree_of part.entry) }
{
    match part.item() {
        Item::Atom(atom) => is_name(atom.text().as_bytes()) && names.contains(atom.text()),
        Item::List(_) => false,
    }
}

/// The parameter that an item declares after these, in an operation with these variables.
fn read_parameter(
    variables: &NameTable<'_>,
    before: &NameTable<'_>,
    part: Part<'_>,
) -> Result<Name, ReadFault>
    ensures { IsReading bytes_of (name_reading (Some (parameter_limit + length (listed variables.now))) (listed variables.now ++ listed before.now) (place_of part.entry) (tree_of part.entry)) result }
{
    let name = read_name(Some(PARAMETER_LIMIT), before, part);
    if is_one_of(variables, part) {
        Err(wrong(Pass::Repeated, part.number()))
    } else {
        name
    }
}

/// Reads the names of parameters of an operation with these variables.
#[derive(Drop)]
struct Parameters<'a, 'b>(&'b NameTable<'a>);

impl Declares for Parameters<'_, '_> {
    ghost use Rattle.std.specs.Prelude.{ℕ, ◌+◌, ◌++◌, List, length, Some};
    ghost use Rattle.lc_base.specs.Name.{bytes_of};
    ghost use Rattle.lc_reading.specs.Listed.{declared_by};
    ghost use Rattle.lc_reading.specs.Naming.{name_reading};
    ghost use Rattle.lc_reading.specs.TableView.{listed};

    type Value = Name;

    ghost Meaning = { List ℕ };

    ghost meaning = { bytes_of };

    ghost reading = { λ reader before. name_reading (Some (parameter_limit + length (listed reader.0.now))) (listed reader.0.now ++ before) };

    ghost declares = { declared_by };

    fn read(&self, _: Global, before: &NameTable<'_>, part: Part<'_>) -> Result<Name, ReadFault> {
        read_parameter(self.0, before, part)
    }

    fn enter<'a>(
        &self,
        names: NameTable<'a>,
        part: Part<'a>,
    ) -> Result<NameTable<'a>, OutOfMemory> {
        names.enter_part(part)
    }
}

/// `(PARAM*)`, of an operation with these variables: a table of the parameters, and their names.
fn read_parameters<'a>(
    alloc: Global,
    variables: &NameTable<'_>,
    part: Part<'a>,
) -> Result<(NameTable<'a>, Result<Vec<Name>, ReadFault>), OutOfMemory>
    ensures parameters { IfOk result (λ r. listed r.0 ≡ parameters_in (tree_of part.entry)) }
    ensures read { IfOk result (λ r. IsReading names_of (parameters_reading (listed variables.now) (place_of part.entry) (tree_of part.entry)) r.1) }
{
    let none = NameTable::new(alloc);
    match part.item() {
        Item::Atom(atom) => Ok((none, Err(wrong(Pass::Shape, atom.number())))),
        Item::List(list) => read_declared(alloc, &Parameters(variables), none, list),
    }
}

/// The name, after these choices, with these parameters.
fn read_label(
    before: &NameTable<'_>,
    name: Part<'_>,
    parameters: Result<Vec<Name>, ReadFault>,
) -> Result<(Name, Vec<Name>), ReadFault>
    ensures { (r : Reading (List (List ℕ))) → IsReading names_of r parameters → IsReading label_parts (both pair (name_reading None (listed before.now) (place_of name.entry) (tree_of name.entry)) r) result }
{
    both(read_name(None, before, name), parameters)
}

/// `NAME (PARAM*) F (UPDATE*) (T*)`, after these choices; these parts have to be the whole rest of a list.
fn read_choice_parts(
    alloc: Global,
    columns: Columns<'_, '_>,
    variables: &NameTable<'_>,
    count: Option<u64>,
    before: &NameTable<'_>,
    list: Cursor<'_>,
) -> Result<((Name, Vec<Name>), ((Formula, Vec<Update>), Vec<Term>)), ReadFault>
    ensures { IsReading choice_parts (choice_parts_reading (columns_view columns.entry) (listed variables.now) count (listed before.now) (owner_of list.entry) (number_of list.entry) (rest_of list.entry)) result }
{
    let mut rest = list;
    let name = next_part(&mut rest)?;
    let parameters = next_part(&mut rest)?;
    three(rest)?;
    let (own, parameters) = read_parameters(alloc, variables, parameters)?;
    let scope = InBranch::new(columns, variables, own)?;
    let label = read_label(before, name, parameters);
    let parts = read_branch_parts(alloc, columns, &scope, count, rest);
    both(label, parts)
}

/// The choice of these parts.
fn made_choice(
    parts: Result<((Name, Vec<Name>), ((Formula, Vec<Update>), Vec<Term>)), ReadFault>,
) -> Result<Branch, ReadFault>
    ensures { (r : Reading ((List ℕ × List (List ℕ)) × ((T.Formula × List S.Update) × List T.Term))) → IsReading choice_parts r parts → IsReading branch_of (mapped the_choice r) result }
{
    let ((name, parameters), ((guard, updates), replies)) = parts?;
    Ok(Branch {
        label: Label::Named { name, parameters },
        guard,
        updates,
        replies,
    })
}

/// `(choice NAME (PARAM*) F (UPDATE*) (T*))`, after these choices.
fn read_choice(
    alloc: Global,
    columns: Columns<'_, '_>,
    variables: &NameTable<'_>,
    count: Option<u64>,
    before: &NameTable<'_>,
    part: Part<'_>,
) -> Result<Branch, ReadFault>
    ensures { IsReading branch_of (choice_reading (columns_view columns.entry) (listed variables.now) count (listed before.now) (place_of part.entry) (tree_of part.entry)) result }
{
    let list = behind_word(part, "choice")?;
    made_choice(read_choice_parts(alloc, columns, variables, count, before, list))
}

/// Reads choices of an operation with these variables, each with `count` replies.
#[derive(Drop)]
struct Choices<'a, 'b> {
    columns: Columns<'a, 'b>,
    variables: &'b NameTable<'a>,
    count: Option<u64>,
}

impl Declares for Choices<'_, '_> {
    ghost use Rattle.lc_reading.specs.Rows.{second_name};
    ghost use Rattle.lc_reading.specs.TableView.{listed};
    ghost use Rattle.lc_seq.specs.SpecView.{branch_of};
    ghost use Rattle.lc_seq.specs.Specification.{Branch};
    ghost use Rattle.lc_spec_text.specs.Choices.{choice_reading};
    ghost use Rattle.lc_spec_text.specs.ScopeView.{columns_view};

    type Value = Branch;

    ghost Meaning = { Branch };

    ghost meaning = { branch_of };

    ghost reading = { λ reader. choice_reading (columns_view reader.columns) (listed reader.variables.now) reader.count };

    ghost declares = { second_name };

    fn read(
        &self,
        alloc: Global,
        before: &NameTable<'_>,
        part: Part<'_>,
    ) -> Result<Branch, ReadFault> {
        read_choice(
            alloc,
            self.columns,
            self.variables,
            self.count,
            before,
            part,
        )
    }

    fn enter<'a>(
        &self,
        names: NameTable<'a>,
        part: Part<'a>,
    ) -> Result<NameTable<'a>, OutOfMemory> {
        names.enter_second(part)
    }
}

/// The choices that are left in a list, of an operation with these variables, each with `count` replies.
pub(crate) fn read_choices(
    alloc: Global,
    columns: Columns<'_, '_>,
    variables: &NameTable<'_>,
    count: Option<u64>,
    list: Cursor<'_>,
) -> Result<Vec<Branch>, ReadFault>
    ensures { IsReading branches_of (declared_reading (choice_reading (columns_view columns.entry) (listed variables.now) count) second_name [] (number_of list.entry) (rest_of list.entry)) result }
{
    let choices = Choices {
        columns,
        variables,
        count,
    };
    let (_, choices) = read_declared(alloc, &choices, NameTable::new(alloc), list)?;
    choices
}

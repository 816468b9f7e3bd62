//! How what a file declares is found.
ghost use Rattle.std.specs.Prelude.{◌≡◌, map, IfOk};
ghost use Rattle.lc_sexp.specs.Shown.{rest_of};
ghost use Rattle.lc_object_text.specs.ObjectNames as N;
ghost use Rattle.lc_object_text.specs.Seen.{sections_view, forms_left};
ghost use Rattle.lc_reading.specs.TableView.{listed};
ghost use Rattle.lc_rider_text.specs.KnownView.{ways_view};
ghost use Rattle.lc_outline_text.specs.Declarations.{branches_in, choices_in, parameter_count, ways_in, declarations_in};
ghost use Rattle.lc_outline_text.specs.DeclarationsView.{declarations_view};
ghost use Rattle.lc_outline_text.specs.Rests.{rests_of, lists_of_rests};

use crate::declarations::Declarations;
use lc_base::OutOfMemory;
use lc_object_text::{
    Sections, behind_first, first_text, next_form, read_declarations, within_first,
};
use lc_reading::NameTable;
use lc_rider_text::{Columns, Known, Ways};
use lc_sexp::Cursor;
use std::alloc::Global;

/// The names of the lists at the beginning that begin with a word, and what comes after the word in each. If some are
/// expected, the first item is taken for one.
fn read_forms<'a>(
    alloc: Global,
    mut list: Cursor<'a>,
    word: &str,
    some: bool,
) -> Result<(NameTable<'a>, Vec<Cursor<'a>>), OutOfMemory>
    ensures names { IfOk result (λ r. listed r.0 ≡ map N.first_text (forms_left some word.now (rest_of list.entry))) }
    ensures forms { IfOk result (λ r. rests_of r.1.items ≡ forms_left some word.now (rest_of list.entry)) }
{
    let mut names = NameTable::new(alloc);
    let mut forms = Vec::new(alloc);
    let mut due = some;
    'forms: loop {
        let Some(parts) = next_form(&mut list, word, due) else {
            return Ok((names, forms));
        };
        due = false;
        names = names.enter(first_text(&parts))?;
        forms.push(parts)?;
    }
}

/// The branches or choices of an operation.
pub(crate) fn branches_in<'a>(operation: Cursor<'a>) -> Cursor<'a>
    ensures { rest_of result ≡ branches_in (rest_of operation.entry) }
{
    behind_first(behind_first(behind_first(operation)))
}

/// How many parameters each of these actions or choices has.
fn parameter_counts(alloc: Global, forms: &[Cursor<'_>]) -> Result<Vec<u64>, OutOfMemory>
    ensures { IfOk result (λ counts. counts.items ≡ map parameter_count (rests_of forms.now)) }
{
    let mut counts = Vec::with_capacity(alloc, forms.len())?;
    for form in forms {
        let parameters = within_first(behind_first(*form));
        counts.push(parameters.len() as u64)?;
    }
    Ok(counts)
}

/// How an operation goes, and what comes after the word of each of its choices.
fn read_ways<'a>(
    alloc: Global,
    operation: Cursor<'a>,
) -> Result<(Ways<'a>, Vec<Cursor<'a>>), OutOfMemory>
    ensures ways { IfOk result (λ r. ways_view r.0 ≡ ways_in (rest_of operation.entry)) }
    ensures choices { IfOk result (λ r. rests_of r.1.items ≡ choices_in (rest_of operation.entry)) }
{
    let branches = branches_in(operation);
    let (names, choices) = read_forms(alloc, branches, "choice", false)?;
    let parameters = parameter_counts(alloc, &choices)?;
    let ways = Ways {
        count: branches.len() as u64,
        choices: names,
        parameters,
    };
    Ok((ways, choices))
}

/// How each of these operations goes.
fn read_all_ways<'a>(
    alloc: Global,
    operations: &[Cursor<'a>],
) -> Result<(Vec<Ways<'a>>, Vec<Vec<Cursor<'a>>>), OutOfMemory>
    ensures ways { IfOk result (λ r. map ways_view r.0.items ≡ map ways_in (rests_of operations.now)) }
    ensures choices { IfOk result (λ r. lists_of_rests r.1.items ≡ map choices_in (rests_of operations.now)) }
{
    let mut ways = Vec::with_capacity(alloc, operations.len())?;
    let mut choices = Vec::with_capacity(alloc, operations.len())?;
    for operation in operations {
        let (goes, chosen) = read_ways(alloc, *operation)?;
        ways.push(goes)?;
        choices.push(chosen)?;
    }
    Ok((ways, choices))
}

/// What these sections of a file declare, whatever else is wrong in it.
pub(crate) fn read_all_declarations<'a>(
    alloc: Global,
    sections: &Sections<'a>,
) -> Result<Declarations<'a>, OutOfMemory>
    ensures { IfOk result (λ d. declarations_view d ≡ declarations_in (sections_view sections.now)) }
{
    let declared = read_declarations(alloc, sections)?;
    let behind_auxiliaries = behind_first(sections.auxiliaries);
    let (action_names, actions) = read_forms(alloc, behind_auxiliaries, "action", false)?;
    let (_, operations) = read_forms(alloc, sections.operations, "op", true)?;
    let parameters = parameter_counts(alloc, &actions)?;
    let (ways, choices) = read_all_ways(alloc, &operations)?;
    Ok(Declarations {
        declared,
        action_names,
        actions,
        parameters,
        operations,
        ways,
        choices,
    })
}

impl<'a> Declarations<'a> {
    ghost use Rattle.std.specs.Prelude.{◌≡◌, map, IfOk};
    ghost use Rattle.lc_object_text.specs.ObjectNames.{first_text};
    ghost use Rattle.lc_reading.specs.Listed.{place_of};
    ghost use Rattle.lc_rider_text.specs.KnownView.{known_view, ways_there};
    ghost use Rattle.lc_outline_text.specs.Declarations.{choices_in, known_of, own_ways, form_at};
    ghost use Rattle.lc_outline_text.specs.DeclarationsView.{declarations_view};

    /// What is seen of it beside the code.
    pub(crate) fn known<'b>(&'b self) -> Result<Known<'a, 'b>, OutOfMemory>
        ensures { IfOk result (λ known. known_view known ≡ known_of (declarations_view self.now)) }
    {
        let columns = Columns::new(&self.declared.columns, self.declared.auxiliaries)?;
        Ok(Known {
            columns,
            operations: &self.declared.operations,
            ways: &self.ways,
            actions: &self.action_names,
            parameters: &self.parameters,
        })
    }

    /// How the operation goes that the body at this place names, if it names one that is declared.
    pub(crate) fn own_ways(&self, place: u32) -> Option<&Ways<'a>>
        ensures { ways_there result ≡ own_ways (declarations_view self.now) place }
    {
        let body = self.declared.bodies.get(place as usize)?;
        if body.replies.is_none() {
            return None;
        }
        let operation = self.declared.operations.place(body.operation)?;
        self.ways.get(operation)
    }

    /// The place of the choice of this name, of the operation at this place.
    pub(crate) fn choice_place(&self, operation: Option<usize>, name: &str) -> Option<usize>
        ensures { result ≡ place_of (map first_text (choices_in (form_at (declarations_view self.now).operations operation))) name.now }
    {
        let ways = self.ways.get(operation?)?;
        ways.choices.place(name)
    }
}

//! How what is beside the code of an object is read: auxiliary columns, actions, invariant, idle clients.
ghost use Rattle.std.specs.Prelude.{[], Some, map, codes};
ghost use Rattle.lc_sexp.specs.Shown.{rest_of, number_of};
ghost use Rattle.lc_seq.specs.SpecView.{column_of};
ghost use Rattle.lc_term.specs.View.{formula_of};
ghost use Rattle.lc_tie.specs.TieView.{conjunct_of};
ghost use Rattle.lc_object_text.specs.Objects.{first_reading};
ghost use Rattle.lc_object_text.specs.Seen.{sections_view};
ghost use Rattle.lc_reading.specs.Parts.{tree_of, place_of};
ghost use Rattle.lc_reading.specs.Results.{IsReading};
ghost use Rattle.lc_outline_text.specs.DeclarationsView.{declarations_view};
ghost use Rattle.lc_rider_text.specs.Scopes.{beside_names};
ghost use Rattle.lc_outline_text.specs.Points.{formulas_in_reading};
ghost use Rattle.lc_outline_text.specs.Views.{actions_view, conditions_view, sides_view};
ghost use Rattle.lc_outline_text.specs.Sides.{auxiliaries_reading, actions_reading, invariant_reading, conditions_reading, sides_reading};

use crate::declarations::Declarations;
use crate::formulas::read_formulas_in;
use lc_action::Action;
use lc_object_text::{Sections, behind_first, read_lists, read_placed};
use lc_reading::{
    NameTable, Part, Pass, ReadFault, behind_word, both, next_part, read_each, two, wrong,
};
use lc_rider_text::{Actions, AuxiliaryColumns, Beside, Columns, Conjuncts, Variables};
use lc_seq::Column;
use lc_sexp::Cursor;
use lc_term::Formula;
use lc_tie::Conjunct;
use std::alloc::Global;

/// The sections of an object beside its code: the auxiliary columns, the actions, the invariant, and what holds of
/// idle clients.
pub(crate) struct Sides {
    pub(crate) auxiliaries: Vec<Column>,
    pub(crate) actions: Vec<Action>,
    pub(crate) conjuncts: Vec<Conjunct>,
    pub(crate) idle: Vec<Formula>,
}

impl Drop for Sides {
    fn drop(self) {
        let Sides {
            auxiliaries: _,
            actions: _,
            conjuncts: _,
            idle: _,
        } = self;
    }
}

impl Sides {
    ghost use Rattle.std.specs.Prelude.{◌≡◌};

    /// The auxiliary columns, the actions, the conjuncts, and what holds of idle clients.
    pub(crate) fn into_parts(self) -> (Vec<Column>, Vec<Action>, Vec<Conjunct>, Vec<Formula>)
        ensures { result ≡ (self.auxiliaries, self.actions, self.conjuncts, self.idle) }
    {
        let Sides {
            auxiliaries,
            actions,
            conjuncts,
            idle,
        } = self;
        (auxiliaries, actions, conjuncts, idle)
    }
}

/// `(aux COL ..)`
fn read_auxiliaries(
    alloc: Global,
    declarations: &Declarations<'_>,
    part: Part<'_>,
) -> Result<Vec<Column>, ReadFault>
    ensures { IsReading (λ columns. map column_of columns.items) (auxiliaries_reading (declarations_view declarations.now) (place_of part.entry) (tree_of part.entry)) result }
{
    let list = behind_word(part, "aux")?;
    let reader = AuxiliaryColumns {
        names: &declarations.declared.columns,
        base: declarations.declared.auxiliaries,
    };
    read_placed(alloc, &reader, list)
}

/// The auxiliary columns, which come next in the object of this number.
fn read_first_auxiliaries(
    alloc: Global,
    declarations: &Declarations<'_>,
    object: u64,
    mut list: Cursor<'_>,
) -> Result<Vec<Column>, ReadFault>
    ensures { IsReading (λ columns. map column_of columns.items) (first_reading (auxiliaries_reading (declarations_view declarations.now)) object (number_of list.entry) (rest_of list.entry)) result }
{
    match next_part(&mut list) {
        Ok(part) => read_auxiliaries(alloc, declarations, part),
        Err(_) => Err(wrong(Pass::Shape, object)),
    }
}

/// The auxiliary columns, and the actions.
fn read_actions(
    alloc: Global,
    declarations: &Declarations<'_>,
    sections: &Sections<'_>,
    object: u64,
) -> Result<(Vec<Column>, Vec<Action>), ReadFault>
    ensures { IsReading actions_view (actions_reading (declarations_view declarations.now) (sections_view sections.now) object) result }
{
    let known = declarations.known()?;
    let auxiliaries = read_first_auxiliaries(alloc, declarations, object, sections.auxiliaries);
    let list = behind_first(sections.auxiliaries);
    match both(
        auxiliaries,
        read_lists(alloc, &Actions(known), "action", list),
    ) {
        Ok((auxiliaries, actions)) => Ok((auxiliaries, actions)),
        Err(fault) => Err(fault),
    }
}

/// `(invariant (NAME F) ..)`
fn read_invariant(
    alloc: Global,
    declarations: &Declarations<'_>,
    part: Part<'_>,
) -> Result<Vec<Conjunct>, ReadFault>
    ensures { IsReading (λ conjuncts. map conjunct_of conjuncts.items) (invariant_reading (declarations_view declarations.now) (place_of part.entry) (tree_of part.entry)) result }
{
    let list = behind_word(part, "invariant")?;
    let declared = &declarations.declared;
    let scope = Beside {
        columns: Columns::new(&declared.columns, declared.auxiliaries)?,
        variables: Variables::of_clients(),
    };
    read_each(alloc, &Conjuncts(&scope), list)
}

/// `(idle F ..)`
fn read_idle(
    alloc: Global,
    declarations: &Declarations<'_>,
    part: Part<'_>,
) -> Result<Vec<Formula>, ReadFault>
    ensures { IsReading (λ formulas. map formula_of formulas.items) (formulas_in_reading (codes "idle") (beside_names (declarations_view declarations.now).declared.columns (Some [])) (place_of part.entry) (tree_of part.entry)) result }
{
    let nobody = NameTable::new(alloc);
    let declared = &declarations.declared;
    let scope = Beside {
        columns: Columns::new(&declared.columns, declared.auxiliaries)?,
        variables: Variables::of_client(&nobody)?,
    };
    read_formulas_in(alloc, &scope, "idle", part)
}

/// The invariant, and what holds of idle clients, which come next in the object of this number.
fn read_conditions(
    alloc: Global,
    declarations: &Declarations<'_>,
    object: u64,
    list: Cursor<'_>,
) -> Result<(Vec<Conjunct>, Vec<Formula>), ReadFault>
    ensures { IsReading conditions_view (conditions_reading (declarations_view declarations.now) object (number_of list.entry) (rest_of list.entry)) result }
{
    let Ok((invariant, idle, _)) = two(list) else {
        return Err(wrong(Pass::Shape, object));
    };
    let conjuncts = read_invariant(alloc, declarations, invariant);
    let idle = read_idle(alloc, declarations, idle);
    both(conjuncts, idle)
}

/// The sections beside the code in the object of this number.
pub(crate) fn read_sides(
    alloc: Global,
    declarations: &Declarations<'_>,
    sections: &Sections<'_>,
    object: u64,
) -> Result<Sides, ReadFault>
    ensures { IsReading sides_view (sides_reading (declarations_view declarations.now) (sections_view sections.now) object) result }
{
    let actions = read_actions(alloc, declarations, sections, object);
    let conditions = read_conditions(alloc, declarations, object, sections.invariant);
    match both(actions, conditions) {
        Ok(((auxiliaries, actions), (conjuncts, idle))) => Ok(Sides {
            auxiliaries,
            actions,
            conjuncts,
            idle,
        }),
        Err(fault) => Err(fault),
    }
}

//! The texts of formulas that are in many lines: each is made once, and then copied.
ghost use Rattle.std.specs.Prelude.{◌≡◌, ◌++◌, ◌<◌, ◌≤◌, ℕ, length, Some, slice_get, slice_range, IfOk, IfSome, OnOk};
ghost use Rattle.lc_table.specs.NodeTables.{Table};
ghost use Rattle.lc_table.specs.Tables.{formula_in, IsFormula};
ghost use Rattle.lc_text.specs.Spelling.{Spelled};
ghost use Rattle.lc_text.specs.Spelled.{spelled_formula};
ghost use Rattle.lc_outline.specs.DevelopmentView.{development_view};
ghost use Rattle.lc_cond_text.specs.ConditionText.{spelled};
ghost use Rattle.lc_cond_text.specs.Recalled.{LiesAt, Recalls};

use crate::nodes::push_formula;
use lc_base::OutOfMemory;
use lc_outline::Development;
use lc_table::{FormulaId, Terms};
use std::alloc::Global;

// Where a text lies.
#[derive(Clone, Copy)]
struct Place {
    start: usize,
    end: usize,
}

/// Texts of formulas, by the formulas' numbers: they serve one development and one table, which may grow, so that what
/// is in many lines is spelled once. After an error they have to be dropped.
pub struct FormulaTexts {
    bytes: Vec<u8>,
    places: Vec<Option<Place>>,
    // Whether a formula was met already that is kept only if it is met again.
    met: Vec<bool>,
}

impl Drop for FormulaTexts {
    fn drop(self) {
        let FormulaTexts {
            bytes: _,
            places: _,
            met: _,
        } = self;
    }
}

/// No formula is spelled yet.
pub fn no_texts(alloc: Global) -> FormulaTexts
    ensures { (by : Spelled) (ts : Table) → Recalls by ts result }
{
    FormulaTexts {
        bytes: Vec::new(alloc),
        places: Vec::new(alloc),
        met: Vec::new(alloc),
    }
}

// Room for a place at this number.
fn make_room(places: &mut Vec<Option<Place>>, number: usize) -> Result<(), OutOfMemory>
    ensures room { OnOk result (number < length places.new.items) }
    ensures before { (k : ℕ) (p : Place) → slice_get places.new.items k ≡ Some (Some p) → slice_get places.old.items k ≡ Some (Some p) }
{
    while places.len() <= number {
        places.push(None)?;
    }
    Ok(())
}

// Where the text of a formula lies, if it was spelled.
fn place_of(texts: &FormulaTexts, formula: FormulaId) -> Option<Place>
    ensures { IfSome result (λ p. slice_get texts.now.places.items formula.0 ≡ Some (Some p)) }
{
    *texts.places.get(formula.0 as usize)?
}

// Spells a formula, which lies there from then on.
fn spell(
    texts: &mut FormulaTexts,
    terms: &Terms,
    development: &Development,
    formula: FormulaId,
) -> Result<Place, OutOfMemory>
    requires formula { IsFormula terms.now formula }
    requires recalls { Recalls (spelled (development_view development.now)) terms.now texts.old }
    ensures place { IfOk result (LiesAt (spelled_formula (spelled (development_view development.now)) 0 (formula_in terms.now formula)) texts.new.bytes.items) }
    ensures recalls { OnOk result (Recalls (spelled (development_view development.now)) terms.now texts.new) }
{
    let number = formula.0 as usize;
    make_room(&mut texts.places, number)?;
    let start = texts.bytes.len();
    push_formula(&mut texts.bytes, terms, development, 0, formula)?;
    let end = texts.bytes.len();
    let place = Place { start, end };
    texts.places[number] = Some(place);
    Ok(place)
}

// Appends the text that is at a place.
fn push_at(out: &mut Vec<u8>, texts: &FormulaTexts, place: Place) -> Result<(), OutOfMemory>
    requires ordered { place.start ≤ place.end }
    requires within { place.end ≤ length texts.now.bytes.items }
    ensures { OnOk result (out.new.items ≡ out.old.items ++ slice_range texts.now.bytes.items place.start place.end) }
{
    out.extend_from_slice(&texts.bytes[place.start..place.end])?;
    Ok(())
}

/// Appends a formula that is in many lines.
pub(crate) fn push_repeated(
    out: &mut Vec<u8>,
    texts: &mut FormulaTexts,
    terms: &Terms,
    development: &Development,
    formula: FormulaId,
) -> Result<(), OutOfMemory>
    requires formula { IsFormula terms.now formula }
    requires recalls { Recalls (spelled (development_view development.now)) terms.now texts.old }
    ensures text { OnOk result (out.new.items ≡ out.old.items ++ spelled_formula (spelled (development_view development.now)) 0 (formula_in terms.now formula)) }
    ensures recalls { OnOk result (Recalls (spelled (development_view development.now)) terms.now texts.new) }
{
    if let Some(place) = place_of(texts, formula) {
        return push_at(out, texts, place);
    }
    let place = spell(texts, terms, development, formula)?;
    push_at(out, texts, place)
}

// Whether the formula of this number was met before. From now on it was.
fn meet(met: &mut Vec<bool>, number: usize) -> Result<bool, OutOfMemory> {
    while met.len() <= number {
        met.push(false)?;
    }
    let before = met[number];
    met[number] = true;
    Ok(before)
}

/// Whether a formula was met before. From now on it was.
pub(crate) fn is_met(texts: &mut FormulaTexts, formula: FormulaId) -> Result<bool, OutOfMemory>
    ensures { (by : Spelled) (ts : Table) → Recalls by ts texts.old → Recalls by ts texts.new }
{
    meet(&mut texts.met, formula.0 as usize)
}

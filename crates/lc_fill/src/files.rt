//! A file with what was left out put in.
ghost use Rattle.std.specs.Prelude.{◌≡◌, if◌then◌else◌, IfOk, OnOk};
ghost use Rattle.lc_sexp.specs.Trees.{Trees};
ghost use Rattle.lc_sexp.specs.Shown.{rest_of, number_of};
ghost use Rattle.lc_reading.specs.Parts.{tree_of, place_of};
ghost use Rattle.lc_fill.specs.Filled.{Filled, put, put_all, each, ended};
ghost use Rattle.lc_fill.specs.Acts.{stand_in_of};
ghost use Rattle.lc_fill.specs.Files.{is_nil, body_filled, claims_filled, sections_filled, object_filled, second_filled, file_filled};
ghost use Rattle.lc_fill.specs.Points.{point_filled};
ghost use Rattle.lc_fill.specs.FillingView.{filling_view};
ghost use Rattle.lc_fill.specs.PlanView.{plan_view};
ghost use Rattle.lc_fill.specs.Seen.{acts_view, onto, row_view, tree_view};

use crate::acts::Acts;
use crate::gap::meant;
use crate::naming::read_acts;
use crate::plan::Plan;
use crate::points::fill_point;
use crate::row::{FilledTree, Row, as_is};
use lc_base::OutOfMemory;
use lc_reading::{Part, behind_word, next_part};
use lc_sexp::{Cursor, Forms, print};
use std::alloc::Global;

/// A short development with what was left out put in. All calls that were not planned are those of one action, the stand-in,
/// which is declared last and does nothing.
#[derive(Drop)]
pub struct Filling {
    pub(crate) row: Row,
}

/// `POINT+`
fn fill_points(
    alloc: Global,
    acts: &Acts<'_, '_>,
    row: &mut Row,
    list: Cursor<'_>,
) -> Result<(), OutOfMemory>
    ensures { OnOk result (row_view row.new ≡ onto row.old (each (point_filled (acts_view acts.now)) ended (number_of list.entry) (rest_of list.entry))) }
{
    let mut rest = list;
    'items: loop {
        let Ok(part) = next_part(&mut rest) else {
            return Ok(());
        };
        let point = fill_point(alloc, acts, part)?;
        row.push(point)?;
    }
}

/// `(body OP (LOCAL*) POINT+)`
#[tactic(auto, unfolding(lc_sexp::specs::Text::class_of))]
fn fill_body(alloc: Global, acts: &Acts<'_, '_>, part: Part<'_>) -> Result<FilledTree, OutOfMemory>
    ensures { IfOk result (λ f. tree_view f ≡ body_filled (acts_view acts.now) (place_of part.entry) (tree_of part.entry)) }
{
    let Ok(mut rest) = behind_word(part, "body") else {
        let same = as_is(alloc, part)?;
        return Ok(same);
    };
    let mut row = Row::of_word(alloc, "body")?;
    let more = row.keep_next(alloc, &mut rest)?;
    if !more {
        let bare = row.into_list(alloc)?;
        return Ok(bare);
    }
    let locals = row.keep_next(alloc, &mut rest)?;
    if !locals {
        let named = row.into_list(alloc)?;
        return Ok(named);
    }
    fill_points(alloc, acts, &mut row, rest)?;
    let list = row.into_list(alloc)?;
    Ok(list)
}

/// `BODY+`
fn fill_bodies(
    alloc: Global,
    acts: &Acts<'_, '_>,
    row: &mut Row,
    list: Cursor<'_>,
) -> Result<(), OutOfMemory>
    ensures { OnOk result (row_view row.new ≡ onto row.old (each (body_filled (acts_view acts.now)) ended (number_of list.entry) (rest_of list.entry))) }
{
    let mut rest = list;
    'items: loop {
        let Ok(part) = next_part(&mut rest) else {
            return Ok(());
        };
        let body = fill_body(alloc, acts, part)?;
        row.push(body)?;
    }
}

/// `[(invariant ..)] [(idle F*)] BODY+`
#[tactic(auto, unfolding(lc_sexp::specs::Text::class_of))]
fn fill_claims(alloc: Global, acts: &Acts<'_, '_>, list: Cursor<'_>) -> Result<Row, OutOfMemory>
    ensures { IfOk result (λ row. row_view row ≡ claims_filled (acts_view acts.now) (number_of list.entry) (rest_of list.entry)) }
{
    let mut rest = list;
    let mut row = Row::new(alloc);
    row.keep_section(alloc, "invariant", Cursor::empty(), &mut rest)?;
    row.keep_section(alloc, "idle", acts.plan.idle.cursor(), &mut rest)?;
    fill_bodies(alloc, acts, &mut row, rest)?;
    Ok(row)
}

/// Puts in the actions that are planned before the item of this number, and the stand-in, if it is called.
fn put_actions(
    alloc: Global,
    acts: &Acts<'_, '_>,
    row: &mut Row,
    place: u64,
    lacking: &[u64],
) -> Result<(), OutOfMemory>
    ensures { OnOk result ((r : Filled Trees) → onto row.new r ≡ onto row.old (put_all place (acts_view acts.now).plan.actions (if is_nil lacking.now then r else put place (stand_in_of (acts_view acts.now)) r))) }
{
    row.put_all(alloc, place, acts.plan.actions.cursor())?;
    if lacking.is_empty() {
        return Ok(());
    }
    let stand_in = acts.stand_in(alloc)?;
    row.put(place, stand_in)?;
    Ok(())
}

/// The sections of an object, from its arrays on.
#[tactic(auto, unfolding(lc_sexp::specs::Text::class_of))]
fn fill_sections(
    alloc: Global,
    acts: &Acts<'_, '_>,
    row: &mut Row,
    list: Cursor<'_>,
) -> Result<(), OutOfMemory>
    ensures { OnOk result (row_view row.new ≡ onto row.old (sections_filled (acts_view acts.now) (number_of list.entry) (rest_of list.entry))) }
{
    let mut rest = list;
    row.keep_forms(alloc, "array", &mut rest)?;
    row.keep_section(alloc, "aux", Cursor::empty(), &mut rest)?;
    row.keep_forms(alloc, "action", &mut rest)?;
    let claims = fill_claims(alloc, acts, rest)?;
    put_actions(alloc, acts, row, rest.number(), &claims.lacking)?;
    row.append(claims)?;
    Ok(())
}

/// `(object NAME ..)`
#[tactic(auto, unfolding(lc_sexp::specs::Text::class_of))]
fn fill_object(alloc: Global, plan: &Plan, part: Part<'_>) -> Result<FilledTree, OutOfMemory>
    ensures { IfOk result (λ f. tree_view f ≡ object_filled (plan_view plan.now) (place_of part.entry) (tree_of part.entry)) }
{
    let Ok(mut rest) = behind_word(part, "object") else {
        let same = as_is(alloc, part)?;
        return Ok(same);
    };
    let mut row = Row::of_word(alloc, "object")?;
    let more = row.keep_next(alloc, &mut rest)?;
    if !more {
        let bare = row.into_list(alloc)?;
        return Ok(bare);
    }
    let acts = read_acts(alloc, plan, rest)?;
    fill_sections(alloc, &acts, &mut row, rest)?;
    let list = row.into_list(alloc)?;
    Ok(list)
}

/// The object, and what comes after it.
fn fill_second(
    alloc: Global,
    plan: &Plan,
    row: &mut Row,
    list: Cursor<'_>,
) -> Result<(), OutOfMemory>
    ensures { OnOk result (row_view row.new ≡ onto row.old (second_filled (plan_view plan.now) (number_of list.entry) (rest_of list.entry))) }
{
    let mut rest = list;
    let Ok(part) = next_part(&mut rest) else {
        return Ok(());
    };
    let object = fill_object(alloc, plan, part)?;
    row.push(object)?;
    row.keep_all(alloc, rest)?;
    Ok(())
}

/// The forms of a file, with what was left out put in, as it is planned.
pub fn fill(alloc: Global, plan: &Plan, forms: &Forms) -> Result<Filling, OutOfMemory>
    ensures { IfOk result (λ filling. filling_view filling ≡ file_filled (plan_view plan.now) forms.now) }
{
    let mut rest = forms.cursor();
    let mut row = Row::new(alloc);
    let more = row.keep_next(alloc, &mut rest)?;
    if !more {
        return Ok(Filling { row });
    }
    fill_second(alloc, plan, &mut row, rest)?;
    Ok(Filling { row })
}

impl Filling {
    ghost use Rattle.std.specs.Prelude.{◌≡◌, IfOk};
    ghost use Rattle.lc_sexp.specs.Printed.{printed};
    ghost use Rattle.lc_fill.specs.FillingView.{filling_view};
    ghost use Rattle.lc_fill.specs.Gaps.{meant};

    /// Its text.
    pub fn text(&self, alloc: Global) -> Result<Vec<u8>, OutOfMemory>
        ensures { IfOk result (λ text. text.items ≡ printed (filling_view self.now).whole) }
    {
        let text = print(alloc, &self.row.items)?;
        Ok(text)
    }

    /// The places in the file at which a call of the stand-in was put in, in order.
    pub fn lacking(&self) -> &[u64]
        ensures { result.now ≡ (filling_view self.now).lacking }
    {
        &self.row.lacking
    }

    /// The item of the file that is meant by an item of the text: by one that was put in, the item before which it is.
    pub fn meant(&self, item: u64) -> u64
        ensures { result ≡ meant (filling_view self.now).gaps item }
    {
        meant(&self.row.gaps, item)
    }
}

//! The line of a condition.
ghost use Rattle.std.specs.Prelude.{◌≡◌, ◌++◌, codes, option_map, IfOk, OnOk};
ghost use Rattle.std.specs.Fmt.{decimal};
ghost use Rattle.lc_table.specs.Tables.{formula_in, formulas_in, IsFormula, AreFormulas};
ghost use Rattle.lc_text.specs.Spelled.{spaced, spelled_formula};
ghost use Rattle.lc_rider.specs.DutyView.{owing_of};
ghost use Rattle.lc_outline.specs.DevelopmentView.{development_view};
ghost use Rattle.lc_cond.specs.ConditionView.{kind_of, passage_of, which_of, place_of, condition_in, IsCondition};
ghost use Rattle.lc_cond_text.specs.Recalled.{Recalls};
ghost use Rattle.lc_outline.specs.ColumnNames.{name_at};
ghost use Rattle.lc_cond_text.specs.ConditionText.{duty_word, kind_word, or_hyphen, point_names, passage_text, which_text, spelled, formulas_text, condition_text};

use crate::naming::{action_name, column_name, point_name};
use crate::nodes::{push_formula, push_number, push_space, push_text};
use crate::texts::{FormulaTexts, is_met, no_texts, push_repeated};
use lc_base::{OutOfMemory, PointId};
use lc_cond::{Condition, Kind, Passage, Place, Which};
use lc_kernel::Goal;
use lc_outline::{Development, edge_word};
use lc_rider::Owing;
use lc_table::{FormulaId, Terms};
use std::alloc::Global;

fn duty_word(owing: Owing) -> &'static str
    ensures { result.now ≡ duty_word (owing_of owing) }
{
    match owing {
        Owing::Pending => "pend",
        Owing::Named => "named",
        Owing::Enabled => "enabled",
        Owing::Observing => "observing",
    }
}

/// The word of a kind.
pub fn kind_word(kind: Kind) -> &'static str
    ensures { result.now ≡ kind_word (kind_of kind) }
{
    match kind {
        Kind::Init => "init",
        Kind::InitIdle => "init-idle",
        Kind::Entry => "entry",
        Kind::First => "first",
        Kind::Owed(owing) => duty_word(owing),
        Kind::Reply => "reply",
        Kind::Invariant => "invariant",
        Kind::Next => "next",
        Kind::Guard => "guard",
        Kind::Column => "column",
        Kind::Stable => "stable",
    }
}

// Appends a space and a word.
fn push_spaced(out: &mut Vec<u8>, word: &str) -> Result<(), OutOfMemory>
    ensures { OnOk result (out.new.items ≡ out.old.items ++ spaced word.now) }
{
    push_space(out)?;
    push_text(out, word)
}

// Appends a space and a number.
fn push_spaced_number(out: &mut Vec<u8>, number: usize) -> Result<(), OutOfMemory>
    ensures { OnOk result (out.new.items ≡ out.old.items ++ spaced (decimal number)) }
{
    push_space(out)?;
    push_number(out, number as u64)
}

fn push_point(
    out: &mut Vec<u8>,
    development: &Development,
    point: Option<PointId>,
) -> Result<(), OutOfMemory>
    ensures { OnOk result (out.new.items ≡ out.old.items ++ spaced (or_hyphen (name_at (point_names (development_view development.now))) (option_map (λ p. p.0) point))) }
{
    match point {
        None => push_spaced(out, "-"),
        Some(point) => push_spaced(out, point_name(development, point)),
    }
}

fn push_passage(
    out: &mut Vec<u8>,
    development: &Development,
    passage: Passage,
) -> Result<(), OutOfMemory>
    ensures { OnOk result (out.new.items ≡ out.old.items ++ spaced (passage_text (development_view development.now) (passage_of passage))) }
{
    match passage {
        Passage::Nothing => push_spaced(out, "-"),
        Passage::Edge(kind) => push_spaced(out, edge_word(kind)),
        Passage::Action(place) => push_spaced(out, action_name(development, place)),
    }
}

fn push_path(out: &mut Vec<u8>, path: Option<usize>) -> Result<(), OutOfMemory>
    ensures { OnOk result (out.new.items ≡ out.old.items ++ spaced (or_hyphen decimal path)) }
{
    match path {
        None => push_spaced(out, "-"),
        Some(number) => push_spaced_number(out, number),
    }
}

fn push_which(out: &mut Vec<u8>, development: &Development, which: Which) -> Result<(), OutOfMemory>
    ensures { OnOk result (out.new.items ≡ out.old.items ++ spaced (which_text (development_view development.now) (which_of which))) }
{
    match which {
        Which::Alone => push_spaced(out, "-"),
        Which::Numbered(number) => push_spaced_number(out, number),
        Which::Column(column) => push_spaced(out, column_name(development, column)),
    }
}

// Where a condition is, word by word.
fn push_place(
    out: &mut Vec<u8>,
    development: &Development,
    place: &Place,
) -> Result<(), OutOfMemory>
    ensures { let d = development_view development.now in
        let p = place_of place.now in
        OnOk result (out.new.items ≡ out.old.items ++ (spaced (or_hyphen (name_at (point_names d)) p.point) ++ spaced (passage_text d p.passage) ++ spaced (or_hyphen decimal p.path) ++ spaced (which_text d p.which))) }
{
    push_point(out, development, place.point)?;
    push_passage(out, development, place.passage)?;
    push_path(out, place.path)?;
    push_which(out, development, place.which)
}

// The hypotheses of a condition, each after a space.
fn push_hypotheses(
    out: &mut Vec<u8>,
    texts: &mut FormulaTexts,
    terms: &Terms,
    development: &Development,
    formulas: &[FormulaId],
) -> Result<(), OutOfMemory>
    requires formulas { AreFormulas terms.now formulas.now }
    requires recalls { Recalls (spelled (development_view development.now)) terms.now texts.old }
    ensures text { OnOk result (out.new.items ≡ out.old.items ++ formulas_text (spelled (development_view development.now)) (formulas_in terms.now formulas.now)) }
    ensures recalls { OnOk result (Recalls (spelled (development_view development.now)) terms.now texts.new) }
{
    for formula in formulas {
        push_space(out)?;
        push_repeated(out, texts, terms, development, *formula)?;
    }
    Ok(())
}

// What a condition is, and where it is.
fn push_head(
    out: &mut Vec<u8>,
    development: &Development,
    number: u64,
    condition: &Condition,
) -> Result<(), OutOfMemory>
    ensures { let d = development_view development.now in
        let p = place_of condition.now.place in
        OnOk result (out.new.items ≡ out.old.items ++ (codes "(condition " ++ decimal number ++ spaced (kind_word (kind_of condition.now.kind))
        ++ (spaced (or_hyphen (name_at (point_names d)) p.point) ++ spaced (passage_text d p.passage) ++ spaced (or_hyphen decimal p.path) ++ spaced (which_text d p.which)))) }
{
    push_text(out, "(condition ")?;
    push_number(out, number)?;
    push_spaced(out, kind_word(condition.kind))?;
    push_place(out, development, &condition.place)
}

/// How many variables there are, and the hypotheses.
pub(crate) fn push_known(
    out: &mut Vec<u8>,
    texts: &mut FormulaTexts,
    terms: &Terms,
    development: &Development,
    goal: &Goal,
) -> Result<(), OutOfMemory>
    requires formulas { AreFormulas terms.now goal.now.hypotheses }
    requires recalls { Recalls (spelled (development_view development.now)) terms.now texts.old }
    ensures text { OnOk result (out.new.items ≡ out.old.items ++ (codes " (vars " ++ decimal goal.now.vars ++ codes ") (hyps" ++ formulas_text (spelled (development_view development.now)) (formulas_in terms.now goal.now.hypotheses))) }
    ensures recalls { OnOk result (Recalls (spelled (development_view development.now)) terms.now texts.new) }
{
    push_text(out, " (vars ")?;
    push_number(out, u64::from(goal.vars))?;
    push_text(out, ") (hyps")?;
    push_hypotheses(out, texts, terms, development, goal.hypotheses.as_slice())
}

/// What is to be proved, and the end of the line. The formula may be in this line alone: its text is kept if it occurs again.
pub(crate) fn push_claim(
    out: &mut Vec<u8>,
    texts: &mut FormulaTexts,
    terms: &Terms,
    development: &Development,
    claim: FormulaId,
) -> Result<(), OutOfMemory>
    requires formula { IsFormula terms.now claim }
    requires recalls { Recalls (spelled (development_view development.now)) terms.now texts.old }
    ensures text { OnOk result (out.new.items ≡ out.old.items ++ (codes ") (goal" ++ spaced (spelled_formula (spelled (development_view development.now)) 0 (formula_in terms.now claim)) ++ codes "))")) }
    ensures recalls { OnOk result (Recalls (spelled (development_view development.now)) terms.now texts.new) }
{
    push_text(out, ") (goal ")?;
    if is_met(texts, claim)? {
        push_repeated(out, texts, terms, development, claim)?;
        return push_text(out, "))");
    }
    push_formula(out, terms, development, 0, claim)?;
    push_text(out, "))")
}

/// Appends the line of a condition, without a line feed. Texts of formulas are those of this development and
/// this table.
pub(crate) fn push_condition(
    out: &mut Vec<u8>,
    texts: &mut FormulaTexts,
    terms: &Terms,
    development: &Development,
    number: u64,
    condition: &Condition,
) -> Result<(), OutOfMemory>
    requires condition { IsCondition terms.now condition.now }
    requires recalls { Recalls (spelled (development_view development.now)) terms.now texts.old }
    ensures text { OnOk result (out.new.items ≡ out.old.items ++ condition_text (development_view development.now) number (condition_in terms.now condition.now)) }
    ensures recalls { OnOk result (Recalls (spelled (development_view development.now)) terms.now texts.new) }
{
    push_head(out, development, number, condition)?;
    push_known(out, texts, terms, development, &condition.goal)?;
    push_claim(out, texts, terms, development, condition.goal.goal)
}

/// The line of a condition, without a line feed: `(condition K KIND POINT EDGE PATH NUM (vars V) (hyps F ..) (goal F))`, where K
/// is its number. What is absent is a hyphen.
pub fn condition_text(
    alloc: Global,
    terms: &Terms,
    development: &Development,
    number: u64,
    condition: &Condition,
) -> Result<Vec<u8>, OutOfMemory>
    requires { IsCondition terms.now condition.now }
    ensures { IfOk result (λ text. text.items ≡ condition_text (development_view development.now) number (condition_in terms.now condition.now)) }
{
    let mut out = Vec::new(alloc);
    let mut texts = no_texts(alloc);
    push_condition(&mut out, &mut texts, terms, development, number, condition)?;
    Ok(out)
}

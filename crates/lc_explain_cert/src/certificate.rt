//! What is said of a certificate that is refused, or that is not found.
ghost use Rattle.lc_cond.specs.ConditionView.{IsCondition};

use crate::condition::condition_words;
use crate::depth::has_deep_terms;
use crate::ending::Ending;
use crate::failing::model_text;
use crate::flawed::{Flawed, said, with_variables};
use crate::names::Names;
use crate::numbered::{condition_at, part_of};
use crate::sentence::Sentence;
use crate::source::{About, Source, claim_place, push_places};
use crate::state::{goal_text, step_text};
use crate::stores::push_stores;
use lc_base::{OutOfMemory, Refusal};
use lc_cert::{EntryReader, Single};
use lc_cond::{Condition, Numbering};
use lc_explain::{Label, entry_span, place_from, proof_place, step_place};
use lc_kernel::Proof;
use lc_outline::Development;
use lc_place::{Place, item_place};
use lc_table::Terms;
use memchr::{memchr, memmem};
use std::alloc::Global;

/// The number of the condition that a refusal of a certificate is about.
fn number_in(refusal: &Refusal) -> Option<u64> {
    match refusal {
        Refusal::Missing(number)
        | Refusal::Extra(number)
        | Refusal::Proof(number, _, _)
        | Refusal::Large(number, _) => Some(*number),
        _ => None,
    }
}

/// The text of a file at a place.
fn text_at(bytes: &[u8], place: Place) -> Option<&[u8]> {
    bytes.get(place.offset..)?.get(..place.length)
}

/// The proof in an entry of a certificate. Of its place the line and the column are not those of the file.
fn proof_in(bytes: &[u8], entry: Place) -> Option<Place> {
    let part = item_place(text_at(bytes, entry)?, 3)?;
    Some(Place {
        offset: entry.offset.checked_add(part.offset)?,
        length: part.length,
        ..entry
    })
}

/// The place of a step of the proof in an entry of a certificate; that of the entry, if the proof has no such step.
fn step_in(bytes: &[u8], entry: Place, step: u64) -> Option<Place> {
    if let Some(proof) = proof_in(bytes, entry)
        && let Some(place) = step_place(bytes, proof, step)
    {
        return Some(place);
    }
    place_from(bytes, entry.offset)
}

/// The list of the proof of a condition in a certificate. Its first letters are looked for at once, if no comment may have them too.
fn entry_of(alloc: Global, bytes: &[u8], number: u64) -> Result<Option<Place>, OutOfMemory> {
    let head = format!(in alloc; "(proof {number} ")?;
    if memchr(b';', bytes).is_none()
        && let Some(offset) = memmem::find(bytes, head.as_bytes())
        && let Some(entry) = item_place(bytes.get(offset..).unwrap_or(&[]), 0)
    {
        return Ok(Some(Place { offset, ..entry }));
    }
    Ok(entry_span(bytes, number))
}

/// The place in a certificate that a refusal is about, where `entry` is the list of the proof that is wrong, if one is.
fn place_in(bytes: &[u8], number: u64, entry: Option<Place>, refusal: &Refusal) -> Option<Place> {
    match (refusal, Flawed::of(refusal), entry) {
        (_, Some(flawed), Some(entry)) => step_in(bytes, entry, flawed.step),
        (Refusal::Extra(_), None, _) => proof_place(bytes, Some(number)),
        // The word alone, since the list is the whole file.
        _ => item_place(bytes, 1),
    }
}

/// What is said of the proof of a condition, which asks what these words say.
pub(crate) fn sentence_of<'a>(number: u64, refusal: &Refusal, words: &'a str) -> Sentence<'a> {
    match Flawed::of(refusal) {
        Some(
            Flawed {
                step,
                reason: Some(reason),
            },
        ) => Sentence::BadStep {
            number,
            step,
            reason,
            words,
        },
        Some(Flawed { step, reason: None }) => Sentence::LargeStep {
            number,
            step,
            words,
        },
        None => Sentence::Missing { number, words },
    }
}

/// What is said of the place at which a condition is.
const OF_CONDITION: &str = "the condition is about this";

/// What is said in place of hypotheses whose terms are too deep.
const DEEP: &str = "  its terms are nested too deep to be shown\n";

/// The proof that a certificate has for a condition, in the list at `entry`.
fn proof_at(
    alloc: Global,
    development: &Development,
    bytes: &[u8],
    entry: Option<Place>,
    number: u64,
) -> Result<Option<Single>, OutOfMemory> {
    let Some(text) = entry.and_then(|place| text_at(bytes, place)) else {
        return Ok(None);
    };
    let reader = EntryReader::new(alloc, development.parts())?;
    reader.read(alloc, text, number, 0)
}

/// What is at a step of a proof of a condition.
fn lines_at(
    alloc: Global,
    names: &Names<'_>,
    terms: &Terms,
    condition: &Condition,
    proof: Option<&Proof>,
    flawed: Flawed,
) -> Result<Option<String>, OutOfMemory>
    requires { IsCondition terms.now condition.now }
{
    let (Some(proof), Ok(step)) = (proof, u32::try_from(flawed.step)) else {
        return Ok(None);
    };
    let reason = flawed.reason;
    step_text(alloc, names, terms, &condition.goal, proof, step, reason)
}

/// What is at the place where the proof of a condition is refused, or before it begins if there is none.
fn state_of(
    alloc: Global,
    development: &Development,
    terms: &Terms,
    condition: &Condition,
    proof: Option<&Proof>,
    flawed: Option<Flawed>,
) -> Result<Option<String>, OutOfMemory>
    requires { IsCondition terms.now condition.now }
{
    if has_deep_terms(alloc, terms, &condition.goal)? {
        return Ok(Some(String::from_str(alloc, DEEP)?));
    }
    let names = Names::of_condition(alloc, development.parts(), condition)?;
    let lines = match flawed {
        Some(flawed) => lines_at(alloc, &names, terms, condition, proof, flawed)?,
        None => Some(goal_text(alloc, &names, terms, &condition.goal)?),
    };
    with_variables(&names, lines)
}

/// What is said of a condition that a certificate does not prove, beside the places in files.
pub struct Flaw {
    about: About,
    /// What the condition asks.
    words: String,
    /// What is at the step of its proof that does not hold, or before the first.
    lines: Option<String>,
}

impl Drop for Flaw {
    fn drop(self) {
        let Flaw {
            about: _,
            words: _,
            lines: _,
        } = self;
    }
}

impl Flaw {
    /// What is said of a condition, if this proof of it is refused so, or there is none.
    pub fn new(
        alloc: Global,
        development: &Development,
        terms: &Terms,
        condition: &Condition,
        proof: Option<&Proof>,
        refusal: &Refusal,
    ) -> Result<Flaw, OutOfMemory>
        requires { IsCondition terms.now condition.now }
    {
        let flawed = Flawed::of(refusal);
        Ok(Flaw {
            about: About::of(condition),
            words: condition_words(alloc, development, condition)?,
            lines: state_of(alloc, development, terms, condition, proof, flawed)?,
        })
    }
}

/// What is said of the condition of a number, if there is one, of which the proof in the list at `entry` is refused so.
fn flaw_of(
    alloc: Global,
    development: &Development,
    bytes: &[u8],
    entry: Option<Place>,
    number: u64,
    refusal: &Refusal,
) -> Result<Option<Flaw>, OutOfMemory> {
    let mut terms = Terms::new(alloc);
    let Some(part) = part_of(alloc, development, &mut terms, number)? else {
        return Ok(None);
    };
    let Some(condition) = condition_at(&terms, &part, number) else {
        return Ok(None);
    };
    let single = proof_at(alloc, development, bytes, entry, number)?;
    let proof = single.as_ref().map(|single| &single.entry.proof);
    let flaw = Flaw::new(alloc, development, &terms, condition, proof, refusal)?;
    Ok(Some(flaw))
}

/// What is said of a condition that a certificate does not prove: the step of its proof, the places in the file of the development of
/// what it speaks of, and the hypotheses there.
fn flaw_explanation(
    alloc: Global,
    source: Source<'_>,
    development: &Development,
    flaw: &Flaw,
    said: Option<Vec<u8>>,
) -> Result<Option<Vec<u8>>, OutOfMemory> {
    let Some(mut text) = said else {
        return Ok(None);
    };
    let label = Label::Note;
    push_places(
        alloc,
        &mut text,
        source,
        development,
        flaw.about,
        label,
        OF_CONDITION,
    )?;
    if let Some(lines) = &flaw.lines {
        text.extend_from_slice(lines.as_bytes())?;
    }
    Ok(Some(text))
}

/// Where and why a certificate of a development is refused: what the condition asks, the step of its proof, the places in the file of the
/// development of what the condition speaks of, and the hypotheses there. What is said of the condition is `known`, or made once more.
/// Nothing is said if the refusal has no condition.
pub fn certificate_explanation(
    alloc: Global,
    path: &str,
    source: Source<'_>,
    development: &Development,
    bytes: &[u8],
    refusal: &Refusal,
    known: Option<&Flaw>,
) -> Result<Option<Vec<u8>>, OutOfMemory> {
    let Some(number) = number_in(refusal) else {
        return Ok(None);
    };
    let entry = match Flawed::of(refusal) {
        Some(_) => entry_of(alloc, bytes, number)?,
        None => None,
    };
    let place = place_in(bytes, number, entry, refusal);
    if let Some(flaw) = known {
        let sentence = sentence_of(number, refusal, &flaw.words);
        let text = said(alloc, path, bytes, place, sentence, None)?;
        return flaw_explanation(alloc, source, development, flaw, text);
    }
    let Some(flaw) = flaw_of(alloc, development, bytes, entry, number, refusal)? else {
        return said(alloc, path, bytes, place, Sentence::Extra(number), None);
    };
    let sentence = sentence_of(number, refusal, &flaw.words);
    let text = said(alloc, path, bytes, place, sentence, None)?;
    flaw_explanation(alloc, source, development, &flaw, text)
}

/// The hypotheses of a condition for which no proof was found, and a state in which it fails, if the search ended in a model, or
/// why it was given up.
fn unfound_lines(
    alloc: Global,
    development: &Development,
    terms: &Terms,
    condition: &Condition,
    ending: Ending<'_>,
) -> Result<String, OutOfMemory>
    requires { IsCondition terms.now condition.now }
{
    let names = Names::of_condition(alloc, development.parts(), condition)?;
    let mut text = goal_text(alloc, &names, terms, &condition.goal)?;
    names.push_variables(&mut text)?;
    if let Ending::Model(model) = ending {
        let kind = condition.kind;
        let said = model_text(alloc, &names, terms, kind, &condition.goal, model)?;
        text.push_str(&said)?;
    }
    let cause = ending.cause();
    if !cause.is_empty() {
        writeln!(text, "  the search was given up: {cause}")?;
    }
    Ok(text)
}

/// What is said below the places of a condition for which no proof was found.
fn unfound_state(
    alloc: Global,
    development: &Development,
    terms: &Terms,
    condition: &Condition,
    ending: Ending<'_>,
) -> Result<String, OutOfMemory>
    requires { IsCondition terms.now condition.now }
{
    if has_deep_terms(alloc, terms, &condition.goal)? {
        return Ok(String::from_str(alloc, DEEP)?);
    }
    unfound_lines(alloc, development, terms, condition, ending)
}

/// Appends to `text` a sentence of a condition, with the places in the file of the development of what it speaks of, its hypotheses, and a
/// state in which it fails, if the search for a proof ended in a model, or why it was given up.
fn push_condition(
    alloc: Global,
    text: &mut Vec<u8>,
    source: Source<'_>,
    development: &Development,
    terms: &Terms,
    condition: &Condition,
    label: Label,
    sentence: &str,
    ending: Ending<'_>,
) -> Result<(), OutOfMemory>
    requires { IsCondition terms.now condition.now }
{
    let about = About::of(condition);
    push_places(alloc, text, source, development, about, label, sentence)?;
    let lines = unfound_state(alloc, development, terms, condition, ending)?;
    text.extend_from_slice(lines.as_bytes())?;
    Ok(())
}

/// Appends to `text` what a condition asks for which no proof was found, with the places in the file of the development of what it speaks
/// of, its hypotheses, and a state in which it fails, if the search for a proof ended in a model, or why it was given up.
pub(crate) fn push_unfound(
    alloc: Global,
    text: &mut Vec<u8>,
    source: Source<'_>,
    development: &Development,
    terms: &Terms,
    number: u64,
    condition: &Condition,
    ending: Ending<'_>,
) -> Result<(), OutOfMemory>
    requires { IsCondition terms.now condition.now }
{
    let words = condition_words(alloc, development, condition)?;
    let sentence = format!(in alloc; "no proof of condition {number} was found ({words})")?;
    let label = Label::Error;
    push_condition(
        alloc,
        text,
        source,
        development,
        terms,
        condition,
        label,
        &sentence,
        ending,
    )?;
    let claim = claim_place(source, development, About::of(condition));
    push_stores(alloc, text, source, development, condition, claim)
}

/// What the condition of a number asks for which no proof was found, in full.
pub fn unfound_explanation(
    alloc: Global,
    source: Source<'_>,
    development: &Development,
    number: u64,
    ending: Ending<'_>,
) -> Result<Vec<u8>, OutOfMemory> {
    let mut terms = Terms::new(alloc);
    let mut text = Vec::new(alloc);
    let Some(part) = part_of(alloc, development, &mut terms, number)? else {
        return Ok(text);
    };
    let Some(condition) = condition_at(&terms, &part, number) else {
        return Ok(text);
    };
    push_unfound(
        alloc,
        &mut text,
        source,
        development,
        &terms,
        number,
        condition,
        ending,
    )?;
    Ok(text)
}

/// The condition of a number, with the places in the file of the development of what it speaks of, and its hypotheses by the names of the
/// file; nothing if there is no such condition.
pub fn condition_explanation(
    alloc: Global,
    source: Source<'_>,
    development: &Development,
    number: u64,
) -> Result<Vec<u8>, OutOfMemory> {
    let numbering = Numbering::new(alloc, development)?;
    let mut terms = Terms::new(alloc);
    let part = numbering.part_with(alloc, development, &mut terms, number)?;
    let mut text = Vec::new(alloc);
    let Some(condition) = condition_at(&terms, &part, number) else {
        return Ok(text);
    };
    let words = condition_words(alloc, development, condition)?;
    let sentence = format!(in alloc; "condition {number} ({words})")?;
    let label = Label::Note;
    push_condition(
        alloc,
        &mut text,
        source,
        development,
        &terms,
        condition,
        label,
        &sentence,
        Ending::Unknown,
    )?;
    Ok(text)
}

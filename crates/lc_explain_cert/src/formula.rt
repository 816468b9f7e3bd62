//! What is said of the proof in a formula file.
use crate::flawed::{Flawed, said, with_variables};
use crate::names::Names;
use crate::sentence::Sentence;
use crate::state::step_text;
use lc_base::{Fault, OutOfMemory, Refusal};
use lc_proof_text::formula_of;
use lc_sexp::{Cursor, Forms};
use std::alloc::Global;

/// The names in a list.
fn names_in<'a>(alloc: Global, list: Cursor<'a>) -> Result<Vec<&'a str>, OutOfMemory> {
    let mut names = Vec::new(alloc);
    let mut rest = list;
    for _ in 0..list.len() {
        if let Ok(name) = rest.name() {
            names.push(name)?;
        }
    }
    Ok(names)
}

/// The names of a list that begins with this word, which is the next in a list.
fn declared<'a>(
    alloc: Global,
    list: &mut Cursor<'a>,
    word: &str,
) -> Result<Vec<&'a str>, OutOfMemory> {
    match list.form(word) {
        Ok(part) => names_in(alloc, part),
        Err(_) => Ok(Vec::new(alloc)),
    }
}

/// The names that a formula file declares.
fn declared_names<'a>(alloc: Global, forms: Cursor<'a>) -> Result<Names<'a>, OutOfMemory> {
    let mut file = forms;
    let mut list = file.form("formula").unwrap_or(Cursor::empty());
    Ok(Names {
        variables: declared(alloc, &mut list, "vars")?,
        columns: declared(alloc, &mut list, "cols")?,
    })
}

/// What is at a step of the proof in a formula file with these forms.
fn state_in(
    alloc: Global,
    bytes: &[u8],
    forms: &Forms,
    flawed: Flawed,
) -> Result<Option<String>, OutOfMemory> {
    let Ok(step) = u32::try_from(flawed.step) else {
        return Ok(None);
    };
    let file = match formula_of(alloc, bytes) {
        Ok(file) => file,
        Err(Fault::Refused(_)) => return Ok(None),
        Err(Fault::OutOfMemory) => return Err(OutOfMemory),
    };
    let names = declared_names(alloc, forms.cursor())?;
    let lines = step_text(
        alloc,
        &names,
        &file.terms,
        &file.goal,
        &file.proof,
        step,
        flawed.reason,
    )?;
    with_variables(&names, lines)
}

/// What is at a step of the proof in a formula file.
fn state_of(alloc: Global, bytes: &[u8], flawed: Flawed) -> Result<Option<String>, OutOfMemory> {
    match Forms::read(alloc, bytes) {
        Ok(forms) => state_in(alloc, bytes, &forms, flawed),
        Err(Fault::Refused(_)) => Ok(None),
        Err(Fault::OutOfMemory) => Err(OutOfMemory),
    }
}

/// Where and why the proof in a formula file is refused. Nothing is said if the refusal names no step.
pub fn proof_explanation(
    alloc: Global,
    path: &str,
    bytes: &[u8],
    refusal: &Refusal,
) -> Result<Option<Vec<u8>>, OutOfMemory> {
    let Some(flawed) = Flawed::of(refusal) else {
        return Ok(None);
    };
    let step = flawed.step;
    let sentence = match flawed.reason {
        Some(reason) => Sentence::Bad { step, reason },
        None => Sentence::Large { step },
    };
    let place = flawed.place(bytes);
    let lines = state_of(alloc, bytes, flawed)?;
    said(alloc, path, bytes, place, sentence, lines)
}
